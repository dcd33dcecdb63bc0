//! Tests of worlds: turns, events that are applied, and checks of entries.
#![tactic(auto)]

#[cfg(test)]
mod applied;
#[cfg(test)]
mod checks;
#[cfg(test)]
mod worlds;
