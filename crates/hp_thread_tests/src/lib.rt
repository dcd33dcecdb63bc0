//! Tests of worlds whose turns are made by threads.
#![tactic(auto)]

#[cfg(test)]
mod hosts;
#[cfg(test)]
mod orders;
#[cfg(test)]
mod shares;
#[cfg(test)]
mod worlds;
