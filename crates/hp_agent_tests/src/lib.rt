//! Tests of agents by their own calls, and in a world.
#![tactic(auto)]

#[cfg(test)]
mod agents;
#[cfg(test)]
mod echoes;
#[cfg(test)]
mod handed;
