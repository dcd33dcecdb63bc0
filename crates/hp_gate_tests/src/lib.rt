//! Tests of the gate on atomic words.
#![tactic(auto)]

#[cfg(test)]
mod drills;
#[cfg(test)]
mod handshakes;
