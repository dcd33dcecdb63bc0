//! Tests of the edge: what no platform file can say of `top`.
#![tactic(auto)]

#[cfg(test)]
mod edge;
#[cfg(test)]
mod handed;
#[cfg(test)]
mod meetings;
