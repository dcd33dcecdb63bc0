//! Tests of single lines of a trace and single steps of a script, as values.
#![tactic(auto)]

#[cfg(test)]
mod lines;
#[cfg(test)]
mod outcomes;
#[cfg(test)]
mod spellings;
