//! The monarch, the handler of processor 0 in SMM (own rule): a session from SMI entry to RSM.
#![tactic(auto)]

mod decisions;
mod laws;
mod rows;
mod sessions;

pub use laws::{
    a_session_keeps_its_order, an_eject_keeps_its_order, each_row_leads_to_a_successor,
};
pub use sessions::{Monarch, Phase};
