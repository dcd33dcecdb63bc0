//! The SMI handlers as one: whose row is due where a processor stands in SMM, what it wants, and where its answer leads.
#![tactic(auto)]

mod handlers;
mod laws;
mod relocated;

pub use handlers::{Handlers, SmmCpu};
pub use laws::a_processor_leaves_once_it_is_released;
