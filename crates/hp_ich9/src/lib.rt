//! ICH9's ports: the SMI command and status, SMI enable, and the status of general-purpose events.
#![tactic(auto)]

mod flags;
mod laws;
mod ports;

pub use laws::{
    apm_cnt_raises_with_apmc_en, gpe_status_goes_bit_by_bit, other_accesses_do_nothing,
    what_was_written_is_read_back,
};
pub use ports::{Ich9, Raise};
