//! Processors: presence, modes, latches, SMI entry and RSM.
#![tactic(auto)]

mod laws;
mod places;
mod processors;
mod save_area;

pub use laws::{
    an_smi_goes_before_init, an_smi_returns_to_its_page, init_and_sipi_leave_smbase,
    latches_hold_one, only_a_waiting_processor_starts, presence_changes_by_hot_plug_alone,
    rsm_aligns_smbase, smbase_changes_at_rsm_alone, what_is_put_is_read_back,
};
pub use places::Cpus;
pub use save_area::{SavePlan, Saved, get, put};
