//! The device fw_cfg: its items, the negotiation of SMI features, and its transfers by DMA.
#![tactic(auto)]

mod descriptors;
mod device;
mod features;
mod items;
mod laws;
mod transfers;

pub use device::FwCfg;
pub use items::directory;
pub use laws::{
    a_device_stays_sound, a_failed_transfer_only_selects, bytes_are_read_one_by_one,
    bytes_turned_twice_are_as_before, requests_are_a_chain, transfers_are_short,
    what_is_negotiated_stays, what_is_written_is_read_back,
};
pub use transfers::Transfer;
