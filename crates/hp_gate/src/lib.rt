//! The handshake of an add on four atomic words: the monarch names processors one by one, and each passes the gate when it is named.
#![tactic(auto)]

mod answers;
mod gates;
mod laws;
mod rule;
mod seats;
mod views;

pub use answers::{Closed, Look, Pass};
pub use gates::Gate;
pub use laws::{each_opening_is_passed_once, views_tell_the_words};
pub use seats::{CpuSeat, MonarchSeat};
pub use views::Named;
