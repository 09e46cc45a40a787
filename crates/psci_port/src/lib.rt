//! What a port does around the firmware and the power controller, as definitions and laws.
//!
//! - A *port* is what a machine has beside the two: a lock, a door for each core, words in which
//!   a core says that it stands, and power that is switched.
//! - An *act* is one step of a core or of the power controller. Between two acts any other core,
//!   and the power controller, may act.
//! - A *stage* is where a core is, the monitor included; it is *armed* where it said that it stands
//!   and has its WFI still to come.
//! - A *port run* is a list of acts that keep the rules of a port; it is *true* where the firmware
//!   answers by its definitions, and the mailbox invents nothing.
#![tactic(auto)]

mod deliveries;
mod laws;

pub use deliveries::law_undone;
pub use laws::{law_agrees, law_lock, law_port, law_power, law_rests, law_starts};
