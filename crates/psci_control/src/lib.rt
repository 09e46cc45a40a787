//! What a port's power controller decides between the calls of `psci_ctl`, as code.
//!
//! - The *word* of a core is the number of the start in whose stop the core said that it stands.
//! - A *door* is where a core finds its start: that is written there, and the door opened for it.
//! - An *order* is what a machine is to do. The *side* of the power controller orders, and does
//!   nothing itself.
#![tactic(auto)]

mod control_side;
mod door;
mod gate;
mod guarded;
mod laws;
mod order;
mod ordering;
mod waiting;

pub use control_side::ControlSide;
pub use door::{DoorOrder, door_order, takes_up};
pub use gate::Gate;
pub use guarded::{deliver, wake};
pub use laws::law_control;
pub use order::{Ending, Order, Orders};
pub use waiting::{has_to_wait, is_heard};
