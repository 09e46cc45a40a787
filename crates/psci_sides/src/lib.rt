//! A machine with both sides of a port.
//!
//! - A *machine* has the firmware, a monitor for each core, the power controller's side, the lock,
//!   the doors, the words of the cores, the mailbox, and power.
//! - A *step* is a call of a side with its orders carried out, or comes from outside.
//! - A step *serves* where it is of use to what is outstanding: a frame is delivered, a word heard,
//!   an acknowledgement taken, or a message sent again.
//! - A machine is *seen* as a port by its acts, of which the two sides tell the truth.
#![tactic(auto)]

mod laws;

pub use laws::law_sides;
