//! The machine, and the present of a world: what the answer to the next event needs, of firmware,
//! power controller and cores, in a run over a list of events. The words and the definitions are
//! those of `psci_world_spec`.
//!
//! - The *machine* is all that an event changes beside the lists: the firmware, the power
//!   controller, and where each core is.
//! - The *present* is the machine with all messages and acknowledgements so far.
//! - Its *past* is all records so far. It keeps none of them.
#![tactic(auto)]

mod asking;
mod machine;
mod present;
mod starting;

pub use machine::Machine;
pub use present::Present;
pub use psci_ctl::{Ack, Board, Controller, Core, Kind, Memory, Message, Node, Part, Parts};
pub use psci_fw::{Act, Cause, Code, Firmware, Regs, Start, Status, Taken};
pub use psci_headline::{law_live_claims, law_safe};
pub use psci_world_spec::{Event, Place, Record, Said, Sent, law_histories, law_runs};
