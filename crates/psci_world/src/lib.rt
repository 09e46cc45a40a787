//! The world: the firmware, the power controller and the cores, in a run over a list of events; and
//! how it comes to rest. The words and the definitions are those of `psci_world_spec`.
//!
//! - The *present* of `psci_machine` is what the answer to the next event needs.
//! - The *world* is the present with its past, all records so far.
//! - A message is *outstanding* while the firmware waits for its acknowledgement.
//! - To *answer* a message is to deliver it, and to take its acknowledgement. What settling is, and
//!   why it ends, are `psci_headline`'s.
#![tactic(auto)]

mod settling;
mod world;

pub use psci_machine::{
    Ack, Act, Board, Cause, Code, Controller, Core, Event, Firmware, Kind, Memory, Message, Node,
    Part, Parts, Place, Record, Regs, Said, Sent, Start, Status, Taken, law_histories,
    law_live_claims, law_runs, law_safe,
};
pub use settling::{Settled, run, settle};
pub use world::World;
