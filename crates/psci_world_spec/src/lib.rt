//! The world over lists of events, as definitions: the plain types of events and records, and in
//! `specs/` what is said of each event, by the events before it and what was said of them.
//!
//! - An *event* is a call or an entry of a core, a wake-up, a reset, a delivered message or a taken
//!   acknowledgement.
//! - A *record* is an event with what was said of it; a *past* is a list of records, newest first.
//! - The *firmware's history* and the *controller's history* are the calls of each with their
//!   replies, as the records have them.
//! - The *place* of a core is where it is: started and not yet entered, running, or stopped.
//! - Messages are *sent* and acknowledgements *made* for ever: a message that is lost is one that
//!   no event delivers, one that is repeated is delivered by two.
#![tactic(auto)]

mod event;
mod laws;
mod place;
mod said;

pub use event::Event;
pub use laws::{law_histories, law_runs};
pub use place::Place;
pub use psci_fw_spec::{
    Ack, Act, Board, Code, Kind, Memory, Parameter, Part, Regs, Request, Taken, read,
};
pub use said::{Record, Said, Sent};
