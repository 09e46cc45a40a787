//! The power controller's replies, as definitions: the plain types of calls and replies, and in
//! `specs/` what each call is answered, what it leaves, and the same along a history.
//!
//! - A *start* is one power-up of a core; the starts of a core are numbered from 1 in each life.
//! - A *life* is the time from one power-up of the whole system to its next reset.
//! - The *generation* of a claim is the sum of the starts of the cores below its domain that the
//!   firmware knew.
//! - A part of a message is *live* while its generation is the sum of the starts below its domain,
//!   in its life.
//! - A *depth* is how far a domain is down: 0 fully on, 1 standby, 2 retention, 3 power-down.
//! - An *exchange* is an item of a history: one call with its reply.
#![tactic(auto)]

mod call;
mod delivery;
mod kick;
mod laws;
mod reply;

pub use call::CtlCall;
pub use delivery::Delivery;
pub use kick::Kick;
pub use laws::{
    law_acknowledgements, law_depths, law_limits, law_one_reply, law_past, law_replies, law_values,
};
pub use psci_messages::{Cause, Start, law_parts};
pub use reply::CtlReply;
