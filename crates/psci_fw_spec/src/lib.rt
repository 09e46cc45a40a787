//! The firmware's answers, as definitions: the plain types of calls and replies, and in `specs/`
//! what each call is answered, what it leaves, and the same said backwards along a history.
//!
//! - A *call* is a secure monitor call (SMC) of a running core, a started core that enters, or an
//!   acknowledgement that arrives.
//! - A *start* is one power-up of a core; the starts of a core are numbered from 1 in each life.
//! - A *life* is the time from one power-up of the whole system to its next reset.
//! - An *exchange* is an item of a history: one call with its reply.
//! - A domain is named by its level and its index in that level, counted from 0 from the left.
//! - An *opening* is where a core goes on when it next enters: entry point and context id.
#![tactic(auto)]

mod answers;
mod call;
mod fault;
mod hw;
mod laws;
mod mode;
mod opening;
mod outcome;
mod reply;
mod status;

pub use answers::{law_answers_depend, law_halting_life, law_message_names};
pub use call::FwCall;
pub use fault::FwFault;
pub use hw::Hw;
pub use laws::{law_invariant, law_power_on, law_values};
pub use mode::SuspendMode;
pub use opening::Opening;
pub use outcome::{Act, Outcome};
pub use psci_abi::{Code, Parameter, Regs, Request, read};
pub use psci_board::{Board, Memory};
pub use psci_messages::{Ack, Cause, Kind, Message, Part, Start, Taken};
pub use reply::FwReply;
pub use status::Status;
