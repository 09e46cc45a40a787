//! The power controller: it starts cores, and takes their power domains down as messages of the
//! firmware ask. The words and the definitions are those of `psci_ctl_spec`.
//!
//! - A *row* is what the power controller keeps of one core, or of one power domain.
#![tactic(auto)]

mod checking;
mod controller;
mod covering;
mod delivering;
mod domains;
mod done;
mod fault;
mod level;
mod loading;
mod row;
mod saving;
mod starting;

pub use controller::Controller;
pub use fault::SavedFault;
pub use loading::law_saved;
pub use psci_board::{Board, Core, Memory, Node};
pub use psci_ctl_spec::{
    Cause, CtlCall, CtlReply, Delivery, Kick, Start, law_acknowledgements, law_depths, law_limits,
    law_one_reply, law_past, law_replies, law_values,
};
pub use psci_messages::{Ack, Kind, Message, Part, Parts};
