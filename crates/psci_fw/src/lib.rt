//! The power firmware: what it answers to the calls of the cores, and what it keeps for them. The
//! words and the definitions are those of `psci_fw_spec`.
//!
//! - The *state* of the firmware is its board, and all that a call changes.
//! - A *row* is what the state keeps of one core beside the tree of power domains.
//! - The *dispatch* of a call is the choice of the function that its registers name.
//! - A *claim* is what a core that stops asks of its power domains, and so sends.
#![tactic(auto)]

mod affinity;
mod entering;
mod fault;
mod firmware;
mod hw;
mod laws;
mod mode;
mod off;
mod on;
mod reaction;
mod saving;
mod smc;
mod suspend;
mod system;

pub use fault::OpenFault;
pub use firmware::Firmware;
pub use psci_abi::{Code, Regs};
pub use psci_board::law_sizes;
pub use psci_fw_spec::{
    Act, Cause, FwCall, FwFault, FwReply, Hw, Opening, Outcome, Start, Status, SuspendMode,
    law_power_on, law_values,
};
pub use psci_fw_state::SavedFault;
pub use psci_messages::Taken;
pub use reaction::Reaction;
pub use saving::{law_alike, law_saved};
