//! The state of the power firmware: what it keeps for the cores, and a method for each change of
//! it. What a call is answered, and which changes it comes to, is `psci_fw`. The words and the
//! definitions are those of `psci_fw_spec`.
//!
//! - The *state* of the firmware is its board, and all that a call changes.
//! - A *row* is what the state keeps of one core beside the tree of power domains.
//! - The *counts* of a power domain are how many of the cores below it are ON, and how many
//!   ON_PENDING.
//! - A *claim* is what a core that stops asks of its power domains, and so sends.
#![tactic(auto)]

mod arrival;
mod changes;
mod claim;
mod confirm;
mod counts;
mod domain;
mod fault;
mod newness;
mod row;
mod savable;
mod saved_laws;
mod saved_parts;
mod saving;
mod soundness;
mod state;
mod whole;

pub use fault::SavedFault;
pub use psci_coord::Wish;
pub use saved_laws::{law_new, law_saved_state, law_sound};
pub use state::State;
