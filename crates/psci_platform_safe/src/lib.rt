//! The five sentences in a platform's own words: every legal run of a platform is safe.
//!
//! - A *history in the platform's words* has records as the world has them, in which each core goes
//!   by its MPIDR, and a call has the registers that its caller gave.
//! - It is *legal* where each answer is that of the firmware and the power controller behind the
//!   platform: the event is translated as `psci_platform` does it, and what is said of it is told
//!   with MPIDRs again.
//! - A power domain goes by its level and a core below it, or by a word of AFFINITY_INFO and
//!   NODE_HW_STATE, which names it by affinity fields.
#![tactic(auto)]

mod laws;

pub use laws::{law_asks_on, law_numbers, law_one_entry_on, law_runs_on, law_safe_on};
