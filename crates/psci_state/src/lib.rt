//! Power states: what a core asks of the power domains on its path when it suspends, and what is
//! kept of a core.
//!
//! - A *depth* is how far a power domain may go down: 0 fully on, 1 standby, 2 retention,
//!   3 power-down.
//! - An *ask* has a depth for each level, from 0 (the core) to 3. It is 1 to 3 at level 0 and never
//!   grows upwards.
//! - A *power state word* is the parameter power_state of CPU_SUSPEND (DEN0022D), in the original
//!   or the extended StateID format.
//! - Its *state id* holds the ask: four bits per level, level 0 in the lowest.
//! - A core is *active* while it is running or pending, *suspended* with an ask, or *off*, which
//!   includes going off. Its *known start* is the number of its last start that was seen to enter.
#![tactic(auto)]

mod ask;
mod cores;
mod fault;
mod fields;
mod law;

pub use ask::{Ask, POWER_DOWN};
pub use cores::{Activity, Change, CoreState, NEVER_STARTED};
pub use fault::BadState;
pub use law::law_power_states;
