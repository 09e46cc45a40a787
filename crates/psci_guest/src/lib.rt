//! Firmware and power controller as one, for the host of a hypervisor's guests.
//!
//! - A *turn* is what happens in one critical section: a core calls, has a wake-up event, or is
//!   reset; each message that this sends is delivered at once, and its acknowledgement taken; and
//!   a core that this starts enters.
//! - Between two turns all is *settled*: nothing is outstanding, and firmware and power controller
//!   agree on every domain.
#![tactic(auto)]

mod arrival;
mod fault;
mod guest;
mod laws;
mod pair;
mod saving;
mod sends;
mod steps;
mod turned;

pub use arrival::Arrival;
pub use fault::LoadFault;
pub use guest::GuestPower;
pub use laws::law_turns;
pub use pair::Pair;
pub use saving::law_goes_on;
pub use steps::law_steps;
pub use turned::Turned;
