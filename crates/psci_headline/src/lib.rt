//! What it is for a run to be safe, and that every legal run is; how the world settles once
//! messages get through, and that firmware and power controller agree on every domain then.
//!
//! - A *moment* is what is so after all records so far; a *test* computes whether a saying holds.
//! - A *claim* is what a Down or the start of a life asks of a domain: a depth and a *generation*,
//!   the sum of the known starts below. It is *live* while that is the sum of all.
//! - An *opening* is an entry point and a context id for the next entry of a core.
//! - A core is *at its place* where a call or an entry may happen to it: running, or started.
//! - A message is *served* when it is delivered and its acknowledgement is taken; a *round* does so
//!   for each core once. The world is *at rest* when nothing is left to serve or to enter.
#![tactic(auto)]

mod affinity;
mod agreement;
mod hardware;
mod laws;
mod live;
mod openings;
mod powered_down;
mod settle_laws;
mod testing;
mod told;

pub use affinity::law_told_off;
pub use agreement::{law_acknowledged, law_agreement, law_controlled, law_never_refused, law_sent};
pub use hardware::{law_states_real, law_told_hw};
pub use laws::law_safe;
pub use live::{law_asked_claims, law_claimed_depths, law_live_claims, law_none_executes};
pub use openings::law_one_entry;
pub use powered_down::law_off_is_down;
pub use psci_board::law_paths;
pub use psci_ctl_spec::{law_depths, law_limits};
pub use psci_fw_laws::{
    law_asked, law_claimed, law_granted, law_invariant, law_kept, law_power_on, law_values,
};
pub use psci_world_spec::law_histories;
pub use settle_laws::{law_settles, law_waiting};
pub use testing::law_tested;
pub use told::{law_complete, law_confirming, law_told_whole};
