//! What holds of the firmware by itself: after every legal history, whatever starts and
//! acknowledgements it is told of; that no core is special to it; and that it refuses and confirms
//! exactly where it has to.
//!
//! - A *claim* on a power domain in a life is what a Down of the life asks of it, or that of the
//!   life's start: power-down, with generation 0, of each domain off the boot core's path.
//! - It is *current* while its generation is the sum of the known starts below its domain, so
//!   while no core below has entered since.
//! - What a generation *lacks* is the difference of the two.
//! - To *renumber* cores is to tell of each by another number, and of each domain by another place,
//!   so that every domain above a core is told by its other place too. The board stays as it is.
//! - A value or message is told *by* a renumbering where it says of the other numbers what was
//!   said of the first ones. A request asks by it what another one asks if its affinity word
//!   names the core or domain of the other number.
#![tactic(auto)]

mod exactly;
mod kept;
mod laws;
mod renumbered;

pub use exactly::{law_confirmed_exactly, law_hw_exactly, law_refused_exactly};
pub use kept::law_kept;
pub use laws::{law_asked, law_claimed, law_granted, law_new_life};
pub use psci_fw_spec::{law_invariant, law_power_on, law_values};
pub use renumbered::{law_no_core_is_special, law_renumberings};
