//! The platform: what the cores, power states and functions of a machine are called there, before
//! the firmware, which knows them by its board alone.
//!
//! - The *description* of a platform has an MPIDR for each core, a row for each power state word,
//!   and the functions that are there.
//! - A *state* of a level has a number, 0 for running, and a *class*: running, standby, retention
//!   or power-down, of which the depths of an ask speak.
//! - A *row* has a power state word, which of its bits count, and the state of each level.
//! - A call is *translated* where its registers name the cores, states and functions as the board
//!   and the firmware do.
#![tactic(auto)]

mod argument;
mod asked;
mod check;
mod class;
mod cores;
mod description;
mod fault;
mod firmware;
mod functions;
mod kept;
mod law;
mod mpidrs;
mod names;
mod platform;
mod readings;
mod ready;
mod row;
mod rows;
mod state_checks;
mod states;
mod swap;
mod tables;
mod translate;

pub use asked::Asked;
pub use class::Class;
pub use cores::affinity_word;
pub use description::{Classes, Description};
pub use fault::PlatformFault;
pub use firmware::PlatformFirmware;
pub use functions::Functions;
pub use law::{law_asked, law_boot_core, law_identity, law_missing, law_mpidrs, law_named};
pub use platform::Platform;
pub use psci_abi::Regs;
pub use psci_board::Board;
pub use psci_fw_spec::SuspendMode;
pub use row::Row;
pub use translate::Call;
