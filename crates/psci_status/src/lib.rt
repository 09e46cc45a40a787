//! The status of each core, in a word that is read without the lock, and a firmware with the writer
//! of its words, which is what a port keeps.
//!
//! - A *word* holds a core's status and its *serial*: how many were written before. An *item* is
//!   a status with its serial. A *poll* is one load of a word, with no lock.
//! - A *seat* is a token that a thread steps with: the *writer*'s or a *reader*'s. What it knows is
//!   its *view*, which stands in no memory: each status that was written, or the items it has seen.
//! - Writer and reader *meet* under the lock: each learns the last that the other knows.
//! - The *locked value* is a firmware with its writer. Its *history* stands in its type alone: a
//!   legal one left its values, and what was written of each core are its statuses in it.
#![tactic(auto)]

mod coding;
mod laws;
mod poll;
mod polled;
mod rule;
mod seats;
mod words;
mod writing;

pub use laws::{law_few_statuses, law_statuses_stay};
pub use poll::affinity_core;
pub use polled::PolledFirmware;
pub use psci_board::{Board, Core, Memory};
pub use psci_fw::{Code, Firmware, FwFault, Outcome, Reaction, Regs, Start, Taken};
pub use psci_fw_spec::Status;
pub use seats::{Reader, Reading, StatusWords, Writer};
pub use writing::{asked_on, write_changed};
