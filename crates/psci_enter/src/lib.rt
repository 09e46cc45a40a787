//! What a core's monitor decides around the calls of `psci_fw`, as code.
//!
//! - A *door* is what a core reads at its own: the start that is written there, and the number of
//!   the start for which it was opened last.
//! - A *post* is where the core's monitor is between two of its calls.
//! - The *side* of the firmware is what a core's monitor keeps. Its methods lend the firmware for a
//!   call, and return *orders*: what is to be done then.
#![tactic(auto)]

mod again;
mod laws;
mod order;
mod ordering;
mod post;
mod side;
mod told;

pub use again::Reminder;
pub use laws::{law_firmware, law_others, law_stands};
pub use order::{Entry, Look, Next, Orders, Stop};
pub use post::{Door, Post};
pub use side::FirmwareSide;
