//! A core that was started.

use psci_board::Core;
use psci_fw::{Outcome, Start};

/// A core that was started in a turn, and has entered.
#[derive(Drop, Debug, PartialEq)]
pub struct Arrival {
    /// The core.
    pub core: Core,
    /// By which start it entered.
    pub start: Start,
    /// What it does next: it executes from an entry point on, resumes, or stands, since nobody
    /// asked for its start. What it sent was delivered.
    pub outcome: Outcome,
}
