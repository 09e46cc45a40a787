//! What comes of a turn.

use crate::arrival::Arrival;
use psci_fw::Outcome;

/// What comes of a call.
#[derive(Drop, Debug, PartialEq)]
pub struct Turned {
    /// What the caller does next: it goes on with a code, or stands. What it sent was delivered.
    pub outcome: Outcome,
    /// The core that was started, if one was: the target of a CPU_ON, or the boot core in the next
    /// life.
    pub arrival: Option<Arrival>,
    /// The life after the turn: None once the system is off, another one than before once it was
    /// reset.
    pub life: Option<u32>,
}
