//! Power state words of a platform.

use crate::class::LEVELS;

/// A power state word, and what it asks of each level.
#[derive(Clone, Copy, Debug, PartialEq, Eq)]
pub struct Row {
    /// The word: the parameter power_state of CPU_SUSPEND.
    pub word: u32,
    /// The bits of a call's word that count. The others may have any value.
    pub mask: u32,
    /// The number of the state of each level, 0 where the level goes on running.
    pub states: [u8; LEVELS],
}
