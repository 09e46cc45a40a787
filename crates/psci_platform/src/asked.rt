//! What a call of a platform asks beside what the firmware is told.

use crate::class::LEVELS;

/// Which of the platform's states or resets a call names, where the firmware knows the class alone.
#[derive(Clone, Copy, Debug, PartialEq, Eq)]
pub enum Asked {
    /// No state, and no reset of the vendor.
    Nothing,
    /// CPU_SUSPEND and SYSTEM_SUSPEND: the number of the state of each level.
    States([u8; LEVELS]),
    /// SYSTEM_RESET2: this reset type of the vendor.
    Reset(u32),
}
