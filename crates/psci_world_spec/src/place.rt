//! Where a core is.

/// Where a core is.
#[derive(Clone, Copy, Debug, PartialEq, Eq)]
pub enum Place {
    /// It was started, and has not entered the firmware since.
    Started,
    /// It has entered, and executes outside the firmware.
    Running,
    /// It executes nothing.
    Stopped,
}
