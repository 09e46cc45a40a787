//! What is asked of the power controller.

/// What a message asks for.
#[derive(Clone, Copy, Debug, PartialEq, Eq)]
pub enum Kind {
    /// Power the sender down, and the power domains above it as far as they may go.
    Down,
    /// Start the core.
    Start,
    /// Power the system off.
    Off,
    /// Reset the system.
    Reset,
}
