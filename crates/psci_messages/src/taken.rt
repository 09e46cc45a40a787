//! What becomes of an acknowledgement.

/// Whether an acknowledgement was of an outstanding message.
#[derive(Clone, Copy, Debug, PartialEq, Eq)]
pub enum Taken {
    /// It was of the outstanding message of its core or of the system.
    Used,
    /// It was not, and nothing changed.
    Old,
}
