//! Why words are no saved power controller.

/// Why words are no saved power controller of a board.
#[derive(Clone, Copy, Debug, PartialEq, Eq)]
pub enum SavedFault {
    /// There are more of them, or fewer, than are saved of the board.
    Length,
    /// The first word is not this format's.
    Format,
    /// The second word is not the sum of those after it.
    Sum,
    /// The life is beyond the board's last one.
    Life,
    /// A core was started more often than the board allows, or without a life; or the boot core was
    /// not started in a life.
    Starts,
    /// A power domain is deeper than power-down.
    Depth,
}
