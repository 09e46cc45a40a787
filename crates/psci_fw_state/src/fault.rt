//! Why words are no saved state of the firmware.

/// Why words are no saved state of a board's firmware: the first reason in this order.
#[derive(Clone, Copy, Debug, PartialEq, Eq)]
pub enum SavedFault {
    /// There are more of them, or fewer, than are saved of the board.
    Length,
    /// The first word is not this format's.
    Format,
    /// The second word is not the sum of those after it.
    Sum,
    /// The life is beyond the board's last one.
    Life,
    /// Neither halting nor not, or of no mode.
    Mode,
    /// A core does nothing that a core can do, or its known start has more than 32 bits.
    Core,
    /// A power domain is deeper than power-down, than the one below it on a path, or confirmed at
    /// more than was granted.
    Depth,
    /// A core has no status, or it has words of an opening and no opening.
    Row,
    /// A slot has no message that a core or the system can have sent.
    Message,
}
