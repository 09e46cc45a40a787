//! What the arguments of a function are.

/// What an argument is.
#[derive(Clone, Copy, Debug, PartialEq, Eq)]
pub enum Parameter {
    /// A power state word, of 32 bits.
    PowerState,
    /// The affinity word of a core, or of a power domain where a level comes next.
    Target,
    /// The level of a power domain, of 32 bits.
    Level,
    /// An entry point.
    Entry,
    /// A context id.
    Context,
    /// A function word that is asked about, of 32 bits.
    Word,
    /// A mode of suspends, of 32 bits.
    Mode,
    /// A type of reset, of 32 bits.
    ResetType,
    /// A value for resets of a vendor.
    Cookie,
    /// No argument.
    Nothing,
}
