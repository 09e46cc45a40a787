//! Where a core goes on.

/// Where a core goes on when it next enters (CPU_ON: entry_point_address, context_id).
#[derive(Clone, Copy, Debug, PartialEq)]
pub struct Opening {
    /// The entry point: the address of the first instruction.
    pub address: u64,
    /// The context id, which the core finds in x0.
    pub context: u64,
}
