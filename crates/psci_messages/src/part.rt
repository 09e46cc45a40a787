//! One part of a claim.

/// Asks a power domain to go to a depth.
#[derive(Clone, Copy, Debug, PartialEq, Eq, Default)]
pub struct Part {
    /// The level of the domain on the path of the core that stops: 0 for the core itself.
    pub level: u32,
    /// 1 standby, 2 retention, 3 power-down.
    pub depth: u8,
    /// The sum of the known starts of the cores below the domain, when the part was made.
    pub generation: u64,
}
