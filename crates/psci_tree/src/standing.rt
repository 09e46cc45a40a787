//! How a power domain on the path of a core stands.

/// What a claim on a power domain is made of.
#[derive(Clone, Copy)]
pub struct Standing {
    /// The least ask of the domain of the cores below it.
    pub low: u8,
    /// The sum of the known starts of the cores below it.
    pub known: u64,
}
