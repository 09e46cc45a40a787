//! What a platform finds out once.

use crate::names::Table;
use crate::readings::Reading;

/// The names of its cores and power domains, and what its rows are to the firmware.
#[derive(Drop)]
pub struct Ready {
    /// The names, by level.
    pub tables: Vec<Table>,
    /// What the rows are.
    pub readings: Vec<Reading>,
}
