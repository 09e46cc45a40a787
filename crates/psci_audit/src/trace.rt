//! What was asked of a firmware and a power controller.

use psci_shared::{CtlEntry, FwEntry};

/// The entries of both books, each in the order of its book.
#[derive(Drop)]
pub struct Trace {
    /// What the firmware was asked, with its replies.
    pub firmware: Vec<FwEntry>,
    /// What the power controller was asked, with its replies.
    pub controller: Vec<CtlEntry>,
}
