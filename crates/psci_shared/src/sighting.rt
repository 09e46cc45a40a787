//! What a poll saw.

use psci_status::{Core, Status};

/// A status of a core that was seen by a poll, with its serial: how many statuses were written of
/// the core before it.
#[derive(Clone, Copy, Debug, PartialEq)]
pub struct Sighting {
    /// The core.
    pub core: Core,
    /// The serial of the status.
    pub serial: u64,
    /// The status.
    pub status: Status,
}
