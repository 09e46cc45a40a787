//! What the power controller's side of a port keeps of one core.

use psci_messages::{Message, Start};

/// What is kept of a core, beside what the power controller keeps.
#[derive(Clone, Copy)]
pub struct Gate {
    /// The start that is written at its door.
    pub written: Option<Start>,
    /// The number of the start for which its door was opened last, 0 in a new life.
    pub opened: u32,
    /// The start in whose stop it said that it stands, as far as that was heard.
    pub word: u32,
    /// The message that waits until it stands.
    pub waiting: Option<Message>,
}

impl Gate {
    /// Nothing was written down of a core.
    pub const CLOSED: Gate = Gate {
        written: None,
        opened: 0,
        word: 0,
        waiting: None,
    };
}
