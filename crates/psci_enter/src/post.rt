//! Where a core's monitor is, and what it reads at the core's door.

use psci_messages::Start;

/// Where a core's monitor is between two of its calls.
#[derive(Clone, Copy, Debug, PartialEq, Eq)]
pub enum Post {
    /// The core stands, or was started and has not taken its start up: it looks at its door.
    Waiting,
    /// It took this start up, and is on its way into the firmware.
    Entering(Start),
    /// It is in the normal world, or in the monitor by a call of it.
    Running,
    /// It is on its way to its stop.
    Leaving,
    /// It said with the lock in hand that it stands, and its WFI is still to come.
    Armed,
    /// It was armed and heard its own wake-up, which started it: it has the lock to give back.
    Woken,
}

/// What a core reads at its door.
#[derive(Clone, Copy, Debug, PartialEq, Eq)]
pub struct Door {
    /// The number of the start for which it was opened last, 0 in a new life.
    pub opened: u32,
    /// The start that is written there.
    pub start: Option<Start>,
}
