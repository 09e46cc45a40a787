//! What the firmware's side of a port orders.

use psci_fw_spec::{Cause, FwFault};
use psci_messages::Message;

/// How a core stands.
#[derive(Clone, Copy, Debug, PartialEq, Eq)]
pub enum Stop {
    /// It was suspended: a wake-up of its own may start it.
    Suspended,
    /// It was turned off, or parks: it waits for a start, and no interrupt wakes it.
    Off,
    /// The life ends: the message turns the system off, or resets it.
    Ending,
}

/// Where a core enters the normal world.
#[derive(Clone, Copy, Debug, PartialEq, Eq)]
pub struct Entry {
    /// The entry point: the address of the first instruction.
    pub address: u64,
    /// The context id, which the core finds in x0.
    pub context: u64,
    /// Why it was started, by which the state goes that it enters in: the machine's at a boot, that
    /// of the caller of CPU_ON, or the core's own from before its stop.
    pub cause: Cause,
}

/// What a core does once it has given the lock back.
#[derive(Clone, Copy, Debug, PartialEq)]
pub enum Next {
    /// It goes back to its caller, with this in x0.
    Leave(u64),
    /// It enters the normal world.
    Enter(Entry),
    /// It goes on behind its CPU_SUSPEND, with the registers that it kept and 0 in x0.
    Resume,
    /// It stands.
    Stand(Stop),
    /// The firmware refused, and nothing changed. No port that keeps its rules comes here.
    Refused(FwFault),
}

/// What one call orders.
#[derive(Debug, PartialEq, Drop)]
pub struct Orders {
    /// What goes into the mailbox, with the lock in hand; and then the power controller is rung.
    pub send: Option<Message>,
    /// What the core does once it has given the lock back.
    pub next: Next,
}

/// What a core does that waits for its start.
#[derive(Clone, Copy, Debug, PartialEq, Eq)]
pub enum Look {
    /// It took up the start at its door, and enters the firmware.
    Enter,
    /// It tells the power controller of its wake-up, in its stop of the start of this number.
    Tell(u32),
    /// It executes WFI, and looks again once that ends.
    Rest,
}
