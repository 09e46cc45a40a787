//! What happens to the world.

ghost use Rattle.std.specs.Prelude.{◌≡◌};

use psci_fw_spec::Regs;

/// What happens. Cores go by their numbers; messages and acknowledgements by how many were sent or
/// made before them. Of each, any number may be named.
#[derive(Clone, Copy, Debug, PartialEq)]
pub enum Event {
    /// The core makes a secure monitor call with these registers.
    Call(u64, Regs),
    /// The core, which was started, enters the firmware.
    Enter(u64),
    /// A wake-up event of the core.
    Wake(u64),
    /// The core is reset by itself.
    Reset(u64),
    /// The power controller gets the message of this number, sent at any time before.
    Deliver(u64),
    /// The firmware gets the acknowledgement of this number, made at any time before.
    Take(u64),
}

impl Event {
    /// An equal value, without memory.
    pub fn copy(&self) -> Event
        ensures { result ≡ self.now }
    {
        *self
    }
}
