//! What becomes of a wake-up event or a reset of a core.

ghost use Rattle.std.specs.Prelude.{◌≡◌};

use psci_messages::Start;

/// What becomes of a wake-up event or a reset of a core.
#[derive(Clone, Copy, Debug, PartialEq, Eq)]
pub enum Kick {
    /// The core was started.
    Started(Start),
    /// It was not, and nothing changed.
    Ignored,
}

impl Kick {
    /// An equal value, without memory.
    pub fn copy(&self) -> Kick
        ensures { result ≡ self.now }
    {
        *self
    }
}
