//! The start of a core.

ghost use Rattle.std.specs.Prelude.{◌≡◌};

/// Why a core was started.
#[derive(Clone, Copy, Debug, PartialEq, Eq)]
pub enum Cause {
    /// A life began: the boot core.
    Boot,
    /// A Start message, sent for an accepted CPU_ON.
    On,
    /// A wake-up event of a core that had stopped.
    Wake,
    /// A reset of the core alone.
    Reset,
}

/// One power-up of a core, as the power controller tells it to the core.
#[derive(Clone, Copy, Debug, PartialEq, Eq)]
pub struct Start {
    /// The life in which the core was started, counted from 1.
    pub life: u32,
    /// How many times the core was started in this life, this start included.
    pub number: u32,
    /// Why it was started.
    pub cause: Cause,
}

impl Start {
    /// An equal value, without memory.
    pub fn copy(&self) -> Start
        ensures { result ≡ self.now }
    {
        *self
    }
}
