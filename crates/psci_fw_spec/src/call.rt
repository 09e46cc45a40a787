//! A call, as a history records it.

ghost use Rattle.std.specs.Prelude.{◌≡◌};

use psci_abi::Regs;
use psci_messages::{Ack, Start};

/// What is asked of the firmware.
#[derive(Debug, PartialEq, Drop)]
pub enum FwCall {
    /// A core makes a secure monitor call with these registers.
    Smc(Regs),
    /// A core enters that was started so.
    Enter(Start),
    /// An acknowledgement of the power controller has arrived. No core is named by it.
    Take(Ack),
}

impl FwCall {
    /// An equal value, without memory.
    pub fn copy(&self) -> FwCall
        ensures { result ≡ self.now }
    {
        match self {
            FwCall::Smc(regs) => FwCall::Smc(*regs),
            FwCall::Enter(start) => FwCall::Enter(*start),
            FwCall::Take(ack) => FwCall::Take(ack.copy()),
        }
    }
}
