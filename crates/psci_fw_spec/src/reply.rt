//! A reply, as a history records it.

ghost use Rattle.std.specs.Prelude.{◌≡◌};

use crate::fault::FwFault;
use crate::outcome::Outcome;
use psci_messages::Taken;

/// What the firmware replies.
#[derive(Debug, PartialEq, Drop)]
pub enum FwReply {
    /// A call or an entry was carried out.
    Out(Outcome),
    /// An acknowledgement was taken.
    Taken(Taken),
    /// The call or entry was refused, and nothing changed.
    Fault(FwFault),
}

impl FwReply {
    /// An equal value, without memory.
    pub fn copy(&self) -> FwReply
        ensures { result ≡ self.now }
    {
        match self {
            FwReply::Out(outcome) => FwReply::Out(outcome.copy()),
            FwReply::Taken(taken) => FwReply::Taken(*taken),
            FwReply::Fault(fault) => FwReply::Fault(*fault),
        }
    }
}
