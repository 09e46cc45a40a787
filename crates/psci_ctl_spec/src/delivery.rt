//! What becomes of a message that reaches the power controller.

ghost use Rattle.std.specs.Prelude.{◌≡◌};

use psci_messages::Ack;

/// What becomes of a message.
#[derive(Debug, PartialEq, Eq, Drop)]
pub enum Delivery {
    /// It was of this life, and is acknowledged: as carried out, in part or not at all.
    Applied(Ack),
    /// It was of another life, or there is no life. Nothing changed.
    Ignored,
}

impl Delivery {
    /// An equal value, without memory.
    pub fn copy(&self) -> Delivery
        ensures { result ≡ self.now }
    {
        match self {
            Delivery::Applied(ack) => Delivery::Applied(ack.copy()),
            Delivery::Ignored => Delivery::Ignored,
        }
    }
}
