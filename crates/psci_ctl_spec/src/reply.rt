//! A reply of the power controller, as a history records it.

ghost use Rattle.std.specs.Prelude.{◌≡◌};

use crate::delivery::Delivery;
use crate::kick::Kick;

/// What the power controller replies.
#[derive(Drop)]
pub enum CtlReply {
    /// What became of a message.
    Delivery(Delivery),
    /// What became of a wake-up event or a reset.
    Kick(Kick),
}

impl CtlReply {
    /// An equal value, without memory.
    pub fn copy(&self) -> CtlReply
        ensures { result ≡ self.now }
    {
        match self {
            CtlReply::Delivery(delivery) => CtlReply::Delivery(delivery.copy()),
            CtlReply::Kick(kick) => CtlReply::Kick(*kick),
        }
    }
}
