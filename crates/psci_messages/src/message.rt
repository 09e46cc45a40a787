//! Messages to the power controller.

use crate::kind::Kind;
use crate::parts::Parts;
use psci_board::Core;
use std::marker::Model;

/// A message to the power controller. Two messages of the same kind, core, life and number are the
/// same message.
#[derive(Clone, Copy, Debug, PartialEq, Eq)]
pub struct Message {
    /// What is asked for.
    pub kind: Kind,
    /// The core that a Start is for; else the core whose call sent the message.
    pub core: Core,
    /// The firmware's life.
    pub life: u32,
    /// The known start of that core, 0 if it has not entered in this life.
    pub number: u32,
    /// What a Down asks of the power domains on the sender's path; else nothing.
    pub parts: Parts,
}

impl Model for Message {
    ghost use Rattle.psci_messages.specs.Message.{MessageValue, IsMessage};

    ghost Value = { MessageValue };

    ghost view = { λ m. record {
      kind = m.kind;
      core = m.core;
      life = m.life;
      number = m.number;
      parts = m.parts;
    } };

    ghost invariant = { λ m. IsMessage (record {
      kind = m.kind;
      core = m.core;
      life = m.life;
      number = m.number;
      parts = m.parts;
    }) };

    ghost inverse = { λ m. record {
      kind = m.kind;
      core = m.core;
      life = m.life;
      number = m.number;
      parts = m.parts;
    } };
}

ghost use Rattle.std.specs.Prelude.{◌≡◌};

impl Message {
    /// The same message again.
    pub fn copy(&self) -> Message
        ensures { result ≡ self.now }
    {
        *self
    }
}
