//! Acknowledgements of the power controller.

use crate::kind::Kind;
use crate::message::Message;
use psci_board::Core;
use std::marker::Model;

/// What the power controller did with a message.
#[derive(Debug, PartialEq, Eq, Drop)]
pub struct Ack {
    /// The kind of the message.
    pub kind: Kind,
    /// The core of the message.
    pub core: Core,
    /// The life of the message.
    pub life: u32,
    /// The number of the message.
    pub number: u32,
    /// How many parts of a Down were applied; else 1 where the message was carried out, and 0 where
    /// it was not.
    pub applied: u8,
    /// Whether the message is out of date: what was not applied of it never will be.
    pub stale: bool,
}

impl Model for Ack {
    ghost use Rattle.psci_messages.specs.Message.{AckValue, IsAck};

    ghost Value = { AckValue };

    ghost view = { λ a. record {
      kind = a.kind;
      core = a.core;
      life = a.life;
      number = a.number;
      applied = a.applied;
      stale = a.stale;
    } };

    ghost invariant = { λ a. IsAck (record {
      kind = a.kind;
      core = a.core;
      life = a.life;
      number = a.number;
      applied = a.applied;
      stale = a.stale;
    }) };

    ghost inverse = { λ a. record {
      kind = a.kind;
      core = a.core;
      life = a.life;
      number = a.number;
      applied = a.applied;
      stale = a.stale;
    } };
}

ghost use Rattle.std.specs.Prelude.{◌≡◌};
ghost use Rattle.psci_messages.specs.Slots.{answers, is_done};

impl Ack {
    /// The same acknowledgement again.
    pub fn copy(&self) -> Ack
        ensures { result ≡ self.now }
    {
        Ack {
            kind: self.kind,
            core: self.core,
            life: self.life,
            number: self.number,
            applied: self.applied,
            stale: self.stale,
        }
    }

    /// Whether it is of this message: they have the same kind, core, life and number.
    pub fn answers(&self, message: &Message) -> bool
        ensures { result ≡ answers self.now message.now }
    {
        self.kind == message.kind
            && self.core == message.core
            && self.life == message.life
            && self.number == message.number
    }

    /// Whether nothing of this message is left to do.
    pub fn is_done(&self, message: &Message) -> bool
        ensures { result ≡ is_done self.now message.now }
    {
        self.stale
            || self.kind != Kind::Down
            || self.applied as usize >= message.parts.as_slice().len()
    }
}
