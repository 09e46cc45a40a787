//! A slot for a message.

use crate::kind::Kind;
use crate::message::Message;
use crate::parts::Parts;
use psci_board::Core;
use std::marker::Model;

/// A slot, which has a message or none. What it had stays where it stands when it is emptied, so
/// that this is one write.
#[derive(Drop)]
pub struct Slot {
    full: bool,
    message: Message,
}

impl Model for Slot {
    ghost use Rattle.std.specs.Prelude.{Option, None, Some, if◌then◌else◌};
    ghost use Rattle.psci_messages.specs.Message.{MessageValue};

    ghost Value = { Option MessageValue };

    ghost view = { λ s. if s.full then Some s.message else None };
}

ghost use Rattle.std.specs.Prelude.{◌≡◌, None, Some, option_map};
ghost use Rattle.std.specs.Borrow.{sem};
ghost use Rattle.psci_messages.specs.Outstanding.{LendsFilled};

impl Slot {
    /// An empty slot.
    pub fn empty() -> Slot
        ensures { result ≡ None }
    {
        Slot {
            full: false,
            message: Message {
                kind: Kind::Start,
                core: Core { number: 0 },
                life: 0,
                number: 0,
                parts: Parts::new(),
            },
        }
    }

    /// The message in it.
    pub fn message(&self) -> Option<&Message>
        ensures { option_map (λ message. message.now) result ≡ self.now }
    {
        if self.full { Some(&self.message) } else { None }
    }

    /// Has this message from now on.
    pub fn fill(&mut self, message: Message)
        ensures { self.new ≡ Some message }
    {
        self.full = true;
        self.message = message;
    }

    /// Has a message from now on, which is lent where it stands, to be written over: at first it is
    /// any message.
    pub fn lend(&mut self) -> &mut Message
        ensures* writes_back { sem 𝓛 (LendsFilled self.entry result) }
    {
        self.full = true;
        &mut self.message
    }

    /// Is empty from now on.
    pub fn clear(&mut self)
        ensures { self.new ≡ None }
    {
        self.full = false;
    }
}
