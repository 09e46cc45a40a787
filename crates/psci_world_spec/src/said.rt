//! What is said of an event.

ghost use Rattle.std.specs.Prelude.{◌≡◌};

use crate::event::Event;
use psci_fw_spec::{Ack, Act, Message, Start, Taken};

/// A message, and how many messages were sent before it.
#[derive(Drop, Debug, PartialEq)]
pub struct Sent {
    /// Its number among all messages sent, counted from 0.
    pub index: u64,
    /// The message.
    pub message: Message,
}

impl Sent {
    /// An equal value, without memory.
    pub fn copy(&self) -> Sent
        ensures { result ≡ self.now }
    {
        Sent {
            index: self.index,
            message: self.message.copy(),
        }
    }
}

/// What is said of an event.
#[derive(Drop, Debug, PartialEq)]
pub enum Said {
    /// The firmware's outcome.
    Fw {
        /// What the core does next.
        act: Act,
        /// The message that the firmware sent, if it sent one.
        sent: Option<Sent>,
    },
    /// The power controller started the core.
    Kick(Start),
    /// The power controller acknowledged the message.
    Acked {
        /// The number of the acknowledgement among all made, counted from 0.
        index: u64,
        /// The acknowledgement.
        ack: Ack,
    },
    /// What became of the acknowledgement.
    Taken(Taken),
    /// Nothing of the kind happens to a core at its place, to a message of another life, or to a
    /// core that can be started no more.
    Ignored,
    /// The board has no such core, or there is no such message or acknowledgement.
    Absent,
}

impl Said {
    /// An equal value, without memory.
    pub fn copy(&self) -> Said
        ensures { result ≡ self.now }
    {
        match self {
            Said::Fw { act, sent } => Said::Fw {
                act: *act,
                sent: sent.as_ref().map(Sent::copy),
            },
            Said::Kick(start) => Said::Kick(*start),
            Said::Acked { index, ack } => Said::Acked {
                index: *index,
                ack: ack.copy(),
            },
            Said::Taken(taken) => Said::Taken(*taken),
            Said::Ignored => Said::Ignored,
            Said::Absent => Said::Absent,
        }
    }
}

/// An event, and what was said of it.
#[derive(Drop, Debug, PartialEq)]
pub struct Record {
    /// The event.
    pub event: Event,
    /// What was said of it.
    pub said: Said,
}

impl Record {
    /// An equal value, without memory.
    pub fn copy(&self) -> Record
        ensures { result ≡ self.now }
    {
        Record {
            event: self.event,
            said: self.said.copy(),
        }
    }
}
