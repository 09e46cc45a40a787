//! The messages of cores that are outstanding, read off the firmware's book.

use psci_fw::{FwCall, FwReply};
use psci_messages::{Ack, Kind, Message, Taken};
use psci_shared::{Core, FwEntry};
use std::alloc::{AllocError, Global};

/// The last message of a core.
#[derive(Clone, Copy)]
struct Slot {
    /// None once the core has entered since, or an acknowledgement was used that says that it is
    /// carried out or out of date.
    message: Option<Message>,
    /// How many of its parts were applied.
    applied: u8,
}

/// What is outstanding of each core, as far as the book was read. Each entry is read once, so what
/// it takes to follow a run grows as its book does.
#[derive(Drop)]
pub(crate) struct Outstanding {
    slots: Vec<Slot>,
    /// How many entries were read.
    read: usize,
}

impl Outstanding {
    /// Of so many cores, before any entry.
    pub(crate) fn new(alloc: Global, cores: u16) -> Result<Outstanding, AllocError> {
        let mut slots = Vec::with_capacity(alloc, usize::from(cores))?;
        for _ in 0..cores {
            slots.push(Slot::EMPTY)?;
        }
        Ok(Outstanding { slots, read: 0 })
    }

    /// Reads the entries that were not read yet.
    pub(crate) fn read(&mut self, entries: &[FwEntry]) {
        for place in self.read..entries.len() {
            self.follow(&entries[place]);
        }
        self.read = entries.len();
    }

    /// The message of a core, if it is outstanding.
    pub(crate) fn of(&self, core: Core) -> Option<Message> {
        let Slot { message, applied } = *self.slots.get(usize::from(core.number))?;
        let message = message?;
        (usize::from(applied) < message.parts.as_slice().len().max(1)).then_some(message)
    }

    /// Reads one entry more.
    fn follow(&mut self, entry: &FwEntry) {
        match (&entry.call, &entry.reply) {
            (FwCall::Take(ack), FwReply::Taken(Taken::Used)) => self.used(ack),
            (call, FwReply::Out(outcome)) => {
                if let FwCall::Enter(_) = call {
                    self.put(entry.core, Slot::EMPTY);
                }
                if let Some(message) = outcome.message {
                    self.put(message.core, Slot::of(message));
                }
            }
            _ => {}
        }
    }

    /// An acknowledgement was used.
    fn used(&mut self, ack: &Ack) {
        if ack.stale || ack.kind != Kind::Down {
            self.put(ack.core, Slot::EMPTY);
        } else if let Some(slot) = self.slots.get_mut(usize::from(ack.core.number)) {
            slot.applied = slot.applied.max(ack.applied);
        }
    }

    fn put(&mut self, core: Core, sent: Slot) {
        if let Some(slot) = self.slots.get_mut(usize::from(core.number)) {
            *slot = sent;
        }
    }
}

impl Slot {
    /// Nothing is outstanding.
    const EMPTY: Slot = Slot {
        message: None,
        applied: 0,
    };

    /// This message is, and none of its parts was applied.
    fn of(message: Message) -> Slot {
        Slot {
            message: Some(message),
            applied: 0,
        }
    }
}
