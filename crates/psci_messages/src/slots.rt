//! The messages that wait for an acknowledgement.

use crate::ack::Ack;
use crate::kind::Kind;
use crate::loading::load_slots;
use crate::message::Message;
use crate::saving::{SLOT_WORDS, save_slot, save_slots};
use crate::slot::Slot;
use crate::taken::Taken;
use psci_board::{Core, Memory};
use std::alloc::Global;
use std::marker::Model;

/// The outstanding messages: at most one of each core, and one of the system.
#[derive(Drop)]
pub struct Slots {
    cores: Vec<Slot>,
    /// In memory of its own: empty, too, it is large to move.
    system: Box<Slot>,
}

impl Model for Slots {
    ghost use Rattle.psci_messages.specs.Slots.{SlotsValue};

    ghost Value = { SlotsValue };

    ghost view = { λ s. record { cores = s.cores.items; system = s.system.value } };
}

ghost use Rattle.std.specs.Prelude.{◌++◌, ◌+◌, ◌<◌, ◌≡◌, ◌≤◌, IfOk, IsSomeAnd, length, None};
ghost use Rattle.std.specs.Prelude.{option_map, replicate, slice_index_or, slice_set, Some, suc};
ghost use Rattle.std.specs.Prelude.{take, true};
ghost use Rattle.psci_messages.specs.Slots.{after_change, answered, is_done, IsOfCores, message_at};
ghost use Rattle.psci_messages.specs.Slots.{message_in, no_messages, slot_of, taken, with_message};
ghost use Rattle.std.specs.Borrow.{sem};
ghost use Rattle.psci_messages.specs.Outstanding.{LendsOfCore};
ghost use Rattle.psci_messages.specs.Saved.{AreKept, are_slots, slots_words};
ghost use Rattle.psci_messages.specs.declared.taken.Taken.TheVariants.{Old};
ghost use Rattle.psci_messages.specs.Slots.Change.{Put, Clear, ClearAll, Acknowledge};

impl Slots {
    /// No message is outstanding, on a board of so many cores.
    pub fn new(alloc: Global, cores: u16) -> Result<Slots, Memory>
        ensures slots { IfOk result (λ slots. slots ≡ no_messages cores) }
        ensures cores { IfOk result (λ slots. length slots.cores ≡ cores) }
    {
        Ok(Slots {
            cores: no_messages(alloc, cores)?,
            system: no_message(alloc)?,
        })
    }

    /// Notes that this message was sent: the one before it in its slot is forgotten.
    pub fn put(&mut self, message: Message)
        requires { IsOfCores (length self.old.cores) (slot_of message.kind message.core) }
        ensures slots { self.new ≡ after_change self.old (Put message) }
        ensures cores { length self.new.cores ≡ length self.old.cores }
    {
        match message.kind {
            Kind::Down | Kind::Start => fill_at(&mut self.cores, message),
            Kind::Off | Kind::Reset => self.system.fill(message),
        }
    }

    /// The slot of a core has a message from now on, which is lent where it stands, to be written
    /// over: at first it is any message.
    pub fn lend(&mut self, core: Core) -> &mut Message
        requires { core.number < length self.old.cores }
        ensures* writes_back { sem 𝓛 (LendsOfCore self.entry core.number result) }
    {
        let slot = &mut self.cores[core.number as usize];
        slot.lend()
    }

    /// Forgets the message of a core that enters.
    pub fn clear(&mut self, core: Core)
        ensures slots { self.new ≡ after_change self.old (Clear core) }
        ensures cores { length self.new.cores ≡ length self.old.cores }
    {
        clear_at(&mut self.cores, core);
    }

    /// Forgets all messages, as a life begins.
    pub fn clear_all(&mut self)
        ensures slots { self.new ≡ after_change self.old ClearAll }
        ensures cores { length self.new.cores ≡ length self.old.cores }
    {
        clear_each(&mut self.cores);
        self.system.clear();
    }

    /// Takes an acknowledgement. The message is forgotten where nothing of it is left to do. Of an
    /// old one nothing changes.
    pub fn take_ack(&mut self, ack: Ack) -> Taken
        ensures taken { result ≡ taken ack (message_in self.old (slot_of ack.kind ack.core)) }
        ensures slots { self.new ≡ after_change self.old (Acknowledge ack) }
        ensures old { result ≡ Old → self.new ≡ self.old }
        ensures cores { length self.new.cores ≡ length self.old.cores }
    {
        let Some(message) = self.answered(&ack) else {
            return Taken::Old;
        };
        let done = ack.is_done(message);
        self.finish(&ack, done);
        Taken::Used
    }

    /// The outstanding message that an acknowledgement is of.
    pub fn answered(&self, ack: &Ack) -> Option<&Message>
        ensures { option_map (λ message. message.now) result
            ≡ answered ack.now (message_in self.now (slot_of ack.now.kind ack.now.core)) }
    {
        match self.message(ack.kind, ack.core) {
            Some(message) if ack.answers(message) => Some(message),
            _ => None,
        }
    }

    /// Takes the acknowledgement of an outstanding message, by whether nothing of it is left to do:
    /// then it is forgotten.
    pub fn finish(&mut self, ack: &Ack, done: bool)
        requires { IsSomeAnd (answered ack.now (message_in self.old
            (slot_of ack.now.kind ack.now.core))) (λ message. done ≡ is_done ack.now message) }
        ensures slots { self.new ≡ after_change self.old (Acknowledge ack.now) }
        ensures cores { length self.new.cores ≡ length self.old.cores }
    {
        if done {
            self.forget(ack.kind, ack.core);
        }
    }

    /// Empties the slot of this kind and core, if the board has it.
    fn forget(&mut self, kind: Kind, core: Core)
        ensures slots { self.new ≡ with_message self.old (slot_of kind core) None }
        ensures cores { length self.new.cores ≡ length self.old.cores }
    {
        match kind {
            Kind::Down | Kind::Start => clear_at(&mut self.cores, core),
            Kind::Off | Kind::Reset => self.system.clear(),
        }
    }

    /// The outstanding message of the core of this number, or of the system at the number of cores.
    pub fn outstanding(&self, number: u16) -> Option<&Message>
        ensures { option_map (λ message. message.now) result ≡ message_at self.now number }
    {
        let number = number as usize;
        if number == self.cores.len() {
            self.system.message()
        } else {
            message_of(&self.cores, number)
        }
    }

    /// The outstanding message in the slot of this kind and core.
    pub fn message(&self, kind: Kind, core: Core) -> Option<&Message>
        ensures { option_map (λ message. message.now) result
            ≡ message_in self.now (slot_of kind core) }
    {
        match kind {
            Kind::Down | Kind::Start => message_of(&self.cores, core.number as usize),
            Kind::Off | Kind::Reset => self.system.message(),
        }
    }
}

impl Slots {
    /// Writes the messages from this place on: the slot of the system, then those of the cores. No
    /// other word is written before them.
    pub fn save(&self, words: &mut [u64], start: usize)
        requires { start + length (slots_words self.now) ≤ length words.old }
        ensures words { take (start + length (slots_words self.now)) words.new
            ≡ take start words.old ++ slots_words self.now }
        ensures kept { AreKept self.now }
    {
        save_slot(&self.system, words, start);
        save_slots(&self.cores, words, start + SLOT_WORDS);
    }

    /// Has from now on the messages that were saved as these words, in as many slots.
    pub fn load(&mut self, words: &[u64])
        requires { are_slots (suc (length self.old.cores)) words.now ≡ true }
        ensures words { slots_words self.new ≡ words.now }
        ensures cores { length self.new.cores ≡ length self.old.cores }
    {
        let (system, cores) = words.split_at(SLOT_WORDS);
        self.system.load(system);
        load_slots(&mut self.cores, cores);
    }
}

/// So many empty slots.
#[inline(never)]
fn no_messages(alloc: Global, cores: u16) -> Result<Vec<Slot>, Memory>
    ensures { IfOk result (λ slots. slots.items ≡ replicate cores None) }
{
    let mut slots = Vec::with_capacity(alloc, cores as usize)?;
    for _ in 0..cores {
        slots.push(Slot::empty())?;
    }
    Ok(slots)
}

/// An empty slot in memory of its own.
#[inline(never)]
fn no_message(alloc: Global) -> Result<Box<Slot>, Memory>
    ensures { IfOk result (λ slot. slot.value ≡ None) }
{
    Ok(Box::new(alloc, Slot::empty())?)
}

/// The message in the slot of this number.
fn message_of(slots: &[Slot], number: usize) -> Option<&Message>
    ensures { option_map (λ message. message.now) result ≡ slice_index_or slots.now number None }
{
    slots.get(number)?.message()
}

/// Fills the slot of the message's core.
fn fill_at(slots: &mut [Slot], message: Message)
    requires { message.core.number < length slots.old }
    ensures { slots.new ≡ slice_set slots.old message.core.number (Some message) }
{
    slots[message.core.number as usize].fill(message);
}

/// Empties the slot of a core.
fn clear_at(slots: &mut [Slot], core: Core)
    ensures { slots.new ≡ slice_set slots.old core.number None }
{
    let number = core.number as usize;
    if number < slots.len() {
        slots[number].clear();
    }
}

/// Empties all slots.
fn clear_each(slots: &mut [Slot])
    ensures { slots.new ≡ replicate (length slots.old) None }
{
    for slot in slots.iter_mut() {
        slot.clear();
    }
}
