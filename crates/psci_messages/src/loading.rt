//! Words, as they are loaded into the slots of outstanding messages.

ghost use Rattle.std.specs.Prelude.{◌≡◌, ◌++◌, ◌+◌, ◌≤◌, ◌∷◌, true, flat_map, length};
ghost use Rattle.psci_messages.specs.Saved.{are_parts, are_parts_of, are_slots, AreOfMessage};
ghost use Rattle.psci_messages.specs.Saved.{is_slot, kind_of, message_words, parts_from};
ghost use Rattle.psci_messages.specs.Saved.{slot_words};

use crate::kind::Kind;
use crate::message::Message;
use crate::part::Part;
use crate::parts::Parts;
use crate::saving::SLOT_WORDS;
use crate::slot::Slot;
use psci_board::Core;

impl Slot {
    /// Has from now on what was saved as these words.
    pub fn load(&mut self, words: &[u64])
        requires { is_slot words.now ≡ true }
        ensures { slot_words self.new ≡ words.now }
    {
        match message_of(words) {
            Some(message) => self.fill(message),
            None => self.clear(),
        }
    }
}

/// Loads what was saved of as many slots.
pub fn load_slots(slots: &mut [Slot], words: &[u64])
    requires { are_slots (length slots.old) words.now ≡ true }
    ensures { flat_map slot_words slots.new ≡ words.now }
{
    let mut rest = words;
    for core in 0..slots.len() {
        let (own, others) = rest.split_at(SLOT_WORDS);
        slots[core].load(own);
        rest = others;
    }
}

/// What was saved of a slot: a message or none.
fn message_of(words: &[u64]) -> Option<Message>
    requires { is_slot words.now ≡ true }
    ensures { slot_words result ≡ words.now }
{
    let [kind, core, life, number, parts @ ..] = words else {
        return None;
    };
    if *kind == 0 {
        return None;
    }
    Some(message(*kind, *core, *life, *number, parts))
}

/// The message of these words.
fn message(kind: u64, core: u64, life: u64, number: u64, parts: &[u64]) -> Message
    requires { AreOfMessage kind core life number parts.now }
    ensures { message_words result ≡ kind ∷ core ∷ life ∷ number ∷ parts.now }
{
    let parts = parts_of(kind, parts);
    Message {
        kind: kind_of(kind),
        core: Core {
            number: core as u16,
        },
        life: life as u32,
        number: number as u32,
        parts,
    }
}

/// The parts of a message of this kind.
fn parts_of(kind: u64, words: &[u64]) -> Parts
    requires { are_parts_of kind words.now ≡ true }
    ensures { result ≡ parts_from 0 words.now }
{
    let mut parts = Parts::new();
    add_parts(&mut parts, words);
    parts
}

/// Adds the parts of these words, of the levels from that of the next part up.
fn add_parts(parts: &mut Parts, words: &[u64])
    requires room { length parts.old + length parts.old + length words.now ≤ 8 }
    requires deep { are_parts 3 words.now ≡ true }
    ensures { parts.new ≡ parts.old ++ parts_from (length parts.old) words.now }
{
    let [depth, generation, rest @ ..] = words else {
        return;
    };
    if *depth == 0 {
        return;
    }
    let level = parts.as_slice().len() as u32;
    parts.push(Part {
        level,
        depth: *depth as u8,
        generation: *generation,
    });
    add_parts(parts, rest);
}

/// The kind of this number.
fn kind_of(number: u64) -> Kind
    ensures { result ≡ kind_of number }
{
    match number {
        1 => Kind::Down,
        2 => Kind::Start,
        3 => Kind::Off,
        _ => Kind::Reset,
    }
}
