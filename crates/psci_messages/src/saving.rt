//! Outstanding messages as words, one behind the other.

ghost use Rattle.std.specs.Prelude.{◌*◌, ◌++◌, ◌+◌, ◌≡◌, ◌≤◌, flat_map, length, None};
ghost use Rattle.std.specs.Prelude.{slice_index_or, Some, take, ℕ};
ghost use Rattle.psci_messages.specs.Message.{MessageValue};
ghost use Rattle.psci_messages.specs.Saved.{IsKept, kind_number, message_words, slot_words};

use crate::kind::Kind;
use crate::message::Message;
use crate::slot::Slot;

/// How many words a slot has: kind, core, life and number of its message, and of each of four parts
/// the depth and the generation.
pub const SLOT_WORDS: usize = 12;

/// Writes what these slots have, from this place on.
pub fn save_slots(slots: &[Slot], words: &mut [u64], start: usize)
    requires { start + 12 * length slots.now ≤ length words.old }
    ensures words { take (start + 12 * length slots.now) words.new
        ≡ take start words.old ++ flat_map slot_words slots.now }
    ensures kept { (k : ℕ) (m : MessageValue) → slice_index_or slots.now k None ≡ Some m
        → IsKept m }
{
    for core in 0..slots.len() {
        save_slot(&slots[core], words, start + SLOT_WORDS * core);
    }
}

/// Writes what a slot has, from this place on.
pub fn save_slot(slot: &Slot, words: &mut [u64], start: usize)
    requires { start + 12 ≤ length words.old }
    ensures words { take (start + 12) words.new ≡ take start words.old ++ slot_words slot.now }
    ensures kept { (m : MessageValue) → slot.now ≡ Some m → IsKept m }
{
    let own = words_of(slot);
    write(&own, words, start);
}

/// Writes these words from this place on.
pub fn write(own: &[u64], words: &mut [u64], start: usize)
    requires { start + length own.now ≤ length words.old }
    ensures { take (start + length own.now) words.new ≡ take start words.old ++ own.now }
{
    for place in 0..own.len() {
        words[start + place] = own[place];
    }
}

/// What a slot has, as words.
fn words_of(slot: &Slot) -> [u64; SLOT_WORDS]
    ensures words { result ≡ slot_words slot.now }
    ensures kept { (m : MessageValue) → slot.now ≡ Some m → IsKept m }
{
    match slot.message() {
        Some(message) => message_words(message),
        None => [0; SLOT_WORDS],
    }
}

/// A message as words.
#[tactic(auto, using(crate::proofs::SavedLaws::four_places))]
fn message_words(message: &Message) -> [u64; SLOT_WORDS]
    ensures words { result ≡ message_words message.now }
    ensures kept { IsKept message.now }
{
    let [core, first, second, third] = *message.parts.places();
    [
        kind_number(message.kind),
        u64::from(message.core.number),
        u64::from(message.life),
        u64::from(message.number),
        u64::from(core.depth),
        core.generation,
        u64::from(first.depth),
        first.generation,
        u64::from(second.depth),
        second.generation,
        u64::from(third.depth),
        third.generation,
    ]
}

/// The number of a kind.
fn kind_number(kind: Kind) -> u64
    ensures { result ≡ kind_number kind }
{
    match kind {
        Kind::Down => 1,
        Kind::Start => 2,
        Kind::Off => 3,
        Kind::Reset => 4,
    }
}
