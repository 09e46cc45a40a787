//! Whether words are those of slots.

ghost use Rattle.std.specs.Prelude.{◌≡◌};
ghost use Rattle.psci_messages.specs.Saved.{are_numbers, are_parts, are_parts_of, are_slots};
ghost use Rattle.psci_messages.specs.Saved.{are_zero, is_empty, is_message, is_part, is_slot};

use crate::saving::SLOT_WORDS;
use psci_state::POWER_DOWN;

/// The depth of power-down.
const DEEPEST: u64 = POWER_DOWN as u64;

/// The number of the kind of a Down.
const DOWN: u64 = 1;

/// How many words the parts of a message have.
const PART_WORDS: usize = 8;

/// Whether these are the words of so many slots, as they are saved: first that of the system.
pub fn are_slots(count: usize, words: &[u64]) -> bool
    ensures { result ≡ are_slots count words.now }
{
    let mut rest = words;
    for _ in 0..count {
        if rest.len() < SLOT_WORDS {
            return false;
        }
        let (own, others) = rest.split_at(SLOT_WORDS);
        if !is_slot(own) {
            return false;
        }
        rest = others;
    }
    rest.is_empty()
}

/// Whether these are the words of a slot.
fn is_slot(words: &[u64]) -> bool
    ensures { result ≡ is_slot words.now }
{
    is_empty(words) || is_message(words)
}

/// Whether these are the words of an empty slot.
fn is_empty(words: &[u64]) -> bool
    ensures { result ≡ is_empty words.now }
{
    words.len() == SLOT_WORDS && are_zero(words)
}

/// Whether all words are 0.
fn are_zero(words: &[u64]) -> bool
    ensures { result ≡ are_zero words.now }
{
    words.iter().all(|word| *word == 0)
}

/// Whether these are the words of a message.
fn is_message(words: &[u64]) -> bool
    ensures { result ≡ is_message words.now }
{
    let [kind, core, life, number, parts @ ..] = words else {
        return false;
    };
    (0 < *kind && *kind <= 4) && are_numbers(*core, *life, *number) && are_parts_of(*kind, parts)
}

/// Whether a message may have this core, life and number.
fn are_numbers(core: u64, life: u64, number: u64) -> bool
    ensures { result ≡ are_numbers core life number }
{
    core < 256 && life < 1 << 32 && number < 1 << 32
}

/// Whether a message of the kind of this number may have these parts.
fn are_parts_of(kind: u64, words: &[u64]) -> bool
    ensures { result ≡ are_parts_of kind words.now }
{
    if words.len() != PART_WORDS {
        return false;
    }
    if kind == DOWN {
        are_parts(DEEPEST, words) && words[0] > 0
    } else {
        are_parts(0, words)
    }
}

/// Whether these are depths and generations of parts, of which none is deeper than this.
#[tactic(auto, using(crate::proofs::SavedSlots::parts_by))]
fn are_parts(most: u64, words: &[u64]) -> bool
    ensures { result ≡ are_parts most words.now }
{
    let [depth, generation, rest @ ..] = words else {
        return words.is_empty();
    };
    is_part(most, *depth, *generation) && are_parts(*depth, rest)
}

/// Whether these are depth and generation of a part that is no deeper than this, or of none.
fn is_part(most: u64, depth: u64, generation: u64) -> bool
    ensures { result ≡ is_part most depth generation }
{
    depth <= most && (depth != 0 || generation == 0)
}
