//! The law of slots as words: the contract of a function that does nothing.

ghost use Rattle.std.specs.Prelude.{◌≡◌, ◌+◌, ◌*◌, suc, true, length};
ghost use Rattle.psci_messages.specs.Saved.{AreKept, are_slots, slots_words};
ghost use Rattle.psci_messages.specs.Slots.{SlotsValue};

/// Words that were saved are the words of slots, 12 of each, and tell what is in them: so slots
/// that are loaded from them are those that were saved.
pub fn law_slots_words()
    ensures count { (s : SlotsValue) → length (slots_words s) ≡ 12 * (length s.cores + 1) }
    ensures whole { (s : SlotsValue) → AreKept s
        → are_slots (suc (length s.cores)) (slots_words s) ≡ true }
    ensures same { (s t : SlotsValue) → AreKept s → AreKept t → length s.cores ≡ length t.cores
        → slots_words s ≡ slots_words t → s ≡ t }
{}
