//! The laws of parts and of slots: a list is a claim where each part is as it should be, and the
//! slots hold what their changes say. A law is the contract of a function that does nothing.

ghost use Rattle.std.specs.Prelude.{◌≡◌, ℕ, List, ◌∷◌, Some, true, length};
ghost use Rattle.psci_messages.specs.declared.part.Part.{Part};
ghost use Rattle.psci_messages.specs.Message.{MessageValue, AreClaims, PartByPart};
ghost use Rattle.psci_messages.specs.Slots.{after_all, after_change, Change, changed, is_slot};
ghost use Rattle.psci_messages.specs.Slots.{message_in, Slot, slot_of, SlotsValue};
ghost use Rattle.psci_messages.specs.Outstanding.{outstanding, IsChange, AreChanges};

/// A list of parts is a claim exactly where each of its parts is as it should be.
pub fn law_parts()
    ensures claim { (ps : List Part) → PartByPart ps → AreClaims ps }
    ensures parts { (ps : List Part) → AreClaims ps → PartByPart ps }
{}

/// The slots hold what the history of changes says.
pub fn law_slots()
    // What each change leaves in each slot.
    ensures changed { (slots : SlotsValue) (change : Change) → IsChange (length slots.cores) change
        → (slot : Slot) → message_in (after_change slots change) slot
        ≡ changed slot change (message_in slots slot) }
    ensures outstanding { (cores : ℕ) (changes : List Change) → AreChanges cores changes
        → (slot : Slot) → message_in (after_all cores changes) slot ≡ outstanding slot changes }
    // What one more change leaves outstanding, whatever the changes before it.
    ensures more { (slot : Slot) (change : Change) (changes : List Change)
        → outstanding slot (change ∷ changes) ≡ changed slot change (outstanding slot changes) }
    // A slot holds only messages of its own core, or of the system.
    ensures own { (slot : Slot) (changes : List Change) (m : MessageValue)
        → outstanding slot changes ≡ Some m → is_slot (slot_of m.kind m.core) slot ≡ true }
{}
