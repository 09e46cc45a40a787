//! The laws of a state as words: each is the contract of a function that does nothing.

ghost use Rattle.std.specs.Prelude.{◌≡◌, ◌≤◌, ◌+◌, None, length, true};
ghost use Rattle.psci_board.specs.Board.{BoardValue};
ghost use Rattle.psci_fw_spec.specs.Invariant.{AreValues};
ghost use Rattle.psci_fw_spec.specs.Changes.{start_of_life};
ghost use Rattle.psci_fw_spec.specs.Values.{Values};
ghost use Rattle.psci_fw_state.specs.New.{is_new};
ghost use Rattle.psci_fw_state.specs.Saved.{IsSavable, part_count, saved, saved_fault};
ghost use Rattle.psci_fw_state.specs.Seen.{IsState, StateValue, values_in};
ghost use Rattle.psci_fw_state.specs.Sound.{is_sound};

use psci_messages::law_slots_words;
use psci_tree::law_tree_words;

/// Words that were saved have no fault, and tell the whole state: a state of the same board into
/// which they are loaded is the one that was saved.
pub fn law_saved_state()
    ensures count { (s : StateValue) → IsState s → length (saved s) ≡ 5 + part_count s.board }
    ensures whole { (s : StateValue) → IsState s → IsSavable s → s.life ≤ s.board.lives
        → saved_fault s.board (saved s) ≡ None }
    ensures same { (s t : StateValue) → IsState s → IsState t → IsSavable s → IsSavable t
        → s.board ≡ t.board → saved s ≡ saved t → s ≡ t }
{
    law_tree_words();
    law_slots_words();
}

/// A state whose cores are sound has values such as the firmware keeps, and no other one has them.
pub fn law_sound()
    ensures sound { (s : StateValue) → IsState s → is_sound s.board (values_in s) ≡ true
        → AreValues s.board (values_in s) }
    ensures only { (b : BoardValue) (v : Values) → AreValues b v → is_sound b v ≡ true }
{}

/// A state that is new has the values of a new firmware, and no other one has them.
pub fn law_new()
    ensures values { (s : StateValue) → IsState s → is_new s.board (values_in s) ≡ true
        → values_in s ≡ start_of_life s.board 0 }
    ensures only { (b : BoardValue) → is_new b (start_of_life b 0) ≡ true }
{}
