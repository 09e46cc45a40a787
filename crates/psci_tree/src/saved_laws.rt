//! The law of a tree as words: the contract of a function that does nothing.

ghost use Rattle.std.specs.Prelude.{◌*◌, ◌≡◌, flat_map, length, List, true};
ghost use Rattle.psci_state.specs.declared.cores.CoreState.{CoreState};
ghost use Rattle.psci_tree.specs.Recount.{TreeValue, IsDomainTree};
ghost use Rattle.psci_tree.specs.Saved.{are_cores, are_depths, AreCounted, core_words, depth_words};
ghost use Rattle.psci_tree.specs.Saved.{domain_count};

use psci_state::law_power_states;

/// Words that were saved are the words of a tree's cores, two of each, and of the depths of its
/// domains, two of each, and tell both: so a tree of the same board into which they are loaded is
/// the one that was saved.
pub fn law_tree_words()
    ensures core_count { (cores : List CoreState)
        → length (flat_map core_words cores) ≡ 2 * length cores }
    ensures depth_count { (t : TreeValue) → IsDomainTree t
        → length (depth_words t) ≡ 2 * domain_count t.levels }
    ensures cores { (t : TreeValue) → IsDomainTree t → AreCounted t.cores
        → are_cores (flat_map core_words t.cores) ≡ true }
    ensures depths { (t : TreeValue) → IsDomainTree t
        → are_depths t.levels (depth_words t) ≡ true }
    ensures same { (t u : TreeValue) → IsDomainTree t → IsDomainTree u → t.levels ≡ u.levels
        → flat_map core_words t.cores ≡ flat_map core_words u.cores
        → depth_words t ≡ depth_words u → t ≡ u }
{
    law_power_states();
}
