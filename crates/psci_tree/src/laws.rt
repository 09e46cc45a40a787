//! What holds of the definitions alone: each law is the contract of a function that does nothing.

ghost use Rattle.std.specs.Prelude.{◌&&◌, ◌<◌, ◌==◌, ◌≡◌, ◌≤◌, drop, false, if◌then◌else◌, length};
ghost use Rattle.std.specs.Prelude.{List, true, ℕ};
ghost use Rattle.psci_board.specs.declared.draft.Node.{Node};
ghost use Rattle.psci_board.specs.Board.{HasNodeIn, size_below, place_above};
ghost use Rattle.psci_state.specs.declared.cores.Activity.TheVariants.{Active, Suspended, Away};
ghost use Rattle.psci_tree.specs.Recount.{granted_at, is_confirmed_at, IsDomainTree, known_at};
ghost use Rattle.psci_tree.specs.Recount.{never_started, state_at, TreeValue};
ghost use Rattle.psci_tree.specs.Changes.{made_pending, start_of_life, started, suspended};
ghost use Rattle.psci_tree.specs.Changes.{turned_off, with_confirmed, with_grant};

/// The state of each core after each change: that of the named core alone is another one.
pub fn law_cores()
    ensures suspended { (t : TreeValue) (core c : ℕ) (depths : List ℕ) → core < length t.cores
        → state_at (suspended t core depths) c ≡ (if core == c
        then record { activity = Suspended depths; known = known_at t core } else state_at t c) }
    ensures off { (t : TreeValue) (core c : ℕ) → core < length t.cores
        → state_at (turned_off t core) c ≡ (if core == c
        then record { activity = Away; known = known_at t core } else state_at t c) }
    ensures pending { (t : TreeValue) (core c : ℕ) → core < length t.cores
        → state_at (made_pending t core) c ≡ (if core == c
        then record { activity = Active; known = known_at t core } else state_at t c) }
    ensures started { (t : TreeValue) (core c known : ℕ) → core < length t.cores
        → state_at (started t core known) c ≡ (if core == c
        then record { activity = Active; known = known } else state_at t c) }
    ensures grant { (t : TreeValue) (n : Node) (depth c : ℕ)
        → state_at (with_grant t n depth) c ≡ state_at t c }
{}

/// The granted depth of each domain after each change.
pub fn law_granted()
    ensures suspended { (t : TreeValue) (core l p : ℕ) (depths : List ℕ)
        → granted_at (suspended t core depths) l p ≡ granted_at t l p }
    ensures off { (t : TreeValue) (core l p : ℕ)
        → granted_at (turned_off t core) l p ≡ granted_at t l p }
    ensures pending { (t : TreeValue) (core l p : ℕ) → granted_at (made_pending t core) l p
        ≡ (if place_above t.levels l core == p then 0 else granted_at t l p) }
    ensures started { (t : TreeValue) (core known l p : ℕ) → granted_at (started t core known) l p
        ≡ (if place_above t.levels l core == p then 0 else granted_at t l p) }
    ensures grant { (t : TreeValue) (n : Node) (depth l p : ℕ) → IsDomainTree t
        → HasNodeIn t.levels n → granted_at (with_grant t n depth) l p
        ≡ (if n.level == l && n.place == p then depth else granted_at t l p) }
{}

/// Of which domains the granted depth is confirmed after each change.
pub fn law_confirmed()
    ensures suspended { (t : TreeValue) (core l p : ℕ) (depths : List ℕ)
        → is_confirmed_at (suspended t core depths) l p ≡ is_confirmed_at t l p }
    ensures off { (t : TreeValue) (core l p : ℕ)
        → is_confirmed_at (turned_off t core) l p ≡ is_confirmed_at t l p }
    ensures pending { (t : TreeValue) (core l p : ℕ) → is_confirmed_at (made_pending t core) l p
        ≡ (if place_above t.levels l core == p then false else is_confirmed_at t l p) }
    ensures started { (t : TreeValue) (core known l p : ℕ)
        → is_confirmed_at (started t core known) l p
        ≡ (if place_above t.levels l core == p then false else is_confirmed_at t l p) }
    ensures grant { (t : TreeValue) (n : Node) (depth l p : ℕ) → IsDomainTree t
        → HasNodeIn t.levels n → is_confirmed_at (with_grant t n depth) l p
        ≡ (if n.level == l && n.place == p
        then granted_at t l p == depth && is_confirmed_at t l p else is_confirmed_at t l p) }
    ensures confirmed { (t : TreeValue) (n : Node) (l p : ℕ) → IsDomainTree t
        → HasNodeIn t.levels n → 1 ≤ granted_at t n.level n.place
        → is_confirmed_at (with_confirmed t n) l p
        ≡ (if n.level == l && n.place == p then true else is_confirmed_at t l p) }
    ensures granted { (t : TreeValue) (n : Node) (l p : ℕ)
        → granted_at (with_confirmed t n) l p ≡ granted_at t l p }
    ensures cores { (t : TreeValue) (n : Node) (c : ℕ)
        → state_at (with_confirmed t n) c ≡ state_at t c }
{}

/// The start of a life: core 0 is pending and every other core off, none was started, and depth 3
/// is granted to each domain off the path of core 0, and confirmed.
pub fn law_start_of_life()
    ensures cores { (levels : List (List ℕ)) (c : ℕ) → 0 < size_below levels
        → state_at (start_of_life levels) c ≡ (if 0 == c
        then record { activity = Active; known = 0 } else never_started) }
    ensures granted { (levels : List (List ℕ)) (l p : ℕ) → l ≤ length levels
        → p < size_below (drop l levels) → granted_at (start_of_life levels) l p
        ≡ (if place_above levels l 0 == p then 0 else 3) }
    ensures confirmed { (levels : List (List ℕ)) (l p : ℕ) → l ≤ length levels
        → p < size_below (drop l levels) → is_confirmed_at (start_of_life levels) l p
        ≡ (if place_above levels l 0 == p then false else true) }
{}
