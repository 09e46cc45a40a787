//! Where the firmware refuses and confirms, and where it does not: each law is the contract of a
//! function that does nothing.

ghost use Rattle.std.specs.Prelude.{◌≡◌, ◌↔◌, ◌⊎◌, ◌<◌, ℕ, true, false, List, Ok, Err};
ghost use Rattle.psci_board.specs.Board.{BoardValue, IsBoard, cores};
ghost use Rattle.psci_board.specs.declared.draft.Node.{Node};
ghost use Rattle.psci_messages.specs.Claim.{last_core_check, own_claims};
ghost use Rattle.psci_messages.specs.View.{PowerView};
ghost use Rattle.psci_messages.specs.declared.osi.Osi.TheVariants.{Denied, Invalid};
ghost use Rattle.psci_messages.specs.Message.{AckValue};
ghost use Rattle.psci_fw_spec.specs.Changes.{with_acknowledgement};
ghost use Rattle.psci_fw_spec.specs.NodeHwState.{node_hw};
ghost use Rattle.psci_fw_spec.specs.Values.{Values};
ghost use Rattle.psci_fw_spec.specs.declared.hw.Hw.TheVariants.{Off, On, Standby};
ghost use Rattle.psci_fw_laws.specs.Beside.{AreAwake, HasSleeper, IsInTheWay};
ghost use Rattle.psci_fw_laws.specs.Messages.{IsCarriedOut};

/// An OS-initiated request is accepted where nothing is in its way: where each domain beside the
/// caller's path was granted what is asked of its parent. It is refused as invalid exactly where
/// nobody is awake below some domain in the way, and denied where below each of them somebody is.
pub fn law_refused_exactly()
    ensures accepted { (b : BoardValue) (v : PowerView) (core : ℕ) (ask : List ℕ) → IsBoard b
        → core < cores b → ((level c : ℕ) → IsInTheWay b v core ask level c → ⊥)
        → last_core_check b v core ask ≡ Ok (own_claims b v core ask) }
    ensures invalid { (b : BoardValue) (v : PowerView) (core : ℕ) (ask : List ℕ) → IsBoard b
        → core < cores b
        → (last_core_check b v core ask ≡ Err Invalid) ↔ HasSleeper b v core ask }
    ensures denied { (b : BoardValue) (v : PowerView) (core : ℕ) (ask : List ℕ) → IsBoard b
        → core < cores b
        → (last_core_check b v core ask ≡ Err Denied) ↔ AreAwake b v core ask }
{}

/// An acknowledgement that was taken confirms the last claim on a domain exactly where it says that
/// this was carried out, and takes no confirmation away.
pub fn law_confirmed_exactly()
    ensures { (b : BoardValue) (v : Values) (a : AckValue) (level place : ℕ)
        → ((with_acknowledgement b a v).confirmed level place ≡ true)
        ↔ ((v.confirmed level place ≡ true) ⊎ IsCarriedOut b v a level place) }
{}

/// NODE_HW_STATE says of a domain with a confirmed claim what it is granted: off at depth 3,
/// standby at 1 and 2. It looks at nothing else, not even at which domain it is.
pub fn law_hw_exactly()
    ensures off { (v : Values) (n : Node) → v.confirmed n.level n.place ≡ true
        → v.granted n.level n.place ≡ 3 → node_hw v n ≡ Off }
    ensures standby { (v : Values) (n : Node) → v.confirmed n.level n.place ≡ true
        → 0 < v.granted n.level n.place → v.granted n.level n.place < 3 → node_hw v n ≡ Standby }
    ensures on { (v : Values) (n : Node) → v.granted n.level n.place ≡ 0 → node_hw v n ≡ On }
    ensures unconfirmed { (v : Values) (n : Node) → v.confirmed n.level n.place ≡ false
        → node_hw v n ≡ On }
    ensures alike { (v w : Values) (n m : Node)
        → v.confirmed n.level n.place ≡ w.confirmed m.level m.place
        → v.granted n.level n.place ≡ w.granted m.level m.place → node_hw v n ≡ node_hw w m }
{}
