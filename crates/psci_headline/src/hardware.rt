//! Hardware states that are said of domains: each law is the contract of a function that does
//! nothing.

ghost use Rattle.std.specs.Prelude.{◌≡◌, ◌∷◌, ◌<◌, List, Some};
ghost use Rattle.psci_board.specs.Board.{BoardValue, HasNode, IsBoard};
ghost use Rattle.psci_board.specs.declared.draft.Node.{Node};
ghost use Rattle.psci_headline.specs.Safe.{said_hw, StatesWereReal};
ghost use Rattle.psci_headline.specs.Laws.{WasSoDeep, is_off_depth, is_standby_depth, told_hw};
ghost use Rattle.psci_fw_laws.specs.psci_fw_spec.declared.hw.Hw.TheVariants.{Off, Standby};
ghost use Rattle.psci_world_spec.specs.declared.said.Record.{Record};
ghost use Rattle.psci_world_spec.specs.Legal.{firmware_values, IsLegalPast};

/// In a legal run a domain that NODE_HW_STATE says is off was powered down at some moment of this
/// life, by the starts that the firmware knows of; one that it says is in standby was in standby or
/// retention.
pub fn law_states_real()
    ensures { (b : BoardValue) (past : List Record) → IsBoard b → IsLegalPast b past
        → StatesWereReal b past }
{}

/// In a legal run, where a record answers NODE_HW_STATE of a core or domain with HW_OFF, its depth
/// was 3 at some moment of this life, by the starts that the firmware then knew of; where it
/// answers HW_STANDBY, the depth was 1 or 2.
pub fn law_told_hw()
    ensures off { (b : BoardValue) (r : Record) (past : List Record) (n : Node) → IsBoard b
        → IsLegalPast b (r ∷ past) → told_hw b 1 r.event r.said ≡ Some n
        → WasSoDeep b is_off_depth past n }
    ensures standby { (b : BoardValue) (r : Record) (past : List Record) (n : Node) → IsBoard b
        → IsLegalPast b (r ∷ past) → told_hw b 2 r.event r.said ≡ Some n
        → WasSoDeep b is_standby_depth past n }
    // So it is with what NODE_HW_STATE says at a moment, whether a core asks or not.
    ensures said_off { (b : BoardValue) (past : List Record) (n : Node) → IsBoard b
        → IsLegalPast b past → HasNode b n → 0 < (firmware_values b past).life
        → said_hw b past n ≡ Off → WasSoDeep b is_off_depth past n }
    ensures said_standby { (b : BoardValue) (past : List Record) (n : Node) → IsBoard b
        → IsLegalPast b past → HasNode b n → 0 < (firmware_values b past).life
        → said_hw b past n ≡ Standby → WasSoDeep b is_standby_depth past n }
{}
