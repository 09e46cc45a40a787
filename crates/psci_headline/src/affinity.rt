//! What AFFINITY_INFO tells of cores: the law is the contract of a function that does nothing.

ghost use Rattle.std.specs.Prelude.{◌≡◌, ◌∷◌, List, Some};
ghost use Rattle.psci_board.specs.Board.{BoardValue, IsBoard};
ghost use Rattle.psci_board.specs.declared.draft.Node.{Node};
ghost use Rattle.psci_headline.specs.Laws.{AllOff, told_off};
ghost use Rattle.psci_world_spec.specs.declared.said.Record.{Record};
ghost use Rattle.psci_world_spec.specs.Legal.{IsLegalPast};

/// In a legal run, where a record answers AFFINITY_INFO of a core or domain with OFF, no core of it
/// runs, and each was powered down since it last went on.
pub fn law_told_off()
    ensures { (b : BoardValue) (r : Record) (past : List Record) (n : Node) → IsBoard b
        → IsLegalPast b (r ∷ past) → told_off b r.event r.said ≡ Some n → AllOff b past n }
{}
