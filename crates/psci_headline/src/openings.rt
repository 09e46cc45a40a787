//! Entries and openings: the law is the contract of a function that does nothing.

ghost use Rattle.std.specs.Prelude.{List};
ghost use Rattle.psci_board.specs.Board.{BoardValue, IsBoard};
ghost use Rattle.psci_fw_laws.specs.psci_fw_spec.Effects.{FwExchange};
ghost use Rattle.psci_fw_laws.specs.psci_fw_spec.Legal.{IsLegal};
ghost use Rattle.psci_headline.specs.Safe.{AreTakenUp};

/// In a legal history of the firmware each entry takes up one opening that was made for its core in
/// its life, with its address and context id, and no two take up the same one. So an accepted
/// CPU_ON leads to at most one entry.
pub fn law_one_entry()
    ensures { (b : BoardValue) (h : List FwExchange) → IsBoard b → IsLegal b h → AreTakenUp b h }
{}
