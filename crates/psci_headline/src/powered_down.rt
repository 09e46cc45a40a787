//! Cores that are reported OFF: the law is the contract of a function that does nothing.

ghost use Rattle.std.specs.Prelude.{List};
ghost use Rattle.psci_board.specs.Board.{BoardValue, IsBoard};
ghost use Rattle.psci_headline.specs.Safe.{OffIsDown};
ghost use Rattle.psci_world_spec.specs.declared.said.Record.{Record};
ghost use Rattle.psci_world_spec.specs.Legal.{IsLegalPast};

/// In a legal run a core that is reported OFF does not run, and was powered down since it last went
/// on.
pub fn law_off_is_down()
    ensures { (b : BoardValue) (past : List Record) → IsBoard b → IsLegalPast b past
        → OffIsDown b past }
{}
