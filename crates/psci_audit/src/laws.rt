//! What holds of legal lists: the law is the contract of a function that does nothing.

ghost use Rattle.std.specs.Prelude.{List};
ghost use Rattle.psci_world_spec.specs.psci_board.Board.{BoardValue, IsBoard};
ghost use Rattle.psci_audit.specs.Entries.{Entry, IsLegal};
ghost use Rattle.psci_audit.specs.Told.{IsListOf, IsListOfSafe};
ghost use Rattle.psci_world_spec.specs.declared.said.Record.{Record};
ghost use Rattle.psci_world_spec.specs.Legal.{IsLegalPast};

use psci_headline::law_safe;

/// A legal list is the list of a legal run of the world, and the list of a legal run is legal. So a
/// run that a legal list tells of was safe at every moment.
pub fn law_told()
    ensures run { (b : BoardValue) (entries : List Entry) → IsLegal b entries
        → IsListOf b entries }
    ensures only { (b : BoardValue) (entries : List Entry) → IsListOf b entries
        → IsLegal b entries }
    ensures safe { (b : BoardValue) (entries : List Entry) → IsBoard b → IsLegal b entries
        → IsListOfSafe b entries }
{
    law_safe();
}
