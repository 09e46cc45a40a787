//! Every legal run is safe. The law is the contract of a function that does nothing.

ghost use Rattle.std.specs.Prelude.{List};
ghost use Rattle.psci_board.specs.Board.{BoardValue, IsBoard};
ghost use Rattle.psci_headline.specs.Safe.{AlwaysSafe};
ghost use Rattle.psci_world_spec.specs.declared.said.Record.{Record};
ghost use Rattle.psci_world_spec.specs.Legal.{IsLegalPast};

/// A legal run is safe at every moment: no core that executes stands below a domain that is not
/// fully on, and a core reported OFF was powered down since it last went on; each domain has at
/// most one live claim; no domain is deeper than its cores asked; each entry takes up one opening;
/// and a domain that NODE_HW_STATE says is off or in standby was so, in this life and by the starts
/// that the firmware knows of.
pub fn law_safe()
    ensures { (b : BoardValue) (past : List Record) → IsBoard b → IsLegalPast b past
        → AlwaysSafe b past }
{}
