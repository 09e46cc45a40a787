//! The laws of settling: in a legal run a claim is carried out or waits for its Down, and a world
//! that does not halt settles. A law is the contract of a function that does nothing.

ghost use Rattle.std.specs.Prelude.{◌≡◌, ◌++◌, false, List};
ghost use Rattle.psci_board.specs.Board.{BoardValue, IsBoard};
ghost use Rattle.psci_headline.specs.psci_world_spec.declared.said.Record.{Record};
ghost use Rattle.psci_headline.specs.psci_world_spec.Legal.{IsLegalPast};
ghost use Rattle.psci_headline.specs.Settling.{is_halting, IsSettled, settled, Waiting};

/// In a legal run every claim is carried out as far as it is live, or its Down is outstanding, and
/// what an acknowledgement says stays true.
pub fn law_waiting()
    ensures { (b : BoardValue) (past : List Record) → IsBoard b → IsLegalPast b past
        → Waiting b past }
{}

/// Unless the world halts it settles, in at most one round for each level: firmware and power
/// controller agree on every domain.
pub fn law_settles()
    ensures { (b : BoardValue) (past : List Record) → IsBoard b → IsLegalPast b past
        → is_halting b past ≡ false → (added : List Record)
        × ((settled b past).past ≡ added ++ past)
        × IsSettled b past added (settled b past).rounds }
{}
