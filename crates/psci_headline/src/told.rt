//! The laws of what is told: in a legal run what was granted is confirmed or waits to be, and once
//! the world has settled, what is told of each core and domain is so. A law is the contract of a
//! function that does nothing.

ghost use Rattle.std.specs.Prelude.{◌≡◌, false, List};
ghost use Rattle.psci_headline.specs.psci_board.Board.{BoardValue, IsBoard};
ghost use Rattle.psci_headline.specs.psci_world_spec.declared.said.Record.{Record};
ghost use Rattle.psci_headline.specs.psci_world_spec.Legal.{IsLegalPast};
ghost use Rattle.psci_headline.specs.Settling.{AreAtRest, is_halting, settled};
ghost use Rattle.psci_headline.specs.Complete.{Confirming, IsToldWhole};

/// In a legal run each domain that was granted something is confirmed, or the Down that claimed it
/// is outstanding, or a core below was started and has not entered. So it is, unless the life is
/// halting, with each core that is off or going off: it is OFF, or its Down is outstanding, or it
/// was started.
pub fn law_confirming()
    ensures { (b : BoardValue) (past : List Record) → IsBoard b → IsLegalPast b past
        → Confirming b past }
{}

/// In a legal run, where nothing is outstanding, no core waits at its start and each domain is as
/// deep as it was granted, NODE_HW_STATE says of each domain the state of its depth, and a core is
/// OFF exactly where it is off or going off, unless the life is halting.
pub fn law_complete()
    ensures { (b : BoardValue) (past : List Record) → IsBoard b → IsLegalPast b past
        → is_halting b past ≡ false → AreAtRest b past → IsToldWhole b past }
{}

/// So once the world has settled all is told: what NODE_HW_STATE says of each domain is the state
/// of its depth, and a core is OFF exactly where it is off or going off.
pub fn law_told_whole()
    ensures { (b : BoardValue) (past : List Record) → IsBoard b → IsLegalPast b past
        → is_halting b past ≡ false → IsToldWhole b (settled b past).past }
{}
