//! What holds of live claims: each law is the contract of a function that does nothing.

ghost use Rattle.std.specs.Prelude.{List};
ghost use Rattle.psci_board.specs.Board.{BoardValue, IsBoard};
ghost use Rattle.psci_headline.specs.Laws.{AreApart, AreAsked, AreClaimed, NoneExecutes};
ghost use Rattle.psci_world_spec.specs.declared.said.Record.{Record};
ghost use Rattle.psci_world_spec.specs.Legal.{IsLegalPast};

/// In a legal run two different claims on one domain in one life have different generations: life,
/// domain and generation name one claim.
pub fn law_live_claims()
    ensures { (b : BoardValue) (past : List Record) → IsBoard b → IsLegalPast b past
        → AreApart b past }
{}

/// In a legal run each claim was asked for by the cores below its domain, when it was made.
pub fn law_asked_claims()
    ensures { (b : BoardValue) (past : List Record) → IsBoard b → IsLegalPast b past
        → AreAsked b past }
{}

/// In a legal run a domain that is not fully on is as deep as a live claim on it.
pub fn law_claimed_depths()
    ensures { (b : BoardValue) (past : List Record) → IsBoard b → IsLegalPast b past
        → AreClaimed b past }
{}

/// In a legal run no core executes below a domain with a live claim.
pub fn law_none_executes()
    ensures { (b : BoardValue) (past : List Record) → IsBoard b → IsLegalPast b past
        → NoneExecutes b past }
{}
