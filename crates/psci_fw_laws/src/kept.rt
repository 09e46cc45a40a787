//! What each legal reply comes down to, and what is kept by all of them.

ghost use Rattle.std.specs.Prelude.{◌≡◌, List, ◌∷◌, ◌++◌};
ghost use Rattle.psci_board.specs.Board.{BoardValue, IsBoard};
ghost use Rattle.psci_fw_spec.specs.Effects.{change, effect, FwExchange, listed, sent};
ghost use Rattle.psci_fw_spec.specs.Effects.{sent_messages};
ghost use Rattle.psci_fw_spec.specs.History.{values_of};
ghost use Rattle.psci_fw_spec.specs.Legal.{IsLegal};
ghost use Rattle.psci_fw_laws.specs.Renumbered.{IsAllowed};
ghost use Rattle.psci_fw_laws.specs.Messages.{Holds};

/// What the firmware keeps true of its values and of all messages that it sent, after every legal
/// history, and what the effect of each legal reply says beside the values before it.
pub fn law_kept()
    ensures kept { (b : BoardValue) (h : List FwExchange) → IsBoard b → IsLegal b h
        → Holds b (values_of b h) (sent_messages b h) }
    ensures allowed { (b : BoardValue) (e : FwExchange) (h : List FwExchange) → IsBoard b
        → IsLegal b (e ∷ h) → IsAllowed b (values_of b h) (effect b e) }
    // An exchange changes the values by its effect alone, and adds what it sent, legal or not.
    ensures values { (b : BoardValue) (e : FwExchange) (h : List FwExchange)
        → values_of b (e ∷ h) ≡ change b (effect b e) (values_of b h) }
    ensures sent { (b : BoardValue) (e : FwExchange) (h : List FwExchange)
        → sent_messages b (e ∷ h) ≡ listed (sent (effect b e)) ++ sent_messages b h }
{}
