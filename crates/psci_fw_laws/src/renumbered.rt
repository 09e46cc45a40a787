//! Cores may be renumbered. The law is the contract of a function that does nothing.

ghost use Rattle.std.specs.Prelude.{◌≡◌, ℕ, List};
ghost use Rattle.psci_abi.specs.declared.request.Request.{Request};
ghost use Rattle.psci_board.specs.Board.{BoardValue, IsBoard};
ghost use Rattle.psci_fw_spec.specs.declared.call.FwCall.{FwCall};
ghost use Rattle.psci_fw_spec.specs.declared.reply.FwReply.{FwReply};
ghost use Rattle.psci_fw_spec.specs.Effects.{after, FwExchange};
ghost use Rattle.psci_fw_spec.specs.Answer.{answer, outcome_of};
ghost use Rattle.psci_fw_spec.specs.History.{values_of};
ghost use Rattle.psci_fw_spec.specs.Legal.{IsLegal};
ghost use Rattle.psci_fw_spec.specs.Values.{Values};
ghost use Rattle.psci_fw_laws.specs.Renumbered.{AreSiblings, AreTwins, AsksBy, CallsBy, HappenedBy};
ghost use Rattle.psci_fw_laws.specs.Renumbered.{IsRenumbering, outcome_by, reply_by, SparesBoot};
ghost use Rattle.psci_fw_laws.specs.Renumbered.{swap_clusters, swap_cores, values_by};

/// No core is special: with the cores renumbered, in the values and in the call, each call is
/// answered the same, and leaves the same values, of the other numbers. Only a life's start knows
/// one core, the boot core, by its number.
pub fn law_no_core_is_special()
    // Each function, called by each core, in each mode, and in a halting life.
    ensures functions { (b : BoardValue) (s : ℕ → ℕ → ℕ) (v : Values) (c : ℕ) (r q : Request)
        → IsBoard b → IsRenumbering b s → AsksBy b s r q
        → outcome_of b (values_by s v) (s 0 c) q ≡ outcome_by s (outcome_of b v c r) }
    // Each call, refused or not: of a function, of a core that enters, of an acknowledgement.
    ensures answers { (b : BoardValue) (s : ℕ → ℕ → ℕ) (v : Values) (c : ℕ) (call other : FwCall)
        → IsBoard b → IsRenumbering b s → CallsBy b s call other → SparesBoot s v.life call
        → answer b (values_by s v) (s 0 c) other ≡ reply_by s (answer b v c call) }
    // What is kept after each call, whatever was replied.
    ensures after { (b : BoardValue) (s : ℕ → ℕ → ℕ) (v : Values) (c : ℕ) (call other : FwCall)
        (reply : FwReply) → IsBoard b → IsRenumbering b s → CallsBy b s call other
        → SparesBoot s v.life call
        → after b (s 0 c) other (reply_by s reply) (values_by s v)
        ≡ values_by s (after b c call reply v) }
    // So all that is kept after some calls is kept of the other numbers after the same calls of the
    // renumbered cores, and these are answered rightly where the first ones are.
    ensures values { (b : BoardValue) (s : ℕ → ℕ → ℕ) (h g : List FwExchange) → IsBoard b
        → IsRenumbering b s → s 0 0 ≡ 0 → HappenedBy b s h g
        → values_of b g ≡ values_by s (values_of b h) }
    ensures legal { (b : BoardValue) (s : ℕ → ℕ → ℕ) (h g : List FwExchange) → IsBoard b
        → IsRenumbering b s → s 0 0 ≡ 0 → HappenedBy b s h g → IsLegal b h → IsLegal b g }
{}

/// Cores may be renumbered so: what is asked can be asked of the other numbers, and cores that are
/// siblings, or the cores of two clusters, may be swapped.
pub fn law_renumberings()
    // What a request asks some request asks of the renumbered cores.
    ensures told { (b : BoardValue) (s : ℕ → ℕ → ℕ) (r : Request) → IsBoard b → IsRenumbering b s
        → (q : Request) × AsksBy b s r q }
    // Two cores of one cluster may be swapped.
    ensures siblings { (b : BoardValue) (x y : ℕ) → IsBoard b → AreSiblings b x y
        → IsRenumbering b (swap_cores x y) }
    // And two clusters with as many cores and one parent, with their cores.
    ensures twins { (b : BoardValue) (p q : ℕ) → IsBoard b → AreTwins b p q
        → IsRenumbering b (swap_clusters b p q) }
{}
