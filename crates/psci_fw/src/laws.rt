//! What holds of the claims of cores that stop, of a firmware that no core has entered, and of the
//! life of each, for proofs. Each law is the contract of a function that does nothing.

ghost use Rattle.std.specs.Prelude.{◌≡◌, ◌<◌, ◌≤◌, ◌&&◌, ℕ, List, None, Ok, false, not, true};
ghost use Rattle.psci_board.specs.Board.{BoardValue, IsBoard, cores, height, may_enter};
ghost use Rattle.psci_messages.specs.declared.part.Part.{Part};
ghost use Rattle.psci_state.specs.PowerState.{deepest_of, is_deep};
ghost use Rattle.psci_messages.specs.declared.start.Start.{Start};
ghost use Rattle.psci_abi.specs.Calls.{request_of};
ghost use Rattle.psci_abi.specs.declared.registers.Regs.{Regs};
ghost use Rattle.psci_messages.specs.declared.taken.Taken.TheVariants.{Used};
ghost use Rattle.psci_messages.specs.Message.{AckValue};
ghost use Rattle.psci_fw_spec.specs.declared.outcome.Outcome.{Outcome};
ghost use Rattle.psci_fw_spec.specs.Effects.{change, enter_effect, function_effect};
ghost use Rattle.psci_fw_spec.specs.Answer.{call_fault, enter_fault, resumes};
ghost use Rattle.psci_fw_spec.specs.Changes.{in_life, start_of_life, with_acknowledgement};
ghost use Rattle.psci_fw_spec.specs.Changes.{with_arrival};
ghost use Rattle.psci_fw_spec.specs.PowerCalls.{all_others, ask_named, is_off_status, off_parts};
ghost use Rattle.psci_fw_spec.specs.PowerCalls.{suspend_parts};
ghost use Rattle.psci_fw_spec.specs.Invariant.{AreValues};
ghost use Rattle.psci_fw_spec.specs.Phases.{Running};
ghost use Rattle.psci_fw_spec.specs.Values.{taken_by, Values};
ghost use Rattle.psci_fw.specs.Reactions.{IsFresh};
ghost use Rattle.psci_fw_state.specs.Claims.{MayClaim};

use psci_board::law_paths;
use psci_fw_spec::law_invariant;
use psci_messages::{law_claims, law_last_core};

/// The claims of cores that stop may be granted.
pub fn law_may_claim()
    // A core that goes off.
    ensures off { (b : BoardValue) (v : Values) (c : ℕ) → IsBoard b → c < cores b → AreValues b v
        → v.phase c ≡ Running → v.halting ≡ false → MayClaim b c (off_parts b v c) v.granted }
    // A core that parks.
    ensures parks { (b : BoardValue) (v : Values) (c : ℕ) (s : Start) → IsBoard b → c < cores b
        → AreValues b v → enter_fault b v c s ≡ None → let found = in_life b s.life v in
        found.halting ≡ false → found.opening c ≡ None → resumes found c s ≡ false
        → let arrived = with_arrival b c s v in
        MayClaim b c (off_parts b arrived c) arrived.granted }
    // A core that asks for a power state.
    ensures suspended { (b : BoardValue) (v : Values) (c word entry context : ℕ) (ask : List ℕ)
        → IsBoard b → c < cores b → AreValues b v → v.phase c ≡ Running → v.halting ≡ false
        → ask_named b word ≡ Ok ask → (is_deep ask && not (may_enter b entry)) ≡ false
        → (v.known c ≡ b.starts → ⊥) → (parts : List Part) → suspend_parts b v c ask ≡ Ok parts
        → MayClaim b c parts v.granted }
    // The last core of the system.
    ensures system { (b : BoardValue) (v : Values) (c entry context : ℕ) → IsBoard b → c < cores b
        → AreValues b v → v.phase c ≡ Running → v.halting ≡ false → may_enter b entry ≡ true
        → all_others b c (λ k. is_off_status (v.status k)) ≡ true → (v.known c ≡ b.starts → ⊥)
        → (parts : List Part) → suspend_parts b v c (deepest_of (height b)) ≡ Ok parts
        → MayClaim b c parts v.granted }
{
    law_invariant();
    law_paths();
    law_claims();
    law_last_core();
}

/// A firmware that no core has entered is as at the start of a life, and so it is at the start of
/// another one once that is its life.
pub fn law_fresh()
    ensures first { (b : BoardValue) → IsFresh b (start_of_life b 0) }
    ensures begun { (b : BoardValue) (v : Values) (life : ℕ) → v.life ≡ 0 → IsFresh b v
        → record v { life = life } ≡ in_life b life v }
    // A core has entered before each call that is not refused.
    ensures call { (b : BoardValue) (v : Values) (c : ℕ) (regs : Regs) (o : Outcome)
        → call_fault b v c ≡ None
        → IsFresh b (change b (function_effect b c (request_of regs) o.act o.message) v) }
    // A core has entered after each entry that is not refused.
    ensures enter { (b : BoardValue) (v : Values) (c : ℕ) (s : Start) (o : Outcome)
        → enter_fault b v c s ≡ None
        → IsFresh b (change b (enter_effect c s o.act o.message) v) }
    // A core has entered before each acknowledgement that is used, since one has sent its message.
    ensures take { (b : BoardValue) (v : Values) (a : AckValue) → IsFresh b v
        → taken_by v a ≡ Used → IsFresh b (with_acknowledgement b a v) }
{}

/// The life of a firmware is none beyond the last one of its board.
pub fn law_lives()
    ensures first { (b : BoardValue) → (start_of_life b 0).life ≤ b.lives }
    // A call changes no life.
    ensures call { (b : BoardValue) (v : Values) (c : ℕ) (regs : Regs) (o : Outcome)
        → v.life ≤ b.lives
        → (change b (function_effect b c (request_of regs) o.act o.message) v).life ≤ b.lives }
    // A start of a life beyond it is refused.
    ensures enter { (b : BoardValue) (v : Values) (c : ℕ) (s : Start) (o : Outcome)
        → enter_fault b v c s ≡ None
        → (change b (enter_effect c s o.act o.message) v).life ≤ b.lives }
    // An acknowledgement changes no life.
    ensures take { (b : BoardValue) (v : Values) (a : AckValue) → v.life ≤ b.lives
        → (with_acknowledgement b a v).life ≤ b.lives }
{}
