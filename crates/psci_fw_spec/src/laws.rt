//! What holds of the definitions alone: each law is the contract of a function that does nothing.

ghost use Rattle.std.specs.Prelude.{◌≡◌, ◌<◌, ℕ, List, [], ◌∷◌, None, Some};
ghost use Rattle.psci_abi.specs.Calls.{request_of};
ghost use Rattle.psci_abi.specs.declared.registers.Regs.{Regs};
ghost use Rattle.psci_abi.specs.declared.request.Request.{Request};
ghost use Rattle.psci_abi.specs.declared.request.Request.TheVariants.{CpuOn};
ghost use Rattle.psci_board.specs.Board.{BoardValue, IsBoard, cores, core_of};
ghost use Rattle.psci_messages.specs.Message.{AckValue};
ghost use Rattle.psci_fw_spec.specs.declared.call.FwCall.{FwCall};
ghost use Rattle.psci_fw_spec.specs.declared.call.FwCall.TheVariants.{Smc};
ghost use Rattle.psci_fw_spec.specs.declared.outcome.Act.TheVariants as acts;
ghost use Rattle.psci_messages.specs.declared.start.Start.{Start};
ghost use Rattle.psci_fw_spec.specs.declared.status.Status.TheVariants as statuses;
ghost use Rattle.psci_fw_spec.specs.Effects.{after, AsksOn, change, effect_of, enter_effect};
ghost use Rattle.psci_fw_spec.specs.Effects.{function_effect, FwExchange};
ghost use Rattle.psci_fw_spec.specs.Answer.{answer, enter_fault, enter_outcome, outcome_of};
ghost use Rattle.psci_fw_spec.specs.Changes.{PowerOn, start_of_life, target};
ghost use Rattle.psci_fw_spec.specs.Changes.{with_acknowledgement};
ghost use Rattle.psci_fw_spec.specs.History.{values_of};
ghost use Rattle.psci_fw_spec.specs.Invariant.{AreValues};
ghost use Rattle.psci_fw_spec.specs.Legal.{IsLegal};
ghost use Rattle.psci_fw_spec.specs.Phases.{Running, Away};
ghost use Rattle.psci_fw_spec.specs.Values.{Values};

/// The values that a history says are those of a life's start before any core has entered, and
/// after one more exchange those that the exchange leaves. So kept values say what the history
/// says, whichever exchanges it has.
pub fn law_values()
    ensures first { (b : BoardValue) → values_of b [] ≡ start_of_life b 0 }
    ensures more { (b : BoardValue) (e : FwExchange) (h : List FwExchange)
        → values_of b (e ∷ h) ≡ after b e.core e.call e.reply (values_of b h) }
{}

/// What holds of the firmware's values holds at the start of a life, and after each answer: no
/// known start is above the limit, status and phase agree, what is granted is what was asked, and
/// an opening waits exactly where a core goes on at one.
pub fn law_invariant()
    ensures first { (b : BoardValue) (life : ℕ) → IsBoard b → AreValues b (start_of_life b life) }
    // A function leaves values such as the firmware keeps.
    ensures function { (b : BoardValue) (v : Values) (c : ℕ) (r : Request) → IsBoard b
        → c < cores b → AreValues b v → v.phase c ≡ Running → let o = outcome_of b v c r in
        AreValues b (change b (function_effect b c r o.act o.message) v) }
    // So does an entry that is not refused.
    ensures enter { (b : BoardValue) (v : Values) (c : ℕ) (s : Start) → IsBoard b → AreValues b v
        → enter_fault b v c s ≡ None → let o = enter_outcome b v c s in
        AreValues b (change b (enter_effect c s o.act o.message) v) }
    // So does an acknowledgement, whatever it says.
    ensures take { (b : BoardValue) (v : Values) (a : AckValue) → AreValues b v
        → AreValues b (with_acknowledgement b a v) }
    ensures answer { (b : BoardValue) (v : Values) (c : ℕ) (call : FwCall) → IsBoard b
        → AreValues b v → AreValues b (after b c call (answer b v c call) v) }
    ensures legal { (b : BoardValue) (h : List FwExchange) → IsBoard b → IsLegal b h
        → AreValues b (values_of b h) }
{}

/// The target of an accepted CPU_ON was OFF, and so it was not running; it is the core that the
/// affinity word names, and goes on at the entry point and with the context id that were asked.
pub fn law_power_on()
    ensures off { (b : BoardValue) (v : Values) (c caller : ℕ) (regs : Regs) (asked : PowerOn)
        → effect_of b c (Smc regs) (answer b v c (Smc regs)) ≡ AsksOn caller asked
        → v.status (target asked) ≡ statuses.Off }
    ensures away { (b : BoardValue) (v : Values) (c caller : ℕ) (regs : Regs) (asked : PowerOn)
        → AreValues b v → effect_of b c (Smc regs) (answer b v c (Smc regs)) ≡ AsksOn caller asked
        → v.phase (target asked) ≡ Away }
    ensures request { (b : BoardValue) (v : Values) (c caller : ℕ) (regs : Regs) (asked : PowerOn)
        → effect_of b c (Smc regs) (answer b v c (Smc regs)) ≡ AsksOn caller asked
        → (word : ℕ) × (core_of b word ≡ Some asked.message.core) × (request_of regs
        ≡ CpuOn word asked.opening.address asked.opening.context) }
{}
