//! What an answer says and depends on, whatever the caller, the mode, the life and the board: each
//! law is the contract of a function that does nothing.

ghost use Rattle.std.specs.Prelude.{◌≡◌, ℕ, true, Some};
ghost use Rattle.psci_abi.specs.declared.request.Request.{Request};
ghost use Rattle.psci_abi.specs.declared.request.Request.TheVariants as requests;
ghost use Rattle.psci_board.specs.Board.{BoardValue, core_of};
ghost use Rattle.psci_board.specs.declared.draft.Core.{Core};
ghost use Rattle.psci_messages.specs.declared.kind.Kind.TheVariants as kinds;
ghost use Rattle.psci_messages.specs.declared.start.Start.{Start};
ghost use Rattle.psci_messages.specs.Message.{AckValue, MessageValue};
ghost use Rattle.psci_messages.specs.Slots.{slot_of};
ghost use Rattle.psci_fw_spec.specs.Answer.{enter_outcome, function_outcome, outcome_of};
ghost use Rattle.psci_fw_spec.specs.Changes.{in_life};
ghost use Rattle.psci_fw_spec.specs.Values.{IsNamed, taken_by, Values};
ghost use Rattle.psci_fw_spec.specs.PowerCalls.{stops};

/// In a halting life a core stops, and nothing is sent: whichever function it calls, and however it
/// enters.
pub fn law_halting_life()
    ensures calls { (b : BoardValue) (v : Values) (c : ℕ) (r : Request) → v.halting ≡ true
        → outcome_of b v c r ≡ stops }
    ensures enters { (b : BoardValue) (v : Values) (c : ℕ) (s : Start)
        → (in_life b s.life v).halting ≡ true → enter_outcome b v c s ≡ stops }
{}

/// A function sends the kind of message that it may send and no other. The message names the target
/// of a CPU_ON, and else the caller; it has the firmware's life, and the known start of that core.
/// The Down of a core that parks has its life and the number of its start.
pub fn law_message_names()
    ensures function { (b : BoardValue) (v : Values) (c : ℕ) (r : Request) (m : MessageValue)
        → (outcome_of b v c r).message ≡ Some m → IsNamed b v c r m }
    ensures park { (b : BoardValue) (v : Values) (c : ℕ) (s : Start) (m : MessageValue)
        → (enter_outcome b v c s).message ≡ Some m
        → (m.kind ≡ kinds.Down) × (m.core.number ≡ c) × (m.life ≡ s.life)
        × (m.number ≡ s.number) }
{}

/// What a function answers depends on nothing but what is said here. Two states that agree there
/// give the same answer, whatever their lives, modes, cores and messages, and where a second caller
/// stands here, whoever calls.
pub fn law_answers_depend()
    // On nothing: PSCI_VERSION, MIGRATE_INFO_TYPE, PSCI_FEATURES, and what is not supported.
    ensures version { (b : BoardValue) (v w : Values) (c d : ℕ)
        → function_outcome b v c requests.Version ≡ function_outcome b w d requests.Version }
    ensures migration { (b : BoardValue) (v w : Values) (c d : ℕ)
        → function_outcome b v c requests.MigrateInfoType
        ≡ function_outcome b w d requests.MigrateInfoType }
    ensures features { (b : BoardValue) (v w : Values) (c d word : ℕ)
        → function_outcome b v c (requests.Features word)
        ≡ function_outcome b w d (requests.Features word) }
    ensures unknown { (b : BoardValue) (v w : Values) (c d : ℕ)
        → function_outcome b v c requests.Unknown ≡ function_outcome b w d requests.Unknown }
    // SYSTEM_RESET2: its code on nothing but its type.
    ensures reset { (b : BoardValue) (v w : Values) (c d reset_type cookie other : ℕ)
        → (function_outcome b v c (requests.SystemReset2 reset_type cookie)).act
        ≡ (function_outcome b w d (requests.SystemReset2 reset_type other)).act }
    // CPU_ON: its code on the status and the known start of its target.
    ensures on { (b : BoardValue) (v w : Values) (c d word entry_point context other : ℕ)
        → ((t : Core) → core_of b word ≡ Some t → v.status t.number ≡ w.status t.number)
        → ((t : Core) → core_of b word ≡ Some t → v.known t.number ≡ w.known t.number)
        → (function_outcome b v c (requests.CpuOn word entry_point context)).act
        ≡ (function_outcome b w d (requests.CpuOn word entry_point other)).act }
    // AFFINITY_INFO: on the statuses.
    ensures affinity { (b : BoardValue) (v w : Values) (c d word level : ℕ)
        → v.status ≡ w.status → function_outcome b v c (requests.AffinityInfo level word)
        ≡ function_outcome b w d (requests.AffinityInfo level word) }
    // NODE_HW_STATE: on the granted depths, and which claims are confirmed.
    ensures hardware { (b : BoardValue) (v w : Values) (c d word level : ℕ)
        → v.granted ≡ w.granted → v.confirmed ≡ w.confirmed
        → function_outcome b v c (requests.NodeHwState level word)
        ≡ function_outcome b w d (requests.NodeHwState level word) }
    // PSCI_SET_SUSPEND_MODE: on the mode that is set, and the phases.
    ensures mode { (b : BoardValue) (v w : Values) (c number : ℕ) → v.mode ≡ w.mode
        → v.phase ≡ w.phase → function_outcome b v c (requests.SetSuspendMode number)
        ≡ function_outcome b w c (requests.SetSuspendMode number) }
    // CPU_SUSPEND: on the mode, the known starts, the phases and the granted depths.
    ensures suspend { (b : BoardValue) (v w : Values) (c state entry_point context other : ℕ)
        → v.life ≡ w.life → v.mode ≡ w.mode → v.known ≡ w.known → v.phase ≡ w.phase
        → v.granted ≡ w.granted
        → function_outcome b v c (requests.CpuSuspend state entry_point context)
        ≡ function_outcome b w c (requests.CpuSuspend state entry_point other) }
    // CPU_OFF: on the mode, the known starts and the phases, and on no granted depth.
    ensures off { (b : BoardValue) (v w : Values) (c : ℕ)
        → v.life ≡ w.life → v.mode ≡ w.mode → v.known ≡ w.known → v.phase ≡ w.phase
        → function_outcome b v c requests.CpuOff ≡ function_outcome b w c requests.CpuOff }
    // SYSTEM_SUSPEND: on these and the statuses.
    ensures system { (b : BoardValue) (v w : Values) (c entry_point context other : ℕ)
        → v.life ≡ w.life → v.mode ≡ w.mode → v.known ≡ w.known → v.status ≡ w.status
        → v.phase ≡ w.phase → v.granted ≡ w.granted
        → function_outcome b v c (requests.SystemSuspend entry_point context)
        ≡ function_outcome b w c (requests.SystemSuspend entry_point other) }
    // An entry: whether the core stops, goes on or resumes depends on the life, whether it is
    // halting, and the core's own opening, phase and known start.
    ensures enter { (b : BoardValue) (v w : Values) (c : ℕ) (s : Start) → v.life ≡ w.life
        → v.halting ≡ w.halting → v.opening c ≡ w.opening c → v.phase c ≡ w.phase c
        → v.known c ≡ w.known c → (enter_outcome b v c s).act ≡ (enter_outcome b w c s).act }
    // An acknowledgement: on what is outstanding in its slot.
    ensures take { (v w : Values) (a : AckValue)
        → v.outstanding (slot_of a.kind a.core) ≡ w.outstanding (slot_of a.kind a.core)
        → taken_by v a ≡ taken_by w a }
{}
