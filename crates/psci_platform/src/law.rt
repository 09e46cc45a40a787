//! What holds of platforms: each law is the contract of a function that does nothing.

ghost use Rattle.std.specs.Prelude.{◌<◌, ◌≡◌, ◌≤◌, Err, false, length, List, None, Ok, option_map};
ghost use Rattle.std.specs.Prelude.{slice_index, Some, true, ℕ};
ghost use Rattle.psci_abi.specs.Calls.{request_of};
ghost use Rattle.psci_abi.specs.declared.registers.Regs.{Regs};
ghost use Rattle.psci_abi.specs.declared.request.Request.TheVariants as requests;
ghost use Rattle.psci_abi.specs.declared.registers.Format.{Format};
ghost use Rattle.psci_board.specs.Board.{address, BoardValue, core_of, cores, height, IsBoard};
ghost use Rattle.psci_board.specs.Board.{node_of, up};
ghost use Rattle.psci_fw_laws.specs.Renumbered.{CallsBy, IsRenumbering, reply_by, values_by};
ghost use Rattle.psci_fw_spec.specs.declared.call.FwCall.TheVariants as calls;
ghost use Rattle.psci_fw_spec.specs.declared.mode.SuspendMode.{SuspendMode};
ghost use Rattle.psci_fw_spec.specs.declared.reply.FwReply.{FwReply};
ghost use Rattle.psci_fw_spec.specs.Effects.{after};
ghost use Rattle.psci_fw_spec.specs.Answer.{answer};
ghost use Rattle.psci_fw_spec.specs.Values.{Values};
ghost use Rattle.psci_state.specs.PowerState.{ask_of, deepest_of};
ghost use Rattle.psci_platform.specs.declared.asked.Asked.TheVariants as asks;
ghost use Rattle.psci_platform.specs.Calls.{asked_by, asked_for, first_argument, is_there};
ghost use Rattle.psci_platform.specs.Calls.{regs_for};
ghost use Rattle.psci_platform.specs.Cores.{boot_place, core_named, core_word, no_core};
ghost use Rattle.psci_platform.specs.Cores.{number_named};
ghost use Rattle.psci_platform.specs.Faults.{fault_of};
ghost use Rattle.psci_platform.specs.Described.{DescriptionValue};
ghost use Rattle.psci_platform.specs.Identity.{identity, own_asked};
ghost use Rattle.psci_platform.specs.States.{depths_of, no_state};
ghost use Rattle.psci_platform.specs.Swaps.{is_symmetric, swap_for};

use psci_board::{law_parents, law_paths, law_sizes, law_words};
use psci_fw_laws::law_no_core_is_special;

/// What a platform does not have is nothing to the firmware, whatever the board: a function that is
/// not there is unknown, the word for a wrong power state is none, and the word for a wrong MPIDR
/// names no core and no power domain.
pub fn law_missing()
    ensures function { (d : DescriptionValue) (b : BoardValue) (boot : ℕ) (mode : SuspendMode)
        (regs : Regs) → is_there d.functions (request_of regs) ≡ false
        → request_of (regs_for d b boot mode regs) ≡ requests.Unknown }
    ensures state { (format : Format) (height : ℕ)
        → ask_of format height no_state ≡ Err (record {}) }
    ensures core { (b : BoardValue) → IsBoard b → core_of b no_core ≡ None }
    ensures node { (b : BoardValue) (level : ℕ) → IsBoard b → node_of b no_core level ≡ None }
{
    law_words();
}

/// A description that has no fault has an MPIDR for each core, which names this core and no other,
/// and its boot core has the firmware's number for it: 0.
pub fn law_mpidrs()
    ensures count { (d : DescriptionValue) (b : BoardValue) (boot : ℕ)
        → fault_of d b boot ≡ None → length d.mpidrs ≡ cores b }
    ensures boot { (d : DescriptionValue) (b : BoardValue) (boot : ℕ) → IsBoard b
        → fault_of d b boot ≡ None
        → number_named d b (boot_place d b boot) boot 0 ≡ Some 0 }
    ensures core { (d : DescriptionValue) (b : BoardValue) (boot c : ℕ)
        → fault_of d b boot ≡ None → c < cores b
        → core_named d b (slice_index d.mpidrs c) 0 ≡ Some c }
{
    law_sizes();
    law_paths();
    law_parents();
}

/// What a call names by an MPIDR is what the firmware is asked of: the core with that MPIDR, or the
/// domain of the call's level above the cores that have its fields; each by the firmware's number.
pub fn law_named()
    ensures core { (d : DescriptionValue) (b : BoardValue) (boot mpidr : ℕ) → IsBoard b
        → fault_of d b boot ≡ None → let place = boot_place d b boot in
        core_of b (core_word d b place mpidr 0)
        ≡ option_map (λ c. record { number = c }) (number_named d b place mpidr 0) }
    ensures node { (d : DescriptionValue) (b : BoardValue) (boot mpidr level : ℕ) → IsBoard b
        → fault_of d b boot ≡ None → level ≤ height b → let place = boot_place d b boot in
        node_of b (core_word d b place mpidr level) level
        ≡ option_map (λ c. record { level = level; place = up b level c })
        (number_named d b place mpidr level) }
{
    law_sizes();
    law_paths();
    law_parents();
    law_words();
}

/// A boot core that is not the first one of the tree is a renumbering: each call is answered as if
/// core 0 booted, of the swapped cores and domains.
pub fn law_boot_core()
    // Where core 0 boots nothing is swapped.
    ensures own { (b : BoardValue) (level place : ℕ) → IsBoard b
        → swap_for b 0 level place ≡ place }
    // The tree looks the same from the boot core as from core 0.
    ensures symmetric { (d : DescriptionValue) (b : BoardValue) (boot : ℕ) → IsBoard b
        → fault_of d b boot ≡ None → is_symmetric b (boot_place d b boot) ≡ true }
    // The swap keeps each domain above its cores.
    ensures renumbering { (d : DescriptionValue) (b : BoardValue) (boot : ℕ) → IsBoard b
        → fault_of d b boot ≡ None → IsRenumbering b (swap_for b (boot_place d b boot)) }
    // The firmware is asked of the swapped cores what it is asked where core 0 boots.
    ensures calls { (d : DescriptionValue) (b : BoardValue) (boot : ℕ) (mode : SuspendMode)
        (regs : Regs) → IsBoard b → fault_of d b boot ≡ None
        → CallsBy b (swap_for b (boot_place d b boot)) (calls.Smc (regs_for d b 0 mode regs))
        (calls.Smc (regs_for d b (boot_place d b boot) mode regs)) }
    // So it answers the same, of the swapped cores.
    ensures answers { (d : DescriptionValue) (b : BoardValue) (boot : ℕ) (v : Values) (c : ℕ)
        (regs : Regs) → IsBoard b → fault_of d b boot ≡ None
        → let s = swap_for b (boot_place d b boot) in
        answer b (values_by s v) (s 0 c)
        (calls.Smc (regs_for d b (boot_place d b boot) v.mode regs))
        ≡ reply_by s (answer b v c (calls.Smc (regs_for d b 0 v.mode regs))) }
{
    law_sizes();
    law_paths();
    law_parents();
    law_words();
    law_no_core_is_special();
}

/// What is told beside a call is what the firmware is asked for: the states that are told have the
/// depths that it reads, and it reads no power state where no states are told.
pub fn law_asked()
    ensures states { (d : DescriptionValue) (b : BoardValue) (boot place x1 : ℕ)
        (mode : SuspendMode) (state entry context : ℕ) (states : List ℕ)
        → fault_of d b boot ≡ None
        → asked_by d mode (requests.CpuSuspend state entry context) ≡ asks.States states
        → ask_of b.format (height b)
        (first_argument d b place mode x1 (requests.CpuSuspend state entry context))
        ≡ Ok (depths_of d states) }
    ensures none { (d : DescriptionValue) (b : BoardValue) (place x1 : ℕ)
        (mode : SuspendMode) (state entry context : ℕ)
        → asked_by d mode (requests.CpuSuspend state entry context) ≡ asks.Nothing
        → ask_of b.format (height b)
        (first_argument d b place mode x1 (requests.CpuSuspend state entry context))
        ≡ Err (record {}) }
    // SYSTEM_SUSPEND is told to take every level of the board down, as the firmware does.
    ensures system { (d : DescriptionValue) (b : BoardValue) (boot : ℕ)
        → fault_of d b boot ≡ None → d.functions.system_suspend ≡ true
        → depths_of d d.system ≡ deepest_of (height b) }
{}

/// A platform that names everything as the firmware does is the firmware: with the identity of a
/// board each call of each core, whatever its registers, is answered as the firmware answers it
/// untranslated, and leaves the same values.
pub fn law_identity()
    // The identity has no fault, and core 0 boots.
    ensures faultless { (b : BoardValue) → IsBoard b
        → fault_of (identity b) b (address b 0 0) ≡ None }
    ensures boot { (b : BoardValue) → IsBoard b
        → boot_place (identity b) b (address b 0 0) ≡ 0 }
    // Each call is answered alike.
    ensures answers { (b : BoardValue) (v : Values) (c : ℕ) (regs : Regs) → IsBoard b
        → answer b v c (calls.Smc (regs_for (identity b) b 0 v.mode regs))
        ≡ answer b v c (calls.Smc regs) }
    // And it leaves the same, whatever was replied.
    ensures after { (b : BoardValue) (v : Values) (c : ℕ) (regs : Regs) (mode : SuspendMode)
        (reply : FwReply) → IsBoard b
        → after b c (calls.Smc (regs_for (identity b) b 0 mode regs)) reply v
        ≡ after b c (calls.Smc regs) reply v }
    // What is told beside are the depths that the firmware is asked for.
    ensures asked { (b : BoardValue) (mode : SuspendMode) (regs : Regs) → IsBoard b
        → asked_for (identity b) mode regs ≡ own_asked b (request_of regs) }
{
    law_sizes();
    law_paths();
    law_parents();
    law_words();
}
