//! What holds of every platform: each law is the contract of a function that does nothing.

ghost use Rattle.std.specs.Prelude.{◌≡◌, ◌<◌, ℕ, List, [], ◌∷◌, map, reverse, Some};
ghost use Rattle.psci_platform.specs.Platforms.{IsPlatform, PlatformValue};
ghost use Rattle.psci_headline.specs.psci_abi.Calls.{request_of};
ghost use Rattle.psci_headline.specs.psci_abi.declared.registers.Regs.{Regs};
ghost use Rattle.psci_headline.specs.psci_abi.declared.request.Request.TheVariants.{CpuSuspend};
ghost use Rattle.psci_headline.specs.psci_board.Board.{IsBoard, cores};
ghost use Rattle.psci_headline.specs.psci_fw_spec.declared.outcome.Act.TheVariants.{Stop};
ghost use Rattle.psci_headline.specs.psci_world_spec.declared.event.Event.{Event};
ghost use Rattle.psci_headline.specs.psci_world_spec.declared.event.Event.TheVariants.{Call};
ghost use Rattle.psci_headline.specs.psci_world_spec.declared.said.Record.{Record};
ghost use Rattle.psci_headline.specs.psci_world_spec.declared.said.Said.TheVariants.{Fw};
ghost use Rattle.psci_headline.specs.psci_world_spec.declared.said.Sent.{Sent};
ghost use Rattle.psci_platform_safe.specs.Asked.{AsksByWord, IsCore, IsLegalOn, mpidr_of, number};
ghost use Rattle.psci_platform_safe.specs.Asked.{run_on};
ghost use Rattle.psci_platform_safe.specs.Safe.{AlwaysSafeOn, OneEntryEach};

/// The firmware's numbers and the MPIDRs of a platform's cores name each other, and the boot core
/// has number 0.
pub fn law_numbers()
    ensures core { (p : PlatformValue) (mpidr : ℕ) → IsBoard p.board → IsPlatform p
        → IsCore p mpidr
        → (number p mpidr < cores p.board) × (mpidr_of p (number p mpidr) ≡ mpidr) }
    ensures number { (p : PlatformValue) (c : ℕ) → IsBoard p.board → IsPlatform p
        → c < cores p.board → IsCore p (mpidr_of p c) × (number p (mpidr_of p c) ≡ c) }
    ensures boot { (p : PlatformValue) → IsBoard p.board → IsPlatform p
        → IsCore p p.boot × (number p p.boot ≡ 0) }
{}

/// Each list of events of a platform has a legal history: the one in which of each event that is
/// said which the firmware and the power controller say of it, with MPIDRs for their cores.
pub fn law_runs_on()
    ensures legal { (p : PlatformValue) (events : List Event) → IsBoard p.board → IsPlatform p
        → IsLegalOn p (run_on p [] events) }
    ensures events { (p : PlatformValue) (events : List Event)
        → map (λ r. r.event) (run_on p [] events) ≡ reverse events }
{}

/// In a legal history of a platform each entry at an opening takes up one that waited for its core:
/// an accepted CPU_ON of its MPIDR, its own suspend by a word that powers it down, or its own
/// SYSTEM_SUSPEND asked for it in this life, with the entry point and the context id, and the core
/// has not entered at an opening since. Or the boot core begins a life, at the board's boot
/// address.
pub fn law_one_entry_on()
    ensures { (p : PlatformValue) (past : List Record) → IsBoard p.board → IsPlatform p
        → IsLegalOn p past → OneEntryEach p past }
{}

/// In a legal history of a platform a core that a word of CPU_SUSPEND has stopped asks of each
/// level of the board the depth of the level's state, by the row of the word.
pub fn law_asks_on()
    ensures { (p : PlatformValue) (r : Record) (past : List Record) (regs : Regs)
        (mpidr word entry context : ℕ) (sent : Sent) → IsBoard p.board → IsPlatform p
        → IsLegalOn p (r ∷ past) → r.event ≡ Call mpidr regs
        → request_of regs ≡ CpuSuspend word entry context → r.said ≡ Fw Stop (Some sent)
        → AsksByWord p r past mpidr word }
{}

/// A legal history of a platform is safe at every moment, in the platform's own words: no core that
/// executes stands below a domain that is not fully on, and a core that AFFINITY_INFO said is OFF
/// does not run and was powered down since it last went on; each domain has at most one live claim;
/// no domain is deeper than its cores asked; each entry takes up an opening that was made for the
/// core and that no other entry took up; and a domain that NODE_HW_STATE said is off or in standby
/// was so.
pub fn law_safe_on()
    ensures { (p : PlatformValue) (past : List Record) → IsBoard p.board → IsPlatform p
        → IsLegalOn p past → AlwaysSafeOn p past }
{}
