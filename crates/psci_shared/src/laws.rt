//! What a pass has seen right after a call of its own.

ghost use Rattle.std.specs.Prelude.{◌≡◌, ◌≢◌, ◌<◌, ℕ, List, [], ◌∷◌, ◌++◌, Some, pos};
ghost use Rattle.psci_fw.specs.psci_abi.declared.registers.Code.{Code};
ghost use Rattle.psci_fw.specs.psci_board.Board.{BoardValue, cores};
ghost use Rattle.psci_fw.specs.psci_board.declared.draft.Core.{Core};
ghost use Rattle.psci_fw.specs.psci_fw_spec.declared.status.Status.{Status};
ghost use Rattle.psci_fw.specs.psci_fw_spec.PowerCalls.{status_code};
ghost use Rattle.psci_fw.specs.psci_fw_spec.Statuses.{statuses};
ghost use Rattle.psci_fw.specs.psci_fw_spec.declared.status.Status.TheVariants.{On, Pending};
ghost use Rattle.psci_fw.specs.psci_fw_spec.Changes.{PowerOn, target};
ghost use Rattle.psci_fw.specs.psci_fw_spec.Effects.{AsksOn, effect, Enters};
ghost use Rattle.psci_fw.specs.psci_fw_spec.History.{life, status};
ghost use Rattle.psci_messages.specs.declared.start.Start.{Start};
ghost use Rattle.psci_status.specs.Lists.{Item, Stands, row};
ghost use Rattle.psci_shared.specs.Places.{FwEntry};
ghost use Rattle.psci_shared.specs.Passes.{AllLast, exchange_of, Goes, HasSeen, history_of};
ghost use Rattle.psci_shared.specs.Passes.{IsAffinity, IsAmong, IsOneOf, PassView, Stand};

/// A pass that has seen the last status of each core, as after each call of its own that is
/// entered, has seen the firmware's status last, in every life. So right after an accepted CPU_ON
/// it has seen ON_PENDING of the target, and after an entry from which its core goes on ON of that
/// core.
pub fn law_own_calls()
    ensures status { (b : BoardValue) (entries : List FwEntry) (seen : List (List Item)) (core : ℕ)
        → AllLast b entries seen → life b (history_of entries) ≢ 0 → core < cores b
        → HasSeen seen core (status b (history_of entries) core) }
    ensures asked { (b : BoardValue) (entries : List FwEntry) (e : FwEntry)
        (seen : List (List Item)) (caller : ℕ) (asked : PowerOn)
        → AllLast b (entries ++ e ∷ []) seen → life b (history_of (entries ++ e ∷ [])) ≢ 0
        → effect b (exchange_of e) ≡ AsksOn caller asked → target asked < cores b
        → HasSeen seen (target asked) Pending }
    ensures entered { (b : BoardValue) (entries : List FwEntry) (e : FwEntry)
        (seen : List (List Item)) (core : ℕ) (start : Start)
        → AllLast b (entries ++ e ∷ []) seen → life b (history_of (entries ++ e ∷ [])) ≢ 0
        → effect b (exchange_of e) ≡ Enters core start → core < cores b → HasSeen seen core On }
{}

/// What a pass has seen it keeps, from call to call and poll to poll. So where a pass stands in a
/// history, as those do that are gathered, each poll by it on the way was answered by one of the
/// statuses of the core in that history.
pub fn law_polls()
    ensures keeps { (b : BoardValue) (item : Item) (core : ℕ) (p : PassView) (on : List PassView)
        (p' : PassView) → Goes b p on p' → IsAmong item (row p.seen core)
        → IsAmong item (row p'.seen core) }
    ensures stands { (b : BoardValue) (entries : List FwEntry) (item : Item) (core : ℕ)
        (seen : List (List Item)) → Stand b entries seen → core < cores b
        → IsAmong item (row seen core) → Stands (statuses b (history_of entries) core) item }
    ensures polled { (b : BoardValue) (entries : List FwEntry) (p p' last : PassView)
        (on : List PassView) (core : Core) (code : Code)
        → IsAffinity (Some core) p p' code → Goes b p' on last → Stand b entries last.seen
        → core.number < cores b
        → (status : Status) × (code ≡ record { 0 = pos (status_code status) })
        × IsOneOf b entries core.number status }
{}
