//! What a run hands back: the entries of both books, gathered with the passes of all threads, and
//! what these saw by polls.

ghost use Rattle.std.specs.Prelude.{◌≡◌, ◌≤◌, IfErr, IfOk, List, OnOk};
ghost use Rattle.psci_audit.specs.Merged.{history_of};
ghost use Rattle.psci_audit.specs.Told.{IsListOfSafe};
ghost use Rattle.psci_audit.specs.psci_board.Board.{BoardValue, cores};
ghost use Rattle.psci_bench.specs.Runs.{IsAudited, IsFound};
ghost use Rattle.psci_bench.specs.Watches.{AllInHistory, AreLegalCalls, AreLegalControls, AreSeen};
ghost use Rattle.psci_bench.specs.Watches.{IsSeenByOne};
ghost use Rattle.psci_bench.specs.declared.gathering.Polled.{Polled};
ghost use Rattle.psci_shared.specs.Passes.{AllStand};

use crate::cores::run_cores;
use crate::gate::Gate;
use crate::platform::Returned;
use crate::watch::Watch;
use psci_audit::{AuditFault, Retold, Trace, World, retell};
use psci_shared::{
    Board, Core, CtlEntry, CtlPass, FwEntry, Memory, Named, Pass, PassFault, SharedController,
    SharedFirmware, Sighting,
};
use std::alloc::{AllocError, AllocFailed, Global};
use std::sync::Wait;
use std::thread::Threads;
use thiserror::Error;

/// The entries of both books, each in the order of its book, and what was seen by polls.
#[derive(Drop)]
pub struct Gathered {
    /// What the firmware was asked, with its replies.
    pub firmware: Vec<FwEntry>,
    /// What the power controller was asked, with its replies.
    pub controller: Vec<CtlEntry>,
    /// What each core's thread has read without the lock, core by core.
    pub polls: Vec<Polled>,
}

/// What a core's thread has read without the lock.
#[derive(Drop)]
pub struct Polled {
    /// The core whose thread it is.
    pub core: Core,
    /// How often it has read the status of a core.
    pub polls: u64,
    /// What it saw, the first first. Polls in a row that saw the same stand there once.
    pub seen: Vec<Sighting>,
}

/// What all threads have handed back.
#[derive(Drop)]
struct Handed<N: Named, M: Named> {
    passes: Vec<Pass<N>>,
    asked: Vec<CtlPass<M>>,
    polls: Vec<Polled>,
}

/// The entries of a run whose threads handed these back, or the first fault of a thread.
#[tactic(auto, using(crate::proofs::Kept::in_history))]
pub(crate) fn gather<N: Named, M: Named>(
    alloc: Global,
    firmware: SharedFirmware<'_, N>,
    controller: SharedController<'_, M>,
    returned: Vec<Returned<N, M>>,
) -> Result<Gathered, Cut>
    ensures legal { IfOk result (λ g. AreLegalCalls N.board g.firmware.items) }
    ensures controls { IfOk result (λ g. AreLegalControls M.board g.controller.items) }
    ensures seen { IfOk result (λ g. AllInHistory N.board g.firmware.items g.polls.items) }
{
    let Handed {
        passes,
        asked,
        polls,
    } = handed_in(alloc, returned)?;
    Ok(Gathered {
        firmware: firmware_entries(firmware, passes)?,
        controller: controller_entries(controller, asked)?,
        polls,
    })
}

/// What these threads have handed back, or the first fault of one.
fn handed_in<N: Named, M: Named>(
    alloc: Global,
    returned: Vec<Returned<N, M>>,
) -> Result<Handed<N, M>, Cut>
    ensures { IfOk result (λ h. AreSeen N.board h.passes.items h.polls.items) }
{
    let mut handed = Handed {
        passes: Vec::new(alloc),
        asked: Vec::new(alloc),
        polls: Vec::new(alloc),
    };
    for thread in returned {
        add(&mut handed, thread)?;
    }
    Ok(handed)
}

/// What one thread more has handed back, or its fault.
#[tactic(auto, using(crate::proofs::Kept::both))]
fn add<N: Named, M: Named>(handed: &mut Handed<N, M>, thread: Returned<N, M>) -> Result<(), Cut>
    requires { AreSeen N.board handed.old.passes.items handed.old.polls.items }
    ensures { OnOk result (AreSeen N.board handed.new.passes.items handed.new.polls.items) }
{
    let Returned {
        watch,
        asked,
        core,
        fault,
    } = thread;
    if let Some(fault) = fault {
        return Err(fault);
    }
    handed.asked.push(asked)?;
    let (seen, polls) = add_pass(&mut handed.passes, watch)?;
    if let Some(core) = core {
        handed.polls.push(Polled { core, polls, seen })?;
    }
    Ok(())
}

/// What was seen by polls with one pass more, which has seen it, and how often it was polled with.
#[tactic(auto, using(crate::proofs::Kept::by_last, crate::proofs::Kept::seen_more))]
fn add_pass<N: Named>(
    passes: &mut Vec<Pass<N>>,
    watch: Watch<N>,
) -> Result<(Vec<Sighting>, u64), Cut>
    ensures seen { IfOk result (λ r. IsSeenByOne N.board passes.new.items r.0.items) }
    ensures before { OnOk result ((polls : List Polled)
        → AreSeen N.board passes.old.items polls → AreSeen N.board passes.new.items polls) }
{
    let (pass, seen, polls) = watch.into_parts();
    passes.push(pass)?;
    Ok((seen, polls))
}

/// The entries of a firmware that is gathered with these passes.
fn firmware_entries<N: Named>(
    firmware: SharedFirmware<'_, N>,
    passes: Vec<Pass<N>>,
) -> Result<Vec<FwEntry>, Cut>
    ensures legal { IfOk result (λ entries. AreLegalCalls N.board entries.items) }
    ensures stood { IfOk result (λ entries. AllStand N.board entries.items passes.items) }
{
    let Ok(books) = firmware.gather(passes) else {
        return Err(Cut::Gather);
    };
    Ok(books.book.into_entries())
}

/// The entries of a power controller that is gathered with these passes.
fn controller_entries<M: Named>(
    controller: SharedController<'_, M>,
    passes: Vec<CtlPass<M>>,
) -> Result<Vec<CtlEntry>, Cut>
    ensures { IfOk result (λ entries. AreLegalControls M.board entries.items) }
{
    let Ok(books) = controller.gather(passes) else {
        return Err(Cut::Gather);
    };
    Ok(books.book.into_entries())
}

// Why a run of threads has no entries to hand back.

/// Why a run of threads has no entries to hand back.
#[derive(Clone, Copy, Debug, PartialEq, Eq)]
pub enum Cut {
    /// The gate said no.
    Gate,
    /// Memory ran out.
    Memory,
    /// A thread could not be made.
    Threads,
    /// The passes do not agree with the books.
    Gather,
}

impl From<AllocError> for Cut {
    fn from(_fault: AllocError) -> Cut {
        Cut::Memory
    }
}

impl<T: Drop> From<AllocFailed<T>> for Cut {
    fn from(_fault: AllocFailed<T>) -> Cut {
        Cut::Memory
    }
}

impl From<Memory> for Cut {
    fn from(_fault: Memory) -> Cut {
        Cut::Memory
    }
}

/// There are passes enough for each core of a board of 64, and each has its core.
impl From<PassFault> for Cut {
    fn from(_fault: PassFault) -> Cut {
        Cut::Memory
    }
}

// Why a run of threads gives no audited trace.

/// Why a run of threads gives no audited trace.
#[derive(Clone, Copy, Debug, PartialEq, Eq, Error)]
pub enum BenchFault {
    /// The gate said no.
    #[error("the gate said no")]
    Gate,
    /// Memory ran out.
    #[error("out of memory")]
    Memory,
    /// A thread could not be made.
    #[error("a thread could not be made")]
    Threads,
    /// The trace is not that of one legal run.
    #[error("the audit refuses the trace: {0}")]
    Audit(AuditFault),
    /// The passes do not agree with the books.
    #[error("the passes are not gathered")]
    Gather,
}

/// The fault of a run that was cut short so.
#[tactic(auto, unfolding(crate::specs::Runs::IsFound))]
pub(crate) fn fault_of(cut: Cut) -> BenchFault
    ensures { (b : BoardValue) → IsFound b result }
{
    match cut {
        Cut::Gate => BenchFault::Gate,
        Cut::Memory => BenchFault::Memory,
        Cut::Threads => BenchFault::Threads,
        Cut::Gather => BenchFault::Gather,
    }
}

impl<T: Drop> From<AllocFailed<T>> for BenchFault {
    fn from(_fault: AllocFailed<T>) -> BenchFault {
        BenchFault::Memory
    }
}

impl From<Memory> for BenchFault {
    fn from(_fault: Memory) -> BenchFault {
        BenchFault::Memory
    }
}

// A run of core threads, and what the audit says of its trace.

/// A run of threads that the audit found legal.
#[derive(Drop)]
pub struct Threaded {
    /// The entries of both books.
    pub trace: Trace,
    /// How many calls the firmware's book has.
    pub firmware: u64,
    /// How many calls the power controller's book has.
    pub controller: u64,
    /// How many entries the audit found to be one legal run.
    pub audited: u64,
    /// The run as a world has it: its records tell the entries of both books, in order.
    pub world: World,
    /// What each core's thread has read without the lock, core by core: how often, and what it saw.
    pub polls: Vec<Polled>,
}

/// Runs a thread for each core, which makes so many calls at most, and one for the link; then
/// audits what they did. The gate is asked before each call. Which calls are made and how frames
/// travel is drawn from the seed, but the order of threads is the machine's, so runs differ.
///
/// What each core's thread saw by polls stands in the audited run: it is a status that the core had
/// after the entries of the firmware's book, by its serial.
pub fn threads<R: Threads + Wait + Sync, G: Gate + Sync>(
    rt: &R,
    alloc: Global,
    board: &Board,
    seed: u64,
    count: u64,
    gate: &G,
) -> Result<Threaded, BenchFault>
    requires { cores board.now ≤ 64 }
    ensures ok { IfOk result (λ t. IsAudited board.now t) }
    ensures safe { IfOk result (λ t. IsListOfSafe board.now
        (history_of t.trace.firmware.items t.trace.controller.items)) }
    ensures fault { IfErr result (λ f. IsFound board.now f) }
{
    match run_cores(rt, alloc, board, seed, count, gate) {
        Ok(gathered) => audited(alloc, board, gathered),
        Err(cut) => Err(fault_of(cut)),
    }
}

/// What the audit says of the entries of both books.
#[tactic(auto, unfolding(crate::specs::Runs::IsFound))]
fn audited(alloc: Global, board: &Board, gathered: Gathered) -> Result<Threaded, BenchFault>
    requires { AllInHistory board.now gathered.firmware.items gathered.polls.items }
    ensures ok { IfOk result (λ t. IsAudited board.now t) }
    ensures safe { IfOk result (λ t. IsListOfSafe board.now
        (history_of t.trace.firmware.items t.trace.controller.items)) }
    ensures fault { IfErr result (λ f. IsFound board.now f) }
{
    let trace = Trace {
        firmware: gathered.firmware,
        controller: gathered.controller,
    };
    match retell(alloc, board, &trace) {
        Ok(Retold { world, audited }) => Ok(Threaded {
            firmware: trace.firmware.len() as u64,
            controller: trace.controller.len() as u64,
            trace,
            audited,
            world,
            polls: gathered.polls,
        }),
        Err(fault) => Err(BenchFault::Audit(fault)),
    }
}
