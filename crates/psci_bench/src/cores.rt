//! A run of core threads over one firmware and one power controller.

ghost use Rattle.std.specs.Prelude.{◌≡◌, ◌≤◌, [], ◌∷◌, replicate, IfOk};
ghost use Rattle.psci_fw.specs.psci_board.Board.{cores};
ghost use Rattle.psci_fw.specs.psci_fw_spec.declared.status.Status.TheVariants.{Off};
ghost use Rattle.psci_status.specs.Seats.{table, table_of_writer, written};
ghost use Rattle.psci_bench.specs.Watches.{AllInHistory, AreLegalCalls, AreLegalControls};

use crate::gate::Gate;
use crate::gathering::{Cut, Gathered, gather};
use crate::link::Link;
use crate::platform::{Platform, Returned};
use crate::watch::Watch;
use crate::wire::Wire;
use crate::worker::Worker;
use psci_shared::{
    Board, Core, Named, SharedController, SharedFirmware, StatusWords, Tickets, Writer,
};
use std::alloc::Global;
use std::marker::Brand;
use std::sync::Wait;
use std::sync::ledger::Blank;
use std::thread;
use std::thread::Threads;

/// What a run is of.
#[derive(Clone, Copy)]
struct Plan<'a> {
    board: &'a Board,
    seed: u64,
    /// How many calls each core makes at most.
    count: u64,
    /// How many entries there is room for.
    room: u32,
}

/// What the firmware and the power controller of a run are made of.
#[derive(Drop)]
struct Makings {
    words: StatusWords,
    writer: Writer,
    firmware: Blank,
    controller: Blank,
}

/// What one thread does.
#[derive(Drop)]
enum Job<N: Named, M: Named> {
    Core(Worker<N, M>),
    Link(Link<N, M>),
}

/// Runs a thread for each core, which makes so many calls at most, and one for the link, and
/// gathers what they did. The gate is asked before each call. Which calls are made and how frames
/// travel is drawn from the seed, but the order of threads is the machine's, so runs differ.
///
/// A book has room for four entries for each call, or for fewer where the lists of all passes would
/// hold more than a hundred million: that of 64 cores for 1,538,461 at most. What finds its book
/// full is not entered. A core's thread to which that happens stops there and ends the run for all;
/// the link drops the frame. What was entered is handed back, so a core may have made fewer calls
/// than asked for, which its entries tell.
///
/// The entries of each book tell a legal history of the board, and what each core's thread saw of a
/// core by polls is that one of the core's statuses after the firmware's entries, by its serial.
pub fn run_cores<R: Threads + Wait + Sync, G: Gate + Sync>(
    rt: &R,
    alloc: Global,
    board: &Board,
    seed: u64,
    count: u64,
    gate: &G,
) -> Result<Gathered, Cut>
    requires { cores board.now ≤ 64 }
    ensures legal { IfOk result (λ g. AreLegalCalls board.now g.firmware.items) }
    ensures controls { IfOk result (λ g. AreLegalControls board.now g.controller.items) }
    ensures seen { IfOk result (λ g. AllInHistory board.now g.firmware.items g.polls.items) }
{
    let (words, writer) = StatusWords::new(alloc, board)?;
    let makings = Makings {
        words,
        writer,
        firmware: Blank::new(1001),
        controller: Blank::new(1001),
    };
    let plan = Plan {
        board,
        seed,
        count,
        room: room_of(board, count),
    };
    let tickets = Tickets::new();
    run::<Brand, Brand, R, G>(rt, alloc, plan, gate, &tickets, makings)
}

/// The entries of a run over a firmware and a power controller of these makings.
fn run<'a, N, M, R, G>(
    rt: &R,
    alloc: Global,
    plan: Plan<'a>,
    gate: &'a G,
    tickets: &'a Tickets,
    makings: Makings,
) -> Result<Gathered, Cut>
where
    N: Named + Send + Sync,
    M: Named + Send + Sync,
    R: Threads + Wait + Sync,
    G: Gate + Sync,
    requires firmware { (plan.board.now ≡ N.board) × (plan.room ≡ N.room)
        × (makings.firmware.name ≡ N.name) × (makings.firmware.parts ≡ N.parts)
        × (N.parts ≡ 1001) × (table makings.words ≡ N.table) × (N.table.words ≡ cores N.board)
        × (table_of_writer makings.writer ≡ N.table)
        × (written makings.writer ≡ replicate (cores N.board) (Off ∷ [])) }
    requires controller { (plan.board.now ≡ M.board) × (plan.room ≡ M.room)
        × (makings.controller.name ≡ M.name) × (makings.controller.parts ≡ M.parts)
        × (M.parts ≡ 1001) }
    ensures legal { IfOk result (λ g. AreLegalCalls N.board g.firmware.items) }
    ensures controls { IfOk result (λ g. AreLegalControls M.board g.controller.items) }
    ensures seen { IfOk result (λ g. AllInHistory N.board g.firmware.items g.polls.items) }
{
    let Makings {
        words,
        writer,
        firmware,
        controller,
    } = makings;
    let Plan { board, room, .. } = plan;
    let firmware = SharedFirmware::<N>::new(alloc, board, words, writer, room, tickets, firmware)?;
    let controller = SharedController::<M>::new(alloc, board, room, tickets, controller)?;
    on_threads(rt, alloc, plan, gate, firmware, controller)
}

/// The entries of a run over this firmware and this power controller, on threads.
fn on_threads<'a, N, M, R, G>(
    rt: &R,
    alloc: Global,
    plan: Plan<'a>,
    gate: &'a G,
    firmware: SharedFirmware<'a, N>,
    controller: SharedController<'a, M>,
) -> Result<Gathered, Cut>
where
    N: Named + Send + Sync,
    M: Named + Send + Sync,
    R: Threads + Wait + Sync,
    G: Gate + Sync,
    requires { (plan.board.now ≡ N.board) × (plan.board.now ≡ M.board) }
    ensures legal { IfOk result (λ g. AreLegalCalls N.board g.firmware.items) }
    ensures controls { IfOk result (λ g. AreLegalControls M.board g.controller.items) }
    ensures seen { IfOk result (λ g. AllInHistory N.board g.firmware.items g.polls.items) }
{
    let mut firmware = firmware;
    let mut controller = controller;
    let jobs = jobs_of(alloc, plan.board, plan.seed, &mut firmware, &mut controller)?;
    let wire = Wire::new(alloc, plan.board.cores())?;
    let platform = Platform {
        board: plan.board,
        firmware: &firmware,
        controller: &controller,
        wire: &wire,
        count: plan.count,
    };
    let returned = thread::map_vec(rt, jobs, &|job| done(rt, &platform, gate, job))?;
    gather(alloc, firmware, controller, returned)
}

/// What a thread hands back that has done its job.
fn done<N: Named, M: Named, R: Wait, G: Gate>(
    rt: &R,
    platform: &Platform<'_, N, M>,
    gate: &G,
    job: Job<N, M>,
) -> Returned<N, M> {
    if !platform.wire.starts_with_all(rt) {
        return left(job);
    }
    match job {
        Job::Core(worker) => worker.run(rt, platform, gate),
        Job::Link(link) => link.run(rt, platform),
    }
}

/// What a thread hands back that has not done its job, since not all threads could be made.
fn left<N: Named, M: Named>(job: Job<N, M>) -> Returned<N, M> {
    match job {
        Job::Core(worker) => worker.handed_back(Some(Cut::Threads)),
        Job::Link(link) => link.handed_back(Some(Cut::Threads)),
    }
}

/// A worker for each core, and the link.
fn jobs_of<N: Named, M: Named>(
    alloc: Global,
    board: &Board,
    seed: u64,
    firmware: &mut SharedFirmware<'_, N>,
    controller: &mut SharedController<'_, M>,
) -> Result<Vec<Job<N, M>>, Cut>
    requires { board.now ≡ M.board }
{
    let mut jobs = Vec::new(alloc);
    for number in 0..board.cores() {
        let core = Core { number };
        let watch = Watch::new(alloc, firmware.pass(core)?);
        let asked = controller.pass()?;
        jobs.push(Job::Core(Worker::new(watch, asked, core, seed)))?;
    }
    let watch = Watch::new(alloc, firmware.pass(Core { number: 0 })?);
    let asked = controller.pass()?;
    jobs.push(Job::Link(Link::new(alloc, watch, asked, board.cores(), seed)?))?;
    Ok(jobs)
}

/// So many entries a run has room for in the lists of all its passes. Each of these is as long as a
/// book.
const ROOM: u64 = 100_000_000;

/// How many entries of one book a call of a core leads to at most, on the average of a run.
const ENTRIES: u64 = 4;

/// How many entries a book has room for.
fn room_of(board: &Board, count: u64) -> u32 {
    let cores = u64::from(board.cores());
    let wanted = count.min(10_000) * ENTRIES * cores + 64;
    wanted.min(ROOM / (cores + 1)) as u32
}
