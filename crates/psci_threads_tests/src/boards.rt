//! Boards, and runs on them.

use crate::meeting::Meeting;
use crate::serving::serve;
use psci_bench::{BenchFault, Gate, OpenGate, Sighting, Threaded, calls_of, threads};
use psci_board::Board;
use psci_world::World;
use std::alloc::Global;
use std::sync::Wait;
use std::thread::Threads;

/// Two clusters of two cores.
pub(crate) const BOARD: &str =
    "(2 2) exec 0x40000000-0x40100000 boot 0x40000000 starts 1000 lives 3";

/// Two groups of two clusters of a core each.
pub(crate) const TALL: &str =
    "((1 1) (1 1)) exec 0x40000000-0x40100000 boot 0x40000000 starts 1000 lives 3";

/// One core.
pub(crate) const ONE: &str = "1 exec 0x40000000-0x40100000 boot 0x40000000 starts 1000 lives 3";

/// 64 cores.
pub(crate) const LARGE: &str =
    "(16 16 16 16) exec 0x40000000-0x40100000 boot 0x40000000 starts 1000 lives 3";

/// The board that a text spells.
pub(crate) fn board_of(alloc: Global, text: &str) -> Result<Board, BenchFault> {
    match Board::read(alloc, text) {
        Ok(board) => Ok(board),
        Err(_) => Err(BenchFault::Memory),
    }
}

/// A run on the board that a text spells.
pub(crate) fn ran<R: Threads + Wait + Sync, G: Gate + Sync>(
    rt: &R,
    alloc: Global,
    text: &str,
    seed: u64,
    count: u64,
    gate: &G,
) -> Result<Threaded, BenchFault> {
    let board = board_of(alloc, text)?;
    if board.cores() > 64 {
        return Err(BenchFault::Gather);
    }
    threads(rt, alloc, &board, seed, count, gate)
}

/// Whether each of so many cores has made so many calls in a run, and looked at others between
/// them.
fn is_done(run: &Threaded, cores: u16, count: u64) -> bool {
    let entries = run.trace.firmware.as_slice();
    run.polls.len() == usize::from(cores)
        && run.polls.iter().enumerate().all(|(place, it)| usize::from(it.core.number) == place
            && calls_of(entries, it.core) == count
            && it.polls >= count.saturating_sub(3))
}

/// Whether each core's thread has seen something else than just before at least so often, and each
/// serial of a core with one status.
fn has_seen(run: &Threaded, floor: u64) -> bool {
    run.polls.iter().all(|it| it.seen.len() as u64 >= floor && are_serials(it.seen.as_slice()))
}

/// Whether no serial of a core was seen with two statuses.
fn are_serials(seen: &[Sighting]) -> bool {
    seen.iter().all(|one| {
        seen.iter().all(|other| one.core != other.core
            || one.serial != other.serial
            || one.status == other.status)
    })
}

/// Whether all entries of a run were audited.
fn is_whole(run: &Threaded) -> bool {
    let firmware = run.trace.firmware.len() as u64;
    let controller = run.trace.controller.len() as u64;
    run.audited == firmware.wrapping_add(controller)
}

/// Whether all entries of a run were audited, each core has made its calls, and has seen so often
/// something else than just before.
pub(crate) fn is_audited<R: Threads + Wait + Sync>(
    rt: &R,
    alloc: Global,
    text: &str,
    count: u64,
    floor: u64,
) -> Result<bool, BenchFault> {
    let cores = board_of(alloc, text)?.cores();
    let run = ran(rt, alloc, text, 1, count, &OpenGate)?;
    Ok(is_whole(&run) && is_done(&run, cores, count) && has_seen(&run, floor))
}

/// Whether cores 0 and 1 come to meet, each in its second call.
pub(crate) fn met<R: Threads + Wait + Sync>(
    rt: &R,
    alloc: Global,
    text: &str,
) -> Result<bool, BenchFault> {
    let meeting = Meeting::new();
    let run = ran(rt, alloc, text, 1, 2, &meeting)?;
    Ok(run.audited > 0)
}

/// What becomes of the same calls where one thread serves both cores in this order, each with so
/// many calls at once.
pub(crate) fn served(
    alloc: Global,
    text: &str,
    order: [u16; 2],
    at_once: u32,
) -> Result<(), BenchFault> {
    let board = board_of(alloc, text)?;
    let mut world = World::new(alloc, &board)?;
    serve(&mut world, order, at_once, &Meeting::new())
}
