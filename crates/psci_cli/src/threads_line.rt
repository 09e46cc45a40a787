//! Threads for the cores of a board, the line that says what came of them, and what each core did.

ghost use Rattle.std.specs.Prelude.{◌≡◌};
ghost use Rattle.psci_cli.specs.Threading.{failure_at};

use psci_bench::{
    AuditFault, BenchFault, Core, FwEntry, OpenGate, Polled, ReplayFault, Threaded, calls_of,
    entries_of, threads,
};
use psci_command::{AuditFailure, Board, Failure, ThreadsRequest};
use std::alloc::Global;
use std::io::{self, Write};
use std::sync::Wait;
use std::thread::Threads;

/// The most cores that threads are started for.
const MOST_CORES: u16 = 64;

/// What the threads that are asked for did, with a gate that is always open.
pub fn threaded<R: Threads + Wait + Sync>(
    rt: &R,
    alloc: Global,
    request: ThreadsRequest,
) -> Result<Threaded, Failure> {
    let board = Board::read(alloc, request.board).map_err(Failure::Board)?;
    if board.cores() > MOST_CORES {
        return Err(Failure::TooManyCores);
    }
    match threads(rt, alloc, &board, request.seed, request.count, &OpenGate) {
        Ok(threaded) => Ok(threaded),
        Err(fault) => Err(failure_at(fault)),
    }
}

/// How the program ends at this fault of a run of threads.
fn failure_at(fault: BenchFault) -> Failure
    ensures { result ≡ failure_at fault }
{
    match fault {
        BenchFault::Gate => Failure::Gate,
        BenchFault::Gather => Failure::Gather,
        BenchFault::Memory => Failure::Replay(ReplayFault::Memory),
        BenchFault::Threads => Failure::Threads,
        BenchFault::Audit(found) => match found {
            AuditFault::Memory => Failure::Replay(ReplayFault::Memory),
            AuditFault::Ticket => Failure::Audit(AuditFailure::Ticket),
            AuditFault::Illegal(place) => Failure::Audit(AuditFailure::Illegal(place)),
        },
    }
}

/// Writes the line of threads, and where the counts are asked for, what each core did.
pub fn write_threads<W: Write>(to: &mut W, threaded: &Threaded, counts: bool) -> io::Result<()> {
    let Threaded {
        firmware,
        controller,
        audited,
        ..
    } = threaded;
    writeln!(
        to,
        "threads firmware {firmware} controller {controller} audited {audited}"
    )?;
    if counts {
        write_cores(
            to,
            threaded.trace.firmware.as_slice(),
            threaded.polls.as_slice(),
        )?;
    }
    Ok(())
}

/// Writes for each core how many calls and entries the firmware's book has of it, and how often its
/// thread has read a status without the lock.
fn write_cores<W: Write>(to: &mut W, entries: &[FwEntry], polls: &[Polled]) -> io::Result<()> {
    for polled in polls {
        let Core { number } = polled.core;
        let calls = calls_of(entries, polled.core);
        let made = entries_of(entries, polled.core);
        let polls = polled.polls;
        writeln!(
            to,
            "core {number} calls {calls} entries {made} polls {polls}"
        )?;
    }
    Ok(())
}
