//! The program: scripts of PSCI calls, replayed or shown from standard input to standard output,
//! storms, and threads.
#![tactic(auto)]

mod keeping;
mod shown;
mod storm_line;
mod threads_line;

ghost use Rattle.std.specs.Prelude.{IfErr};
ghost use Rattle.psci_command.specs.psci_script.Exit.{IsOfReplay};

use keeping::keep;
use psci_bench::{ReplayFault, Std, StormedWorld, replay, storm_world};
use psci_command::{Board, Failure, Request, StormRequest, ThreadsRequest, asked, end, words};
use shown::show_standard;
use std::alloc::Global;
use std::process::ExitCode;
use std::sync::Wait;
use std::thread::Threads;
use storm_line::write_storm;
use threads_line::{threaded, write_threads};

/// Replays the script on standard input in a world of its own.
// Each command has a frame of its own, so that none lies on the stack beneath another.
#[inline(never)]
fn replay_standard(rt: &HostRuntime) -> Result<(), Failure>
    ensures { IfErr result IsOfReplay }
{
    let mut source = Std::new(rt.reader());
    let mut sink = Std::new(rt.stdout());
    match replay(rt.alloc(), &mut source, &mut sink) {
        Ok(_) => Ok(()),
        Err(fault) => Err(Failure::Replay(fault)),
    }
}

/// Makes the storm that is asked for.
fn stormed(alloc: Global, request: StormRequest) -> Result<StormedWorld, Failure> {
    let board = Board::read(alloc, request.board).map_err(Failure::Board)?;
    storm_world(alloc, &board, request.seed, request.count).map_err(|_| Failure::Replay(
        ReplayFault::Memory,
    ))
}

/// Makes a storm, keeps it where that is asked for, and writes on standard output what is asked of
/// it.
#[inline(never)]
fn storm_standard(rt: &HostRuntime, request: StormRequest) -> Result<(), Failure> {
    let stormed = stormed(rt.alloc(), request)?;
    if let Some(path) = request.keep {
        keep(rt, path, request.board, stormed.world.records())?;
    }
    match write_storm(&mut rt.stdout(), &stormed, request.counts) {
        Ok(()) => Ok(()),
        Err(_) => Err(Failure::Replay(ReplayFault::Write)),
    }
}

/// Starts the threads that are asked for, keeps the run where that is asked for, and writes on
/// standard output what is asked of it.
#[inline(never)]
fn threads_standard<R: Threads + Wait + Sync>(
    rt: &HostRuntime,
    threads: &R,
    request: ThreadsRequest,
) -> Result<(), Failure> {
    let threaded = threaded(threads, rt.alloc(), request)?;
    if let Some(path) = request.keep {
        keep(rt, path, request.board, threaded.world.records())?;
    }
    match write_threads(&mut rt.stdout(), &threaded, request.counts) {
        Ok(()) => Ok(()),
        Err(_error) => Err(Failure::Replay(ReplayFault::Write)),
    }
}

/// Does what the command line asks for. The runtime has threads in `main` alone, which hands them
/// on.
fn run<R: Threads + Wait + Sync>(rt: &HostRuntime, threads: &R) -> Result<(), Failure> {
    let words = words(rt)?;
    match asked(rt, words.as_slice())? {
        Request::Storm(request) => storm_standard(rt, request),
        Request::Threads(request) => threads_standard(rt, threads, request),
        Request::Show(request) => show_standard(rt, request),
        Request::Replay => replay_standard(rt),
        Request::Nothing => Ok(()),
    }
}

fn main(rt: HostRuntime) -> ExitCode {
    end(&rt, run(&rt, &rt))
}
