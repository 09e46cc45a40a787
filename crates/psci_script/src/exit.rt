//! Failures: their exit statuses, what standard error says of them, and how the program ends.

ghost use Rattle.std.specs.Prelude.{◌≡◌, ◌++◌, ◌∷◌, [], OnOk};
ghost use Rattle.std.specs.Io.KnownBytes.{Appends};
ghost use Rattle.std.specs.Process.{exit_status};
ghost use Rattle.psci_script.specs.Exit.{ended_status, failure_report, status_of};

use crate::fault::{ReplayFault, ScriptFault};
use psci_board::BoardFault;
use std::fmt;
use std::io::{self, Write};
use std::process::ExitCode;

/// Why the program ended before it was done.
#[derive(Clone, Copy, Debug, PartialEq, Eq)]
pub enum Failure {
    /// The command line asks for nothing that there is; the parser has said so.
    CommandLine,
    /// The board that the command line gives has this fault.
    Board(BoardFault),
    /// The board that the command line gives has more cores than threads are started for.
    TooManyCores,
    /// The replay ended with this fault, or help or the line of a storm or of threads could not be
    /// written for want of it.
    Replay(ReplayFault),
    /// A core's thread, or that of the link, could not be made.
    Threads,
    /// The gate was shut at a call of a core's thread.
    Gate,
    /// What the threads took down of their calls does not agree with the books.
    Gather,
    /// The audit of what threads did has found this.
    Audit(AuditFailure),
}

/// What an audit of two books has found.
#[derive(Clone, Copy, Debug, PartialEq, Eq)]
pub enum AuditFailure {
    /// The tickets of a book do not rise, or one is in both books.
    Ticket,
    /// The entry at this place of the merged list, counted from 0, cannot follow those before it.
    Illegal(u64),
}

impl Failure {
    /// The exit status: 2 for the command line and the board in it, 3 for the script, 4 for reading
    /// or writing, 5 for memory or threads, 6 for what threads did.
    pub fn status(self) -> u8
        ensures { result ≡ status_of self }
    {
        match self {
            Failure::Board(BoardFault::Memory) => 5,
            Failure::CommandLine | Failure::Board(_) | Failure::TooManyCores => 2,
            Failure::Replay(fault) => match fault {
                ReplayFault::Read | ReplayFault::Write => 4,
                ReplayFault::Memory | ReplayFault::Board(BoardFault::Memory) => 5,
                ReplayFault::Script { .. } | ReplayFault::Board(_) => 3,
            },
            Failure::Threads => 5,
            Failure::Gate | Failure::Gather | Failure::Audit(_) => 6,
        }
    }

    /// Says on standard error what happened; of the command line the parser has said it. Where that
    /// cannot be written the status must do.
    pub fn tell(self, rt: &HostRuntime) {
        if self != Failure::CommandLine {
            let _ = write_report(&mut rt.stderr(), self);
        }
    }
}

/// Ends the program: a failure is told on standard error, and the exit status says it too.
pub fn end(rt: &HostRuntime, ended: Result<(), Failure>) -> ExitCode
    ensures { exit_status result ≡ ended_status ended }
{
    match ended {
        Ok(()) => ExitCode::SUCCESS,
        Err(failure) => {
            failure.tell(rt);
            ExitCode::from(failure.status())
        }
    }
}

/// Writes the line that standard error has of a failure.
fn write_report<W: Write>(to: &mut W, failure: Failure) -> io::Result<()>
    ensures { OnOk result (Appends (W.contents to.old) (W.contents to.new)
        (failure_report failure ++ 10 ∷ [])) }
{
    writeln!(to, "{}", FailureReport(failure))
}

/// A failure as standard error names it.
#[derive(Clone, Copy)]
struct FailureReport(Failure);

/// A fault as standard error names it, by its line and its number.
#[derive(Clone, Copy)]
struct Report(ReplayFault);

/// A fault of the board that the command line gives, as standard error names it.
#[derive(Clone, Copy)]
struct BoardReport(BoardFault);

/// The number of a script fault.
fn script_code(fault: ScriptFault) -> u8
    ensures { result ≡ Rattle.psci_script.specs.Exit.script_code fault }
{
    match fault {
        ScriptFault::NoBoard => 1,
        ScriptFault::Line => 2,
        ScriptFault::Long => 3,
        ScriptFault::TooMany => 4,
    }
}

/// The number of a board fault.
fn board_code(fault: BoardFault) -> u8
    ensures { result ≡ Rattle.psci_script.specs.Exit.board_code fault }
{
    match fault {
        BoardFault::Grammar => 1,
        BoardFault::Uneven => 2,
        BoardFault::TooWide => 3,
        BoardFault::TooManyCores => 4,
        BoardFault::BadRange => 5,
        BoardFault::BadBoot => 6,
        BoardFault::BadLimit => 7,
        BoardFault::Memory => 8,
    }
}

impl fmt::Display for FailureReport {
    ghost use Rattle.std.specs.Prelude.{Some};
    ghost use Rattle.psci_script.specs.Exit.{failure_report};

    ghost output = { λ r. Some (failure_report r.0) };

    fn fmt<W: fmt::Write>(&self, f: &mut fmt::Formatter<W>) -> fmt::Result {
        match self.0 {
            Failure::CommandLine => Ok(()),
            Failure::Board(fault) => write!(f, "{}", BoardReport(fault)),
            Failure::TooManyCores => write!(f, "too many cores"),
            Failure::Replay(fault) => write!(f, "{}", Report(fault)),
            Failure::Threads => write!(f, "out of threads"),
            Failure::Gate => write!(f, "gate limit"),
            Failure::Gather => write!(f, "gather fault"),
            Failure::Audit(AuditFailure::Ticket) => write!(f, "audit fault 1"),
            Failure::Audit(AuditFailure::Illegal(place)) => write!(f, "audit fault 2 at {place}"),
        }
    }
}

impl fmt::Display for Report {
    ghost use Rattle.std.specs.Prelude.{Some};
    ghost use Rattle.psci_script.specs.Exit.{report};

    ghost output = { λ r. Some (report r.0) };

    fn fmt<W: fmt::Write>(&self, f: &mut fmt::Formatter<W>) -> fmt::Result {
        match self.0 {
            ReplayFault::Script { line, fault } => {
                let number = script_code(fault);
                write!(f, "line {line}: script fault {number}")
            }
            ReplayFault::Board(BoardFault::Memory) => write!(f, "out of memory"),
            ReplayFault::Board(fault) => {
                let number = board_code(fault);
                write!(f, "line 1: board fault {number}")
            }
            ReplayFault::Read => write!(f, "read fault"),
            ReplayFault::Write => write!(f, "write fault"),
            ReplayFault::Memory => write!(f, "out of memory"),
        }
    }
}

impl fmt::Display for BoardReport {
    ghost use Rattle.std.specs.Prelude.{Some};
    ghost use Rattle.psci_script.specs.Exit.{given_board_report};

    ghost output = { λ r. Some (given_board_report r.0) };

    fn fmt<W: fmt::Write>(&self, f: &mut fmt::Formatter<W>) -> fmt::Result {
        match self.0 {
            BoardFault::Memory => write!(f, "out of memory"),
            fault => {
                let number = board_code(fault);
                write!(f, "board fault {number}")
            }
        }
    }
}
