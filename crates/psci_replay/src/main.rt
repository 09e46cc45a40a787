//! The replay program: it takes a script of PSCI calls from standard input and answers each event
//! on standard output, as the command `replay` of the whole program does, with the same exit status
//! and the same line on standard error.
//!
//! It has no command line: whatever words it is given, it replays. So it stands on no parser, on no
//! storms and no threads, and is the first program that a newcomer proves.
#![tactic(auto)]

ghost use Rattle.std.specs.Prelude.{IfErr};
ghost use Rattle.psci_script.specs.Exit.{IsOfReplay};

use psci_answers::{Std, replay};
use psci_script::{Failure, end};
use std::process::ExitCode;

/// Replays the script on standard input in a world of its own.
fn replay_standard(rt: &HostRuntime) -> Result<(), Failure>
    ensures { IfErr result IsOfReplay }
{
    let mut source = Std::new(rt.reader());
    let mut sink = Std::new(rt.stdout());
    match replay(rt.alloc(), &mut source, &mut sink) {
        Ok(_) => Ok(()),
        Err(fault) => Err(Failure::Replay(fault)),
    }
}

fn main(rt: HostRuntime) -> ExitCode {
    end(&rt, replay_standard(&rt))
}
