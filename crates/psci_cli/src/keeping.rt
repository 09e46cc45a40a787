//! A run is kept in a file, as a script.

ghost use Rattle.std.specs.Prelude.{◌≡◌};
ghost use Rattle.std.specs.IoError.{error_kind};
ghost use Rattle.std.specs.declared.io.ErrorKind.TheVariants as kinds;
ghost use Rattle.psci_command.specs.psci_script.declared.exit.Failure.TheVariants.{Replay};
ghost use Rattle.psci_command.specs.psci_script.declared.fault.ReplayFault.TheVariants.{Memory};
ghost use Rattle.psci_command.specs.psci_script.declared.fault.ReplayFault.TheVariants.{Write};

use psci_bench::ReplayFault;
use psci_command::Failure;
use psci_script::{Record, write_script};
use std::fs::File;
use std::io::{self, BufWriter, Write};

/// Writes the run of these records on the board of this text into the file of this path, as a
/// script.
pub fn keep(rt: &HostRuntime, path: &str, board: &str, records: &[Record]) -> Result<(), Failure> {
    match write_file(rt, path, board, records) {
        Ok(()) => Ok(()),
        Err(error) => Err(unkept(&error)),
    }
}

fn write_file(
    rt: &HostRuntime,
    path: &str,
    board: &str,
    records: &[Record],
) -> Result<(), io::Error> {
    let mut script = BufWriter::new(rt.alloc(), File::create(rt, path)?)?;
    write_script(&mut script, board, records)?;
    script.flush()
}

/// Why a run could not be kept in a file: for want of memory, or it could not be written.
fn unkept(error: &io::Error) -> Failure
    ensures memory { error_kind error.now ≡ kinds.OutOfMemory → result ≡ Replay Memory }
    ensures write { ¬ (error_kind error.now ≡ kinds.OutOfMemory) → result ≡ Replay Write }
{
    Failure::Replay(if error.kind() == io::ErrorKind::OutOfMemory {
        ReplayFault::Memory
    } else {
        ReplayFault::Write
    })
}
