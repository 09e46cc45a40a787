//! The line of a storm, and its counts.

use psci_bench::{Settled, Storm, StormedWorld, write_counts};
use std::io::{self, Write};

/// Writes the line of a storm, and where the counts are asked for, the lines of all tallies.
pub fn write_storm<W: Write>(to: &mut W, stormed: &StormedWorld, counts: bool) -> io::Result<()> {
    let Storm {
        events,
        sent,
        settled,
    } = stormed.storm;
    match settled {
        Settled::Quiet(rounds) => {
            writeln!(to, "storm events {events} sent {sent} quiet {rounds}")?;
        }
        Settled::Halting => writeln!(to, "storm events {events} sent {sent} halting")?,
    }
    if counts {
        write_counts(to, stormed.world.records())?;
    }
    Ok(())
}
