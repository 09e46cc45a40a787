//! How many records are of a tally.

use crate::answer::Tally;
use crate::table::TALLIES;
use psci_world_spec::Record;
use std::io::{self, Write};

/// The number of records of this tally.
pub fn count(records: &[Record], tally: Tally) -> u64 {
    records
        .iter()
        .filter(|record| Tally::of(record) == tally)
        .count() as u64
}

/// Writes a line for each of `TALLIES`, in that order: the tally, and how many of these records are
/// of it.
pub fn write_counts<W: Write>(to: &mut W, records: &[Record]) -> io::Result<()> {
    write_lines(to, records, &TALLIES)
}

/// Writes the lines of these tallies.
fn write_lines<W: Write>(to: &mut W, records: &[Record], tallies: &[Tally]) -> io::Result<()> {
    for tally in tallies {
        writeln!(to, "{tally} {}", count(records, *tally))?;
    }
    Ok(())
}
