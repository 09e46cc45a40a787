//! Whether rows can be those of a platform, by their words.

ghost use Rattle.std.specs.Prelude.{◌≡◌};
ghost use Rattle.std.specs.List.{count_by, list_all};
ghost use Rattle.psci_platform.specs.Faults.{has_bits, has_same_word, is_row_word, meet, reserved};
ghost use Rattle.psci_platform.specs.Faults.{state_type};

use crate::row::Row;
use psci_board::Format;

/// The reserved bits of a format.
fn reserved(format: Format) -> u32
    ensures { result ≡ reserved format }
{
    match format {
        Format::Original => 0xFCFE_0000,
        Format::Extended => 0xB000_0000,
    }
}

/// StateType of a format: power-down.
pub fn state_type(format: Format) -> u32
    ensures { result ≡ state_type format }
{
    match format {
        Format::Original => 0x0001_0000,
        Format::Extended => 0x4000_0000,
    }
}

/// Whether a row reads these bits just so.
pub fn has_bits(row: &Row, bits: u32, value: u32) -> bool
    ensures { result ≡ has_bits row.now bits value }
{
    row.mask & bits == bits && row.word & bits == value
}

/// Whether a row reads words whose reserved bits are zero, and its own word has no bit that does
/// not count.
fn is_row_word(format: Format, row: &Row) -> bool
    ensures { result ≡ is_row_word format row.now }
{
    row.word & row.mask == row.word && has_bits(row, reserved(format), 0)
}

/// Whether all rows do so.
pub fn are_row_words(rows: &[Row], format: Format) -> bool
    ensures { result ≡ list_all (is_row_word format) rows.now }
{
    rows.iter().all(|row| is_row_word(format, row))
}

/// Whether two rows read one word.
fn meet(row: &Row, other: &Row) -> bool
    ensures { result ≡ meet row.now other.now }
{
    row.word & other.mask == other.word & row.mask
}

/// How many rows read a word that this row reads.
fn meets(rows: &[Row], row: &Row) -> usize
    ensures { result ≡ count_by (meet row.now) rows.now }
{
    rows.iter().filter(|other| meet(row, other)).count()
}

/// Whether one word is read by two rows.
pub fn has_same_word(rows: &[Row]) -> bool
    ensures { result ≡ has_same_word rows.now }
{
    rows.iter().any(|row| meets(rows, row) > 1)
}
