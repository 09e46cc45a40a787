//! An event in lines: its number and its columns, and behind or below them what was asked and what
//! was answered.

ghost use Rattle.std.specs.Prelude.{◌++◌, ◌<◌, ◌^◌, ◌≡◌, ◌≤◌, [], OnOk, string_bytes};
ghost use Rattle.psci_world.specs.psci_board.Board.{height};

use crate::run::Run;
use crate::state::{Activity, write_entries};
use crate::words::{write_asked, write_said};
use psci_world::{Board, Core, Node, Record};
use std::alloc::AllocError;

/// How many columns stand before a row: four for the number, and two spaces.
const MARGIN: usize = 6;

/// The fewest columns that a line has.
const NARROWEST: u16 = 40;

/// The fewest columns for words.
const FEWEST: usize = 20;

/// Moves a text behind what is written next.
pub fn put(out: &mut Vec<u8>, text: &mut String) -> Result<(), AllocError>
    ensures out { OnOk result (out.new.items ≡ out.old.items ++ string_bytes text.old) }
    ensures text { OnOk result (string_bytes text.new ≡ []) }
{
    out.extend_from_slice(text.as_bytes())?;
    text.clear();
    Ok(())
}

/// What is said of the power domains, or that all are off.
fn entries_or_none(entries: &[u8]) -> &[u8] {
    if entries.is_empty() {
        b"all off"
    } else {
        entries.get(2..).unwrap_or(&[])
    }
}

/// How wide a line is.
fn width_of(layout: Layout) -> usize
    ensures { 40 ≤ result }
{
    NARROWEST.max(layout.width) as usize
}

/// Writes the words of a record, and nothing else.
fn write_words(text: &mut String, run: &Run, item: &Record) -> Result<(), AllocError> {
    text.clear();
    write_asked(text, run, &item.event)?;
    write!(text, " -> ")?;
    write_said(text, run, item)
}

/// Writes an event with its columns in a row, and its words behind this indent.
fn write_beside(
    out: &mut Vec<u8>,
    text: &mut String,
    run: &Run,
    item: &Record,
    layout: Layout,
    indent: usize,
) -> Result<(), AllocError> {
    let room = FEWEST.max(width_of(layout).saturating_sub(indent));
    write!(text, "  ")?;
    write_row(text, run, layout.color)?;
    write!(text, "  ")?;
    put(out, text)?;
    write_words(text, run, item)?;
    write_wrapped(out, text.as_bytes(), b' ', indent, room)
}

/// Writes an event with its words, and its columns by names below them.
fn write_above(
    out: &mut Vec<u8>,
    text: &mut String,
    run: &Run,
    item: &Record,
    layout: Layout,
) -> Result<(), AllocError> {
    let room = width_of(layout) - MARGIN;
    write!(text, "  ")?;
    put(out, text)?;
    write_words(text, run, item)?;
    write_wrapped(out, text.as_bytes(), b' ', MARGIN, room)?;
    text.clear();
    write_entries(text, run)?;
    write_spaces(out, MARGIN)?;
    let entries = entries_or_none(text.as_bytes());
    write_wrapped(out, entries, b'\n', MARGIN, room)
}

/// Writes the newest event behind its number: its words stand beside its columns where these take
/// half of the line at most.
pub fn write_lines(
    out: &mut Vec<u8>,
    text: &mut String,
    run: &Run,
    item: &Record,
    layout: Layout,
) -> Result<(), AllocError> {
    let indent = MARGIN + row_width(run.world().board()) + 2;
    if indent <= width_of(layout) / 2 {
        write_beside(out, text, run, item, layout, indent)
    } else {
        write_above(out, text, run, item, layout)
    }
}

// How a run is shown.

/// Lines of a width.
#[derive(Clone, Copy)]
pub struct Layout {
    /// How many columns a line has; fewer than 40 are taken for 40.
    pub width: u16,
    /// Whether the letters of the cores are colored.
    pub color: bool,
    /// Whether the lines begin with what letters and depths mean.
    pub legend: bool,
}

/// How a run is shown.
#[derive(Clone, Copy)]
pub enum Form {
    /// To people: lines of words and columns.
    Lines(Layout),
    /// To programs: an object for the board, and one for each event.
    Json,
}

// The columns after an event, in a row.

/// Writes the letter of a state.
fn write_letter(out: &mut String, state: Activity, color: bool) -> Result<(), AllocError> {
    let told = state.told();
    let letter = told.letter;
    if color {
        write!(out, "\x1b[{}m{letter}\x1b[0m", told.color)
    } else {
        write!(out, "{letter}")
    }
}

/// Writes the letter of each core.
fn write_letters(out: &mut String, run: &Run, color: bool) -> Result<(), AllocError> {
    for number in 0..run.world().board().cores() {
        write_letter(out, run.state(Core { number }), color)?;
    }
    Ok(())
}

/// Writes the depths of each power domain of a level.
fn write_level(out: &mut String, run: &Run, level: u32) -> Result<(), AllocError>
    requires { level ≤ height run.now.board }
{
    write!(out, " ")?;
    for place in 0..run.world().board().nodes(level) {
        let depths = run.depths(Node { level, place });
        write!(out, " {depths}")?;
    }
    Ok(())
}

/// Writes a letter for each core, and the depths level by level from the cores up.
pub fn write_row(out: &mut String, run: &Run, color: bool) -> Result<(), AllocError> {
    write_letters(out, run, color)?;
    for level in 0..run.world().board().height() + 1 {
        write_level(out, run, level)?;
    }
    Ok(())
}

/// How wide a row is.
pub fn row_width(board: &Board) -> usize
    ensures { result < 2 ^ 60 }
{
    let mut width = usize::from(board.cores());
    for level in 0..board.height() + 1 {
        width += 3 * usize::from(board.nodes(level)) + 1;
    }
    width
}

// Text in lines of a width.

/// Writes this many spaces.
pub fn write_spaces(out: &mut Vec<u8>, count: usize) -> Result<(), AllocError> {
    for _done in 0..count {
        out.push(b' ')?;
    }
    Ok(())
}

/// Where this byte is first, if it is there.
fn word_end(at: u8, text: &[u8]) -> Option<usize> {
    text.iter().position(|byte| *byte == at)
}

/// How long the word at the front is, which ends before this byte.
fn word_length(at: u8, text: &[u8]) -> usize {
    word_end(at, text).unwrap_or(text.len())
}

/// Writes a text that stands behind an indent, in lines with room for so many bytes, and a line
/// feed. It is broken at this byte alone, where the next word has no room; a space stands in the
/// place of each other such byte.
pub fn write_wrapped(
    out: &mut Vec<u8>,
    text: &[u8],
    at: u8,
    indent: usize,
    room: usize,
) -> Result<(), AllocError> {
    let mut column: usize = 0;
    for (index, byte) in text.iter().enumerate() {
        if *byte == at && column.saturating_add(word_length(at, &text[index + 1..])) >= room {
            out.push(b'\n')?;
            write_spaces(out, indent)?;
            column = 0;
        } else {
            out.push(if *byte == at { b' ' } else { *byte })?;
            column += 1;
        }
    }
    out.push(b'\n')?;
    Ok(())
}
