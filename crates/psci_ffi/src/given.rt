//! A board as C gives it, a struct of numbers alone: what is wrong with it, and the board of it.

ghost use Rattle.std.specs.Prelude.{◌≡◌, ◌≤◌, Err, IfErr, IfOk, Ok, length, map, nat_le, sum, take};
ghost use Rattle.std.specs.List.{list_all, list_any};
ghost use Rattle.psci_board.specs.Board.{IsBoard, IsTree, is_in_some, size_below};
ghost use Rattle.psci_board.specs.Verdict.{Answers, is_out_of_width};
ghost use Rattle.psci_ffi.specs.Given.{board_given, board_of_given, draft_given, format_given};
ghost use Rattle.psci_ffi.specs.Given.{has_levels, is_even, level_given, range_given};

use crate::opening::keep;
use psci_board::{
    AddressRange, Board, BoardDraft, BoardFault, Format, Level, MOST_CHILDREN, MOST_CORES,
    MOST_LEVELS, MOST_RANGES, Memory,
};
use std::alloc::Global;
use std::mem::size_of;

/// One level of the tree of power domains above the cores.
#[repr(C)]
#[derive(Clone, Copy)]
pub struct GivenLevel {
    /// How many nodes the level has.
    pub nodes: u16,
    /// How many children each of them has, from left to right. What follows is not looked at.
    pub children: [u16; MOST_CORES],
}

/// The addresses from `start` on, before `end`.
#[repr(C)]
#[derive(Clone, Copy)]
pub struct GivenRange {
    /// The first address of the range.
    pub start: u64,
    /// The first address after it.
    pub end: u64,
}

/// A board. What is not counted is not looked at.
#[repr(C)]
#[derive(Clone, Copy)]
pub struct GivenBoard {
    /// The level of the system, 1 to 3.
    pub height: u32,
    /// How power state words are written: 0 in the original format, 1 in the extended one.
    pub format: u32,
    /// How often a core may be started in one life, 1 to 2^32-1.
    pub starts: u32,
    /// How many lives there are, 1 to 65535.
    pub lives: u32,
    /// Where the boot core enters first.
    pub boot: u64,
    /// How many ranges there are, at most four.
    pub many_ranges: u32,
    /// Executable memory.
    pub ranges: [GivenRange; MOST_RANGES],
    /// The levels from 1 up.
    pub levels: [GivenLevel; MOST_LEVELS],
}

// The sizes that psci.h gives these.
const _: () = prove!(size_of::<GivenLevel>() == 514);

const _: () = prove!(size_of::<GivenRange>() == 16);

const _: () = prove!(size_of::<GivenBoard>() == 1640);

impl GivenLevel {
    /// How many children each node has.
    pub fn children(&self) -> &[u16]
        ensures children { result.now ≡ level_given self.now }
        ensures few { length result.now ≤ MOST_CORES }
    {
        let end = (self.nodes as usize).min(MOST_CORES);
        &self.children[..end]
    }

    /// How many nodes the level below has.
    pub fn all_children(&self) -> u32
        ensures { result ≡ sum (level_given self.now) }
    {
        self.children().iter().map(|&count| u32::from(count)).sum()
    }
}

impl GivenRange {
    /// The range.
    pub fn range(&self) -> AddressRange
        ensures { result ≡ range_given self.now }
    {
        AddressRange {
            start: self.start,
            end: self.end,
        }
    }
}

impl GivenBoard {
    /// The levels that are counted, from 1 up.
    pub fn levels(&self) -> &[GivenLevel]
        ensures { result.now ≡ take self.now.height self.now.levels }
    {
        let end = (self.height as usize).min(MOST_LEVELS);
        &self.levels[..end]
    }

    /// The ranges that are counted.
    pub fn ranges(&self) -> &[GivenRange]
        ensures { result.now ≡ take self.now.many_ranges self.now.ranges }
    {
        let end = (self.many_ranges as usize).min(MOST_RANGES);
        &self.ranges[..end]
    }

    /// The format, if the number is that of one.
    pub fn format(&self) -> Option<Format>
        ensures { result ≡ format_given self.now.format }
    {
        match self.format {
            0 => Some(Format::Original),
            1 => Some(Format::Extended),
            _ => None,
        }
    }
}

/// Whether there are one to three levels, none of more nodes than there is room for.
pub fn has_levels(given: &GivenBoard) -> bool
    ensures { result ≡ has_levels given.now }
{
    let levels = given.levels();
    !levels.is_empty() && given.height <= MOST_LEVELS as u32 && have_room(levels)
}

/// Whether no level has more nodes than there is room for.
fn have_room(levels: &[GivenLevel]) -> bool
    ensures { result ≡ list_all (λ l. nat_le l.nodes MOST_CORES) levels.now }
{
    levels.iter().all(|level| level.nodes <= MOST_CORES as u16)
}

/// What decides whether a struct that has levels has a board.
pub fn draft(given: &GivenBoard) -> BoardDraft
    ensures { result ≡ draft_given given.now }
{
    let levels = given.levels();
    let ranges = given.ranges();
    BoardDraft {
        is_uneven: !is_even(levels),
        is_too_wide: is_too_wide(levels),
        cores: u64::from(size_below(levels)),
        has_bad_range: given.many_ranges > MOST_RANGES as u32 || is_some_empty(ranges),
        may_boot: given.boot % 4 == 0 && is_in_some(ranges, given.boot),
        starts: u64::from(given.starts),
        lives: u64::from(given.lives),
    }
}

/// Whether each level has as many nodes as the one above has children, and the highest one.
fn is_even(levels: &[GivenLevel]) -> bool
    ensures { result ≡ is_even (map level_given levels.now) }
{
    match levels {
        [] => true,
        [level, above @ ..] => {
            level.children().len() == size_below(above) as usize && is_even(above)
        }
    }
}

/// How many nodes stand below these levels: the system alone, where there is none.
fn size_below(levels: &[GivenLevel]) -> u32
    ensures { result ≡ size_below (map level_given levels.now) }
{
    match levels {
        [] => 1,
        [level, ..] => level.all_children(),
    }
}

/// Whether a node has no child, or too many.
fn is_too_wide(levels: &[GivenLevel]) -> bool
    ensures { result
        ≡ list_any (λ w. list_any is_out_of_width w) (map level_given levels.now) }
{
    match levels {
        [] => false,
        [level, above @ ..] => has_bad_width(level.children()) || is_too_wide(above),
    }
}

/// Whether one of these is no number of children.
fn has_bad_width(counts: &[u16]) -> bool
    ensures { result ≡ list_any is_out_of_width counts.now }
{
    counts.iter().any(|&count| is_out_of_width(count))
}

/// Whether no node has so many children.
fn is_out_of_width(count: u16) -> bool
    ensures { result ≡ is_out_of_width count }
{
    count == 0 || count > MOST_CHILDREN as u16
}

/// Whether a range holds no address.
fn is_some_empty(ranges: &[GivenRange]) -> bool
    ensures { result ≡ list_any (λ r. nat_le r.end r.start) (map range_given ranges.now) }
{
    match ranges {
        [] => false,
        [range, others @ ..] => range.end <= range.start || is_some_empty(others),
    }
}

/// Whether a range holds the address.
fn is_in_some(ranges: &[GivenRange], address: u64) -> bool
    ensures { result ≡ is_in_some (map range_given ranges.now) address }
{
    match ranges {
        [] => false,
        [range, others @ ..] => {
            range.start <= address && address < range.end || is_in_some(others, address)
        }
    }
}

/// The board of a struct, or its first fault. Memory is asked for only where there is none.
#[tactic(auto, using(crate::proofs::GivenBoards::answering))]
pub fn read_given(alloc: Global, given: &GivenBoard) -> Result<Board, BoardFault>
    ensures { Answers result (board_of_given given.now) }
{
    if !has_levels(given) {
        return Err(BoardFault::Grammar);
    }
    let Some(format) = given.format() else {
        return Err(BoardFault::Grammar);
    };
    match draft(given).first_fault() {
        Some(fault) => Err(fault),
        None => Ok(build(alloc, given, format)?),
    }
}

/// The same, in memory of its own.
#[inline(never)]
pub fn kept_given(alloc: Global, given: &GivenBoard) -> Result<Box<Board>, BoardFault>
    ensures board { IfOk result (λ board. board_of_given given.now ≡ Ok board.value) }
    ensures fault { IfErr result (λ fault. Answers (Err fault) (board_of_given given.now)) }
{
    let board = read_given(alloc, given)?;
    Ok(keep(alloc, board)?)
}

/// The board of a struct that has no fault.
fn build(alloc: Global, given: &GivenBoard, format: Format) -> Result<Board, Memory>
    requires { IsBoard (board_given given.now format) }
    ensures { IfOk result (λ b. b ≡ board_given given.now format) }
{
    let levels = levels(alloc, given.levels())?;
    let ranges = ranges(alloc, given.ranges())?;
    let (starts, lives) = (given.starts, given.lives);
    Ok(Board::new(levels, ranges, given.boot, starts, lives, format))
}

/// These levels.
fn levels(alloc: Global, levels: &[GivenLevel]) -> Result<Vec<Level>, Memory>
    requires { IsTree (map level_given levels.now) }
    ensures { IfOk result (λ made. made.items ≡ map level_given levels.now) }
{
    let mut made = Vec::with_capacity(alloc, levels.len())?;
    for level in levels {
        made.push(Level::new(alloc, level.children())?)?;
    }
    Ok(made)
}

/// These ranges.
fn ranges(alloc: Global, ranges: &[GivenRange]) -> Result<Vec<AddressRange>, Memory>
    ensures { IfOk result (λ made. made.items ≡ map range_given ranges.now) }
{
    let mut made = Vec::with_capacity(alloc, ranges.len())?;
    for range in ranges {
        made.push(range.range())?;
    }
    Ok(made)
}
