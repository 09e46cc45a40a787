//! The tree at the front of a board text.

ghost use Rattle.std.specs.Char.{is_ascii_digit, is_ascii_hexdigit};
ghost use Rattle.std.specs.Prelude.{◌≡◌, IfOk, IfSome, option_map};
ghost use Rattle.psci_board.specs.Board.{IsBoard, IsTree};
ghost use Rattle.psci_board.specs.Grammar.{hex_at, hex_value, literal_at, number_at, spaced_at};
ghost use Rattle.psci_board.specs.Summary.{no_ranges, ranges_at, tree_summary, value_and_rest};
ghost use Rattle.psci_board.specs.Summary.{with_member, with_members, with_numbers, with_ranges};
ghost use Rattle.psci_board.specs.SummaryVerdict.{draft_of, summary_board, summary_levels};
ghost use Rattle.psci_board.specs.SummaryVerdict.{text_summary};
ghost use Rattle.psci_board.specs.Verdict.{Answers, board_of, board_text, bytes_after};
ghost use Rattle.psci_board.specs.Verdict.{count_and_rest, format_at, format_or_original, list_at};
ghost use Rattle.psci_board.specs.Verdict.{member_at, range_at, range_of, tree_at};

use crate::board::{Board, is_in_some};
use crate::digits::{decimal, hexadecimal};
use crate::draft::{BoardDraft, MOST_LEVELS};
use crate::fault::BoardFault;
use crate::level::Level;
use crate::memory::Memory;
use crate::summary::{NumbersSummary, RangesSummary, TreeSummary};
use psci_abi::Format;
use std::alloc::Global;

/// What is kept of the tree, and the text after it.
#[tactic(auto, unfolding(crate::specs::Verdict::tree_at))]
pub fn tree(text: &[u8]) -> Option<(TreeSummary, &[u8])>
    ensures { option_map (λ x. (x.0, x.1.now)) result
        ≡ option_map (value_and_rest tree_summary) (tree_at text.now) }
{
    let mut summary = TreeSummary::new();
    if let [b'(', ..] = text {
        let rest = members(text, &mut summary)?;
        Some((summary, rest))
    } else {
        let (number, rest) = number(text)?;
        summary.numbers.add(number);
        Some((summary, rest))
    }
}

/// The members between brackets, which `summary` takes, and the text after them.
fn members<'a>(text: &'a [u8], summary: &mut TreeSummary) -> Option<&'a [u8]>
    ensures read { option_map (λ rest. rest.now) result
        ≡ option_map bytes_after (list_at member_at text.now) }
    ensures summary { IfSome (list_at member_at text.now)
        (λ x. summary.new ≡ with_members summary.old x.0) }
{
    let mut rest = member(literal(text, b"(")?, summary)?;
    while let Some(after) = literal(rest, b" ") {
        rest = member(after, summary)?;
    }
    literal(rest, b")")
}

/// A member of the outer list, which `summary` takes, and the text after it.
#[tactic(auto, unfolding(crate::specs::Verdict::member_at, crate::specs::Summary::with_numbers))]
fn member<'a>(text: &'a [u8], summary: &mut TreeSummary) -> Option<&'a [u8]>
    ensures read { option_map (λ rest. rest.now) result
        ≡ option_map bytes_after (member_at text.now) }
    ensures summary { IfSome (member_at text.now) (λ x. summary.new ≡ with_member summary.old x.0) }
{
    if let [b'(', ..] = text {
        let (count, rest) = group(text, &mut summary.numbers)?;
        summary.add_group(count);
        Some(rest)
    } else {
        let (number, rest) = number(text)?;
        summary.add_cluster(number);
        Some(rest)
    }
}

/// The numbers between brackets, which `summary` takes, how many they are, and the text after
/// them.
#[tactic(auto, unfolding(crate::specs::Verdict::list_at))]
fn group<'a>(text: &'a [u8], summary: &mut NumbersSummary) -> Option<(usize, &'a [u8])>
    ensures read { option_map (λ x. (x.0, x.1.now)) result
        ≡ option_map count_and_rest (list_at number_at text.now) }
    ensures summary { IfSome (list_at number_at text.now)
        (λ x. summary.new ≡ with_numbers summary.old x.0) }
{
    let (first, mut rest) = number(literal(text, b"(")?)?;
    summary.add(first);
    let mut count: usize = 1;
    while let Some((number, after)) = spaced_number(rest) {
        summary.add(number);
        count += 1;
        rest = after;
    }
    Some((count, literal(rest, b")")?))
}

/// The number after a space, and the text after it.
#[tactic(auto, unfolding(crate::specs::Grammar::spaced_at))]
fn spaced_number(text: &[u8]) -> Option<(u64, &[u8])>
    ensures { option_map (λ x. (x.0, x.1.now)) result ≡ spaced_at number_at text.now }
{
    number(literal(text, b" ")?)
}

// Making the board of a text that has no fault.

/// The board of what was read, which has no fault.
pub fn build(alloc: Global, text: &TextSummary) -> Result<Board, Memory>
    requires { IsBoard (summary_board text.now) }
    ensures { IfOk result (λ b. b ≡ summary_board text.now) }
{
    let levels = levels(alloc, &text.tree)?;
    let ranges = Vec::from_slice(alloc, text.ranges.first())?;
    let (starts, lives) = (text.starts as u32, text.lives as u32);
    Ok(Board::new(levels, ranges, text.boot, starts, lives, text.format))
}

/// The levels of a tree, from 1 up.
fn levels(alloc: Global, tree: &TreeSummary) -> Result<Vec<Level>, Memory>
    requires { IsTree (summary_levels tree.now) }
    ensures { IfOk result (λ levels. levels.items ≡ summary_levels tree.now) }
{
    let mut levels = Vec::with_capacity(alloc, MOST_LEVELS)?;
    levels.push(Level::new(alloc, tree.clusters())?)?;
    if tree.has_group() {
        levels.push(Level::new(alloc, tree.sizes())?)?;
    }
    if tree.is_list() {
        let outer = [tree.sizes().len() as u16];
        levels.push(Level::new(alloc, &outer)?)?;
    }
    Ok(levels)
}

// The format at the end of a text.

/// The format that the last part of a text names, where nothing stands after it. A text without
/// this part has the original one.
pub fn format(text: &[u8]) -> Option<Format>
    ensures { result ≡ option_map format_or_original (format_at text.now) }
{
    if text.is_empty() || text == b" format original".as_slice() {
        Some(Format::Original)
    } else if text == b" format extended".as_slice() {
        Some(Format::Extended)
    } else {
        None
    }
}

// Executable memory.

/// The addresses from `start` on, before `end`.
#[derive(Clone, Copy, Debug, PartialEq, Eq, Default)]
pub struct AddressRange {
    /// The first address of the range.
    pub start: u64,
    /// The first address after it.
    pub end: u64,
}

// Address ranges at the front of a text.

/// What is kept of the ranges, each after a space, and the text after them.
#[tactic(auto, using(crate::proofs::Fronts::reading), unfolding(crate::proofs::Fronts::ranging))]
pub fn ranges(text: &[u8]) -> Option<(RangesSummary, &[u8])>
    ensures { option_map (λ x. (x.0, x.1.now)) result
        ≡ option_map (value_and_rest (with_ranges no_ranges)) (ranges_at text.now) }
{
    let (first, mut rest) = spaced_range(text)?;
    let mut summary = RangesSummary::new();
    summary.add(first);
    while let Some((range, after)) = spaced_range(rest) {
        summary.add(range);
        rest = after;
    }
    Some((summary, rest))
}

/// The range after a space, and the text after it.
#[tactic(auto, unfolding(crate::specs::Grammar::spaced_at))]
fn spaced_range(text: &[u8]) -> Option<(AddressRange, &[u8])>
    ensures { option_map (λ x. (x.0, x.1.now)) result
        ≡ option_map (value_and_rest range_of) (spaced_at range_at text.now) }
{
    range(literal(text, b" ")?)
}

/// The range at the front, and the text after it.
#[tactic(auto, unfolding(crate::specs::Verdict::range_at))]
fn range(text: &[u8]) -> Option<(AddressRange, &[u8])>
    ensures { option_map (λ x. (x.0, x.1.now)) result
        ≡ option_map (value_and_rest range_of) (range_at text.now) }
{
    let (start, rest) = hex(text)?;
    let (end, rest) = hex(literal(rest, b"-")?)?;
    Some((AddressRange { start, end }, rest))
}

// Reading a board text.

impl Board {
    /// The board that a text of the grammar describes, or the first fault of the text. Faults of
    /// the text come before `Memory`: nothing is allocated before the text has none.
    pub fn read(alloc: Global, text: &str) -> Result<Board, BoardFault>
        ensures { Answers result (board_of text.now) }
    {
        Board::read_bytes(alloc, text.as_bytes())
    }

    /// The same of bytes, which are outside the grammar where they are no text.
    #[tactic(auto, using(crate::proofs::Decided::saying))]
    pub fn read_bytes(alloc: Global, text: &[u8]) -> Result<Board, BoardFault>
        ensures { Answers result (board_of text.now) }
    {
        let Some(text) = whole_text(text) else {
            return Err(BoardFault::Grammar);
        };
        match text.draft().first_fault() {
            Some(fault) => Err(fault),
            None => Ok(build(alloc, &text)?),
        }
    }
}

// A whole board text, as far as a board may have it.

/// What is kept of a board text.
#[derive(Drop)]
pub struct TextSummary {
    /// The tree.
    pub tree: TreeSummary,
    /// The executable ranges.
    pub ranges: RangesSummary,
    /// Where the boot core enters first.
    pub boot: u64,
    /// How often a core may be started in one life.
    pub starts: u64,
    /// How many lives there are.
    pub lives: u64,
    /// How power state words are written.
    pub format: Format,
}

/// What is kept of the text, where it is of the grammar.
#[tactic(auto, using(crate::proofs::Fronts::parts))]
pub fn whole_text(text: &[u8]) -> Option<TextSummary>
    ensures { result ≡ option_map text_summary (board_text text.now) }
{
    let (tree, rest) = tree(text)?;
    let (ranges, rest) = ranges(literal(rest, b" exec")?)?;
    let (boot, rest) = hex(literal(rest, b" boot ")?)?;
    let (starts, rest) = number(literal(rest, b" starts ")?)?;
    let (lives, rest) = number(literal(rest, b" lives ")?)?;
    let format = format(rest)?;
    Some(TextSummary {
        tree,
        ranges,
        boot,
        starts,
        lives,
        format,
    })
}

impl TextSummary {
    /// What decides whether the text has a board.
    pub fn draft(&self) -> BoardDraft
        ensures { result ≡ draft_of self.now }
    {
        let ranges = &self.ranges;
        BoardDraft {
            is_uneven: self.tree.is_uneven(),
            is_too_wide: self.tree.is_too_wide(),
            cores: self.tree.cores(),
            has_bad_range: ranges.is_faulty(),
            may_boot: self.boot % 4 == 0 && is_in_some(ranges.first(), self.boot),
            starts: self.starts,
            lives: self.lives,
        }
    }
}

// Words and numbers at the front of a text.

/// The text after `word`, where it begins with `word`. Upper and lower case differ.
#[tactic(auto, using(crate::proofs::SpelledParts::stripped))]
pub fn literal<'a>(text: &'a [u8], word: &[u8]) -> Option<&'a [u8]>
    ensures { option_map (λ rest. rest.now) result ≡ literal_at word.now text.now }
{
    text.strip_prefix(word)
}

/// The decimal number at the front, and the text after it. The number takes all digits that
/// stand there: it has no leading zero, unless it is 0 itself, and is below 2 to the 64.
#[tactic(auto, using(crate::proofs::Values::steps), unfolding(crate::specs::Grammar::number_at))]
pub fn number(text: &[u8]) -> Option<(u64, &[u8])>
    ensures { option_map (λ x. (x.0, x.1.now)) result ≡ number_at text.now }
{
    let (value, count) = decimal(text)?;
    if count == 0 || (count > 1 && text[0] == b'0') {
        return None;
    }
    Some((value, &text[count..]))
}

/// The hexadecimal number at the front, and the text after it. It begins with `0x`, and takes all
/// digits that stand there: 1 to 16, in upper or lower case.
#[tactic(auto, using(crate::proofs::Values::steps), unfolding(crate::specs::Grammar::hex_at))]
pub fn hex(text: &[u8]) -> Option<(u64, &[u8])>
    ensures { option_map (λ x. (x.0, x.1.now)) result
        ≡ option_map hex_value (hex_at text.now) }
{
    let text = literal(text, b"0x")?;
    let (value, count) = hexadecimal(text)?;
    if count == 0 {
        return None;
    }
    Some((value, &text[count..]))
}
