//! Words, as they are loaded into a power controller.

ghost use Rattle.std.specs.Prelude.{◌++◌, ◌+◌, ◌/◌, ◌<◌, ◌^◌, ◌≡◌, ◌≤◌, [], drop, flat_map, IfOk};
ghost use Rattle.std.specs.Prelude.{length, List, map, MatchResult, None, OnErr, slice_index};
ghost use Rattle.std.specs.Prelude.{slice_index_or, slice_set, Some, sum, take, ℕ};
ghost use Rattle.std.specs.List.{All, sum_by};
ghost use Rattle.psci_board.specs.Board.{BoardValue, HasNode, IsBoard, cores, height, nodes};
ghost use Rattle.psci_ctl_spec.specs.Values.{starts_below};
ghost use Rattle.psci_ctl.specs.Rows.{AreRows, HasRows, HasSums, core_row, off_domain};
ghost use Rattle.psci_ctl.specs.Saved.{core_of, depths, level_sizes, life_of, row_words, saved};
ghost use Rattle.psci_ctl.specs.Saved.{saved_fault};
ghost use Rattle.psci_ctl.specs.Seen.{ControllerValue, IsController, seen};

use crate::checking::{HEADING, check, row_count};
use crate::controller::Controller;
use crate::fault::SavedFault;
use crate::level::{DomainRow, Level};
use crate::row::CoreRow;
use psci_board::{Board, CoreSpan, Node, law_paths, law_sizes, law_spans};

impl Controller {
    /// How many words are saved.
    pub fn saved_count(&self) -> usize
        ensures count { result ≡ length (saved self.now) }
        ensures few { result ≤ 2 ^ 51 }
    {
        HEADING + row_count(&self.board)
    }

    /// Keeps from now on what was saved of a power controller of the same board: it is as that one
    /// was. Other words are refused by their first fault, in the order of `SavedFault`.
    pub fn load(&mut self, words: &[u64]) -> Result<(), SavedFault>
        ensures fault { let fault = saved_fault self.old.board words.now in
            MatchResult result (λ _. fault ≡ None) (λ e. fault ≡ Some e) }
        ensures loaded { IfOk result (λ _. saved self.new ≡ words.now) }
        ensures board { self.new.board ≡ self.old.board }
        ensures kept { IsController self.new }
        ensures refused { OnErr result (self.new ≡ self.old) }
    {
        check(&self.board, words)?;
        self.life = life_of(words[2]);
        let (own, depths) = words[HEADING..].split_at(self.board.cores() as usize);
        load_cores(&mut self.cores, own);
        load_domains(&mut self.domains, &self.board, &self.cores, depths);
        Ok(())
    }
}

/// The life of this word.
fn life_of(word: u64) -> Option<u32>
    requires { word < 2 ^ 32 }
    ensures { result ≡ life_of word }
{
    if word == 0 { None } else { Some(word as u32) }
}

/// Keeps the rows of these words.
fn load_cores(rows: &mut [CoreRow], words: &[u64])
    requires count { length rows.old ≡ length words.now }
    requires few { All (λ w. w / 4 < 2 ^ 32) words.now }
    ensures { rows.new ≡ map core_of words.now }
{
    for core in 0..words.len() {
        rows[core] = CoreRow::of_word(words[core]);
    }
}

/// Keeps these depths, level by level, and with each the sum of the starts of the cores below.
fn load_domains(levels: &mut [Level], board: &Board, rows: &[CoreRow], words: &[u64])
    requires cores { length rows.now ≡ cores board.now }
    requires shape { HasRows board.now levels.old }
    requires count { length words.now ≡ sum (level_sizes board.now.levels) }
    requires few { All (λ d. d ≤ 3) words.now }
    ensures shape { HasRows board.now levels.new }
    ensures sums { HasSums board.now rows.now levels.new }
    ensures depths { flat_map depths levels.new ≡ words.now }
{
    law_paths();
    let mut rest = words;
    for level in 0..board.height() + 1 {
        let (these, others) = rest.split_at(board.nodes(level) as usize);
        levels[level as usize].load(board, level, rows, these);
        rest = others;
    }
}

/// Keeps these depths in the rows of a level, and with each the sum of the starts below.
pub fn load_rows(
    domains: &mut [DomainRow],
    board: &Board,
    level: u32,
    rows: &[CoreRow],
    words: &[u64],
)
    requires board { IsBoard board.now }
    requires cores { length rows.now ≡ cores board.now }
    requires level { level ≤ height board.now }
    requires count { length domains.old ≡ nodes board.now level }
    requires words { length words.now ≡ nodes board.now level }
    requires few { All (λ d. d ≤ 3) words.now }
    ensures depths { depths domains.new ≡ words.now }
    ensures sums { (place : ℕ) → place < nodes board.now level
        → (slice_index_or domains.new place off_domain).starts
        ≡ starts_below board.now (λ c. (core_row rows.now c).starts)
        (record { level = level; place = place }) }
{
    for place in 0..board.nodes(level) {
        domains[place as usize] = DomainRow {
            depth: words[place as usize] as u8,
            starts: starts_below(board, rows, Node { level, place }),
        };
    }
}

/// The sum of the starts of the cores below a domain.
fn starts_below(board: &Board, rows: &[CoreRow], node: Node) -> u64
    requires board { IsBoard board.now }
    requires cores { length rows.now ≡ cores board.now }
    requires node { HasNode board.now node }
    ensures { result ≡ starts_below board.now (λ c. (core_row rows.now c).starts) node }
{
    law_spans();
    match board.cores_below(node) {
        Some(span) => starts_in(rows, span),
        None => 0,
    }
}

/// The sum of the starts of these cores.
fn starts_in(rows: &[CoreRow], span: CoreSpan) -> u64
    requires { span.first + span.count ≤ length rows.now }
    ensures { result
        ≡ sum_by (λ row. row.starts) (take span.count (drop span.first rows.now)) }
{
    let first = span.first as usize;
    let mut sum: u64 = 0;
    for row in &rows[first..first + span.count as usize] {
        sum += u64::from(row.starts);
    }
    sum
}

/// What is saved says all that is seen, and words that were saved have no fault. So where they are
/// loaded, the power controller answers as the saved one would. And no two lists of words without a
/// fault differ in one word alone.
pub fn law_saved()
    ensures same { (c d : ControllerValue) → IsController c → IsController d
        → c.board ≡ d.board → saved c ≡ saved d → seen c ≡ seen d }
    ensures whole { (c : ControllerValue) → IsController c → saved_fault c.board (saved c) ≡ None }
    ensures told { (b : BoardValue) (words : List ℕ) (place word : ℕ)
        → All (λ w. w < 2 ^ 64) words → place < length words → word < 2 ^ 64
        → saved_fault b words ≡ None → saved_fault b (slice_set words place word) ≡ None
        → word ≡ slice_index_or words place 0 }
{
    law_sizes();
}
