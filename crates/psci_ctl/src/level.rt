//! What the power controller keeps of the power domains of one level.

use crate::loading::load_rows;
use crate::row::CoreRow;
use psci_board::{Board, Memory};
use psci_state::POWER_DOWN;
use std::alloc::Global;
use std::marker::Model;

/// What the power controller keeps of one power domain.
#[derive(Clone, Copy)]
pub struct DomainRow {
    /// How deep it is: 0 fully on, 1 standby, 2 retention, 3 power-down.
    pub depth: u8,
    /// The sum of the starts of the cores below it.
    pub starts: u64,
}

impl DomainRow {
    /// The row of a domain that is powered down, below which no core was started.
    pub const OFF: DomainRow = DomainRow {
        depth: POWER_DOWN,
        starts: 0,
    };
}

/// The power domains of one level, by their places.
#[derive(Drop)]
pub struct Level {
    rows: Vec<DomainRow>,
}

impl Model for Level {
    ghost use Rattle.std.specs.Prelude.{List};
    ghost use Rattle.psci_ctl.specs.declared.level.DomainRow.{DomainRow};

    ghost Value = { List DomainRow };

    ghost view = { λ l. l.rows.items };
}

ghost use Rattle.std.specs.Prelude.{◌++◌, ◌+◌, ◌<◌, ◌≡◌, ◌≤◌, drop, IfOk, length, nat_le};
ghost use Rattle.std.specs.Prelude.{replicate, slice_index_or, slice_set, take, ℕ};
ghost use Rattle.std.specs.List.{All, list_all};
ghost use Rattle.psci_board.specs.Board.{IsBoard, cores, height, nodes};
ghost use Rattle.psci_ctl_spec.specs.Values.{starts_below};
ghost use Rattle.psci_ctl.specs.Rows.{core_row, off_domain};
ghost use Rattle.psci_ctl.specs.Saved.{depths};

impl Level {
    /// A level of so many domains, all of them powered down.
    pub fn new(alloc: Global, count: u16) -> Result<Level, Memory>
        ensures { IfOk result (λ level. length level ≡ count) }
    {
        let mut rows = Vec::with_capacity(alloc, count as usize)?;
        for _place in 0..count {
            rows.push(DomainRow::OFF)?;
        }
        Ok(Level { rows })
    }

    /// What is kept of the domain at `place`; of one that is not there, that it is powered down.
    pub fn row(&self, place: u16) -> DomainRow
        ensures { result ≡ slice_index_or self.now place off_domain }
    {
        self.rows
            .get(place as usize)
            .copied()
            .unwrap_or(DomainRow::OFF)
    }

    /// Whether the domains from `first` on, so many, are each at least as deep as this.
    pub fn are_deep(&self, first: u16, count: u32, depth: u8) -> bool
        requires { first + count ≤ length self.now }
        ensures { result ≡ list_all (λ row. nat_le depth row.depth)
            (take count (drop first self.now)) }
    {
        let first = first as usize;
        let rows = &self.rows[first..first + count as usize];
        rows.iter().all(|row| row.depth >= depth)
    }

    /// Keeps this of the domain at `place`.
    pub fn set_row(&mut self, place: u16, row: DomainRow)
        requires { place < length self.old }
        ensures { self.new ≡ slice_set self.old place row }
    {
        self.rows[place as usize] = row;
    }

    /// Keeps these depths, and with each the sum of the starts of the cores below.
    pub fn load(&mut self, board: &Board, level: u32, rows: &[CoreRow], words: &[u64])
        requires board { IsBoard board.now }
        requires cores { length rows.now ≡ cores board.now }
        requires level { level ≤ height board.now }
        requires count { length self.old ≡ nodes board.now level }
        requires words { length words.now ≡ nodes board.now level }
        requires few { All (λ d. d ≤ 3) words.now }
        ensures depths { depths self.new ≡ words.now }
        ensures sums { (place : ℕ) → place < nodes board.now level
            → (slice_index_or self.new place off_domain).starts
            ≡ starts_below board.now (λ c. (core_row rows.now c).starts)
            (record { level = level; place = place }) }
    {
        load_rows(&mut self.rows, board, level, rows, words);
    }

    /// How many domains there are.
    pub fn count(&self) -> usize
        ensures { result ≡ length self.now }
    {
        self.rows.len()
    }

    /// Writes the depth of each domain, from this place on.
    pub fn save(&self, words: &mut [u64], start: usize)
        requires { start + length self.now ≤ length words.old }
        ensures { take (start + length self.now) words.new
            ≡ take start words.old ++ depths self.now }
    {
        save_depths(&self.rows, words, start);
    }

    /// Powers all domains down, and forgets all starts.
    pub fn turn_off(&mut self)
        ensures { self.new ≡ replicate (length self.old) off_domain }
    {
        self.rows.fill(DomainRow::OFF);
    }
}

/// Writes the depth of each domain, from this place on.
fn save_depths(rows: &[DomainRow], words: &mut [u64], start: usize)
    requires { start + length rows.now ≤ length words.old }
    ensures { take (start + length rows.now) words.new ≡ take start words.old ++ depths rows.now }
{
    for place in 0..rows.len() {
        words[start + place] = u64::from(rows[place].depth);
    }
}
