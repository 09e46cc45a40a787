//! A tree as words: its cores, and the depths of its power domains.

ghost use Rattle.std.specs.Prelude.{◌≡◌, ◌≤◌, ◌+◌, ◌*◌, ◌++◌, flat_map, length, map, take};
ghost use Rattle.psci_tree.specs.DepthRows.{depth_of, read};
ghost use Rattle.psci_tree.specs.Saved.{AreCounted, activity_word, core_words};

use crate::depths::{Depths, Which};
use psci_board::Format;
use psci_state::{Activity, CoreState};

/// How many words a core has: what it does, and its known start.
pub const CORE_WORDS: usize = 2;

/// What a core does that is off: beyond each word of a power state.
pub const AWAY: u64 = 1 << 32;

/// Writes what these cores do and their known starts, from this place on.
pub fn save_cores(cores: &[CoreState], words: &mut [u64], start: usize)
    requires { start + 2 * length cores.now ≤ length words.old }
    ensures words { take (start + 2 * length cores.now) words.new
        ≡ take start words.old ++ flat_map core_words cores.now }
    ensures small { AreCounted cores.now }
{
    for core in 0..cores.len() {
        let place = start + CORE_WORDS * core;
        words[place] = activity_word(cores[core].activity);
        words[place + 1] = u64::from(cores[core].known);
    }
}

/// What a core does, as a word.
fn activity_word(activity: Activity) -> u64
    ensures { result ≡ activity_word activity }
{
    match activity {
        Activity::Active => 0,
        Activity::Suspended(ask) => u64::from(ask.word(Format::Extended)),
        Activity::Away => AWAY,
    }
}

/// Writes one of the depths of each domain, from this place on.
pub fn save_rows(rows: &[Vec<Depths>], which: Which, words: &mut [u64], start: usize)
    requires { start + length (flat_map (λ row. row) (read which (map (λ v. v.items) rows.now)))
        ≤ length words.old }
    ensures { take (start + length (flat_map (λ row. row)
        (read which (map (λ v. v.items) rows.now)))) words.new ≡ take start words.old
        ++ flat_map (λ row. row) (read which (map (λ v. v.items) rows.now)) }
{
    let mut next = start;
    for level in 0..rows.len() {
        let row = &rows[level];
        save_row(row, which, words, next);
        next += row.len();
    }
}

/// The same of the domains of one level.
fn save_row(row: &[Depths], which: Which, words: &mut [u64], start: usize)
    requires { start + length row.now ≤ length words.old }
    ensures { take (start + length row.now) words.new
        ≡ take start words.old ++ map (depth_of which) row.now }
{
    for place in 0..row.len() {
        words[start + place] = u64::from(row[place].get(which));
    }
}
