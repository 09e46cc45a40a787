//! Words, as they are loaded into a tree: its cores, and the depths of its power domains.

ghost use Rattle.std.specs.Prelude.{◌≡◌, ◌*◌, ◌≤◌, ◌<◌, ℕ, Some, true, flat_map, length, map, sum};
ghost use Rattle.std.specs.List.{All};
ghost use Rattle.psci_board.specs.Board.{size_below};
ghost use Rattle.psci_state.specs.declared.cores.Activity.{Activity};
ghost use Rattle.psci_tree.specs.DepthRows.{confirmed_of, granted_of};
ghost use Rattle.psci_tree.specs.Recount.{IsActivity};
ghost use Rattle.psci_tree.specs.Saved.{activity_of, activity_word, are_cores, core_words};
ghost use Rattle.psci_tree.specs.Saved.{KeepsDepths, rows_of};

use crate::depths::Depths;
use crate::saving::AWAY;
use crate::tree::Tree;
use psci_board::{Core, Format};
use psci_state::{Activity, Ask};

/// The height of the highest board, of which each ask can be.
const HIGHEST: u32 = 3;

/// Puts each core into the state that was saved of it.
pub fn load_cores(tree: &mut Tree, words: &[u64])
    requires count { length words.now ≡ 2 * size_below tree.old.levels }
    requires cores { are_cores words.now ≡ true }
    ensures words { flat_map core_words tree.new.cores ≡ words.now }
    ensures rest { KeepsDepths tree.old tree.new }
{
    let mut rest = words;
    for number in 0..tree.core_count() {
        let [word, known, others @ ..] = rest else {
            return;
        };
        let Some(activity) = activity_of(*word) else {
            return;
        };
        tree.set_core(Core { number }, activity, Some(*known as u32));
        rest = others;
    }
}

/// What a core does of which this is the word, if it is one's.
pub fn activity_of(word: u64) -> Option<Activity>
    ensures value { result ≡ activity_of word }
    ensures word { (a : Activity) → result ≡ Some a → activity_word a ≡ word }
    ensures activity { (a : Activity) → result ≡ Some a → IsActivity a }
{
    if word == 0 {
        return Some(Activity::Active);
    }
    if word == AWAY {
        return Some(Activity::Away);
    }
    if word > AWAY {
        return None;
    }
    match Ask::read(word as u32, Format::Extended, HIGHEST) {
        Ok(ask) => Some(Activity::Suspended(ask)),
        Err(_) => None,
    }
}

/// Writes these depths to the domains, level by level.
pub fn load_rows(rows: &mut [Vec<Depths>], granted: &[u64], confirmed: &[u64])
    requires granted { length granted.now ≡ sum (map length (map (λ v. v.items) rows.old)) }
    requires confirmed { length confirmed.now ≡ length granted.now }
    requires low { All (λ d. d ≤ 3) granted.now }
    requires sure { All (λ d. d ≤ 3) confirmed.now }
    ensures granted { granted_of (map (λ v. v.items) rows.new)
        ≡ rows_of (map length (map (λ v. v.items) rows.old)) granted.now }
    ensures confirmed { confirmed_of (map (λ v. v.items) rows.new)
        ≡ rows_of (map length (map (λ v. v.items) rows.old)) confirmed.now }
{
    let mut granted = granted;
    let mut confirmed = confirmed;
    for level in 0..rows.len() {
        let row = &mut rows[level];
        let (own, granted_above) = granted.split_at(row.len());
        let (sure, confirmed_above) = confirmed.split_at(row.len());
        load_row(row, own, sure);
        granted = granted_above;
        confirmed = confirmed_above;
    }
}

/// The same of the domains of one level.
fn load_row(row: &mut [Depths], granted: &[u64], confirmed: &[u64])
    requires granted { length granted.now ≡ length row.old }
    requires confirmed { length confirmed.now ≡ length row.old }
    requires low { All (λ d. d ≤ 3) granted.now }
    requires sure { All (λ d. d ≤ 3) confirmed.now }
    ensures granted { map (λ d. d.granted) row.new ≡ granted.now }
    ensures confirmed { map (λ d. d.confirmed) row.new ≡ confirmed.now }
{
    for place in 0..row.len() {
        row[place] = Depths {
            granted: granted[place] as u8,
            confirmed: confirmed[place] as u8,
        };
    }
}
