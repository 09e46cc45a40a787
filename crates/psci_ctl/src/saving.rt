//! A power controller as words.

ghost use Rattle.std.specs.Prelude.{◌≡◌, ◌≤◌, ◌+◌, ◌++◌, ◌∷◌, flat_map, length, map, take};
ghost use Rattle.psci_ctl.specs.Saved.{core_word, depths, life_word, row_words, saved, saved_rows};
ghost use Rattle.psci_ctl.specs.Saved.{sum_from};
ghost use Rattle.psci_ctl.specs.Seen.{IsController};

use crate::checking::HEADING;
use crate::controller::Controller;
use crate::level::Level;
use crate::row::CoreRow;

/// The first word: the format's letters, `pctl`, and its version, 1.
pub const FORMAT: u64 = 0x1_6c74_6370;

/// What the sum so far is multiplied by, odd: so no other word in one place leaves the sum as it
/// is, as `law_saved` says.
pub const FACTOR: u64 = 0x100_0000_01b3;

impl Controller {
    /// Writes what is kept into words, of which there are as many as `saved_count` says.
    #[tactic(auto, unfolding(crate::specs::Saved::saved))]
    pub fn save(&self, words: &mut [u64])
        requires { length words.old ≡ length (saved self.now) }
        ensures words { words.new ≡ saved self.now }
        ensures kept { IsController self.now }
    {
        let life = u64::from(self.life.unwrap_or(0));
        save(life, &self.cores, &self.domains, words);
    }
}

/// Writes the format, the sum, the life and the rows.
fn save(life: u64, cores: &[CoreRow], levels: &[Level], words: &mut [u64])
    requires { length words.old ≡ 3 + length (row_words cores.now levels.now) }
    ensures { words.new ≡ saved_rows life cores.now levels.now }
{
    words[0] = FORMAT;
    words[1] = 0;
    words[2] = life;
    save_cores(cores, words);
    save_domains(levels, words, HEADING + cores.len());
    words[1] = sum_of(&words[2..]);
}

/// Writes a word for each core, behind the heading.
fn save_cores(rows: &[CoreRow], words: &mut [u64])
    requires { 3 + length rows.now ≤ length words.old }
    ensures { take (3 + length rows.now) words.new
        ≡ take 3 words.old ++ map core_word rows.now }
{
    for core in 0..rows.len() {
        words[HEADING + core] = rows[core].word();
    }
}

/// Writes the depth of each domain, from this place on.
fn save_domains(levels: &[Level], words: &mut [u64], start: usize)
    requires { start + length (flat_map depths levels.now) ≤ length words.old }
    ensures { take (start + length (flat_map depths levels.now)) words.new
        ≡ take start words.old ++ flat_map depths levels.now }
{
    let mut next = start;
    for level in levels {
        level.save(words, next);
        next += level.count();
    }
}

/// The sum of words, in which each counts by its place.
pub fn sum_of(words: &[u64]) -> u64
    ensures { result ≡ sum_from 0 words.now }
{
    let mut sum: u64 = 0;
    for word in words {
        sum = sum.wrapping_mul(FACTOR).wrapping_add(*word);
    }
    sum
}
