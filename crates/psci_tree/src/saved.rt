//! A tree saved and loaded: the methods that write its words and read them.

ghost use Rattle.std.specs.Prelude.{◌≡◌, ◌≤◌, ◌+◌, ◌*◌, ◌^◌, ◌++◌, true, drop, flat_map, length};
ghost use Rattle.std.specs.Prelude.{sum, take};
ghost use Rattle.psci_board.specs.Board.{size_below};
ghost use Rattle.psci_tree.specs.Recount.{IsDomainTree, level_sizes};
ghost use Rattle.psci_tree.specs.Saved.{AreCounted, KeepsDepths, are_cores, are_depths, core_words};
ghost use Rattle.psci_tree.specs.Saved.{depth_words, domain_count, with_depths};

use crate::depths::Which;
use crate::loading::{load_cores, load_rows};
use crate::saving::{save_cores, save_rows};
use crate::tree::Tree;
use crate::tree_words::are_depths;
use psci_board::{Board, law_sizes};

impl Tree {
    /// How many cores there are.
    pub fn core_count(&self) -> u16
        ensures count { result ≡ size_below self.now.levels }
        ensures tree { IsDomainTree self.now }
    {
        self.board.cores()
    }

    /// How many domains there are, of all levels.
    pub fn domain_count(&self) -> usize
        ensures count { result ≡ domain_count self.now.levels }
        ensures few { result ≤ 2 ^ 18 }
    {
        self.domains_below(self.height() + 1)
    }

    /// The level of the system.
    pub(crate) fn height(&self) -> u32
        ensures height { result ≡ length self.now.levels }
        ensures tree { IsDomainTree self.now }
    {
        self.board.height()
    }

    /// How many domains are below a level.
    pub(crate) fn domains_below(&self, level: u32) -> usize
        requires { level ≤ length self.now.levels + 1 }
        ensures count { result ≡ sum (take level (level_sizes self.now.levels)) }
        ensures few { result ≤ 2 ^ 18 }
    {
        count_below(&self.board, level)
    }

    /// Writes what each core does and its known start, from this place on: two words for each core.
    pub fn save_cores(&self, words: &mut [u64], start: usize)
        requires { start + 2 * size_below self.now.levels ≤ length words.old }
        ensures words { take (start + 2 * size_below self.now.levels) words.new
            ≡ take start words.old ++ flat_map core_words self.now.cores }
        ensures small { AreCounted self.now.cores }
        ensures tree { IsDomainTree self.now }
    {
        save_cores(&self.cores, words, start);
    }

    /// Puts each core into the state that was saved of it. What was granted and confirmed stays.
    pub fn load_cores(&mut self, words: &[u64])
        requires count { length words.now ≡ 2 * size_below self.old.levels }
        requires cores { are_cores words.now ≡ true }
        ensures words { flat_map core_words self.new.cores ≡ words.now }
        ensures rest { KeepsDepths self.old self.new }
    {
        load_cores(self, words);
    }

    /// Writes the granted depth of each domain, from this place on, and then what is confirmed of
    /// each: two words for each domain.
    #[tactic(auto, unfolding(crate::specs::Saved::depth_words))]
    pub fn save_depths(&self, words: &mut [u64], start: usize)
        requires { start + 2 * domain_count self.now.levels ≤ length words.old }
        ensures { take (start + 2 * domain_count self.now.levels) words.new
            ≡ take start words.old ++ depth_words self.now }
    {
        save_rows(&self.depths, Which::Granted, words, start);
        save_rows(
            &self.depths,
            Which::Confirmed,
            words,
            start + self.domain_count(),
        );
    }

    /// Whether these are the words of the depths of its domains: no domain on the path of a core is
    /// granted more than the one below it, nor confirmed at a depth above the granted one.
    pub fn are_depths(&self, words: &[u64]) -> bool
        ensures { result ≡ are_depths self.now.levels words.now }
    {
        are_depths(self, words)
    }

    /// Grants and confirms what was saved of each domain. The cores stay as they are.
    pub fn load_depths(&mut self, words: &[u64])
        requires { are_depths self.old.levels words.now ≡ true }
        ensures words { depth_words self.new ≡ words.now }
        ensures value { let n = domain_count self.old.levels in
            self.new ≡ with_depths self.old (take n words.now) (drop n words.now) }
        ensures tree { IsDomainTree self.new }
    {
        let (granted, confirmed) = words.split_at(self.domain_count());
        load_rows(&mut self.depths, granted, confirmed);
    }
}

/// How many power domains a board has below a level.
fn count_below(board: &Board, end: u32) -> usize
    requires { end ≤ length board.now.levels + 1 }
    ensures count { result ≡ sum (take end (level_sizes board.now.levels)) }
    ensures few { result ≤ 2 ^ 18 }
{
    law_sizes();
    let _height = board.height();
    let mut count = 0;
    for level in 0..end {
        count += board.nodes(level) as usize;
    }
    count
}
