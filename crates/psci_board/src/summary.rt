//! What is kept of a board text while it is read, however long the text is.

use crate::draft::{MOST_CHILDREN, MOST_CORES, MOST_RANGES};
use crate::tree_text::AddressRange;
use arrayvec::ArrayVec;
use std::marker::Model;

/// The numbers of a tree, as far as a board may have them.
#[derive(Drop)]
pub struct NumbersSummary {
    /// The first 256, each above 16 as 17.
    first: ArrayVec<u16, MOST_CORES>,
    /// Their sum, or 257.
    total: u64,
    /// One is 0 or above 16.
    bad_width: bool,
}

impl Model for NumbersSummary {
    ghost use Rattle.psci_board.specs.Summary.{NumbersSummaryValue};

    ghost Value = { NumbersSummaryValue };

    ghost view = { λ s. record {
      first = s.first.items;
      total = s.total;
      bad_width = s.bad_width;
    } };
}

ghost use Rattle.std.specs.Prelude.{◌&&◌, ◌++◌, ◌||◌, ◌∷◌, ◌≡◌, ◌≤◌, [], false, length, List, min};
ghost use Rattle.std.specs.Prelude.{nat_le, nat_lt, take, true, ℕ};
ghost use Rattle.psci_board.specs.Grammar.Member.{Cluster};
ghost use Rattle.psci_board.specs.Verdict.{is_out_of_width};
ghost use Rattle.psci_board.specs.Summary.{no_members, no_numbers, no_ranges, TreeSummaryValue};
ghost use Rattle.psci_board.specs.Summary.{with_member, with_number, with_range, with_size};

impl NumbersSummary {
    /// No number so far.
    pub fn new() -> NumbersSummary
        ensures { result ≡ no_numbers }
    {
        NumbersSummary {
            first: ArrayVec::new(),
            total: 0,
            bad_width: false,
        }
    }

    /// Takes the next number.
    pub fn add(&mut self, number: u64)
        ensures { self.new ≡ with_number self.old number }
    {
        keep(&mut self.first, number.min(MOST_CHILDREN as u64 + 1) as u16);
        self.total = self.total.saturating_add(number).min(MOST_CORES as u64 + 1);
        self.bad_width = self.bad_width || is_out_of_width(number);
    }
}

/// Whether no node has so many children.
fn is_out_of_width(number: u64) -> bool
    ensures { result ≡ is_out_of_width number }
{
    number == 0 || number > MOST_CHILDREN as u64
}

/// Keeps an item, if there is room.
fn keep<T: Copy, const N: usize>(kept: &mut ArrayVec<T, N>, item: T)
    ensures { kept.new.items ≡ take N (kept.old.items ++ item ∷ []) }
{
    if !kept.is_full() {
        kept.push(item);
    }
}

/// The tree, as far as a board may have it.
#[derive(Drop)]
pub struct TreeSummary {
    /// The numbers, in lists and beside them.
    pub numbers: NumbersSummary,
    /// How many numbers each of the first 16 members has, above 16 as 17.
    sizes: ArrayVec<u16, MOST_CHILDREN>,
    /// There are more than 16 members, or one is a list of more than 16.
    bad_width: bool,
    /// A member is a number.
    has_cluster: bool,
    /// A member is a list.
    has_group: bool,
}

impl Model for TreeSummary {
    ghost use Rattle.psci_board.specs.Summary.{TreeSummaryValue};

    ghost Value = { TreeSummaryValue };

    ghost view = { λ s. record {
      numbers = s.numbers;
      sizes = s.sizes.items;
      bad_width = s.bad_width;
      has_cluster = s.has_cluster;
      has_group = s.has_group;
    } };
}

impl TreeSummary {
    /// No member of the outer list so far.
    pub fn new() -> TreeSummary
        ensures { result ≡ no_members }
    {
        TreeSummary {
            numbers: NumbersSummary::new(),
            sizes: ArrayVec::new(),
            bad_width: false,
            has_cluster: false,
            has_group: false,
        }
    }

    /// Takes a member that is a number.
    #[tactic(auto, unfolding(crate::specs::Summary::with_numbers))]
    pub fn add_cluster(&mut self, number: u64)
        ensures { self.new ≡ with_member self.old (Cluster number) }
    {
        self.numbers.add(number);
        self.add_size(1);
        self.has_cluster = true;
    }

    /// Takes the length of a member that is a list, whose numbers were taken.
    pub fn add_group(&mut self, count: usize)
        ensures { self.new ≡ record (with_size self.old count) { has_group = true } }
    {
        self.add_size(count);
        self.has_group = true;
    }

    /// Whether numbers and lists stand side by side.
    pub fn is_uneven(&self) -> bool
        ensures { result ≡ self.now.has_group && self.now.has_cluster }
    {
        self.has_group && self.has_cluster
    }

    /// Whether a node would have no child or more than 16.
    pub fn is_too_wide(&self) -> bool
        ensures { result ≡ self.now.numbers.bad_width || self.now.bad_width }
    {
        self.numbers.bad_width || self.bad_width
    }

    /// How many cores there are, or 257.
    pub fn cores(&self) -> u64
        ensures { result ≡ self.now.numbers.total }
    {
        self.numbers.total
    }

    /// The first numbers, each above 16 as 17: how many cores each cluster has.
    pub fn clusters(&self) -> &[u16]
        ensures { result.now ≡ self.now.numbers.first }
    {
        self.numbers.first.as_slice()
    }

    /// How many numbers each of the first members has, above 16 as 17.
    pub fn sizes(&self) -> &[u16]
        ensures sizes { result.now ≡ self.now.sizes }
        ensures few { length result.now ≤ MOST_CHILDREN }
    {
        self.sizes.as_slice()
    }

    /// Whether members are lists.
    pub fn has_group(&self) -> bool
        ensures { result ≡ self.now.has_group }
    {
        self.has_group
    }

    /// Whether the tree is a list.
    pub fn is_list(&self) -> bool
        ensures { result ≡ self.now.has_group || self.now.has_cluster }
    {
        self.has_group || self.has_cluster
    }

    /// Takes how many numbers the next member has.
    fn add_size(&mut self, size: usize)
        ensures { self.new ≡ with_size self.old size }
    {
        let size = size as u64;
        self.bad_width = self.bad_width || self.sizes.is_full() || is_out_of_width(size);
        keep(&mut self.sizes, size.min(MOST_CHILDREN as u64 + 1) as u16);
    }
}

/// The ranges, as far as a board may have them.
#[derive(Drop)]
pub struct RangesSummary {
    /// The first four.
    first: ArrayVec<AddressRange, MOST_RANGES>,
    /// There are more than four, or one holds no address.
    faulty: bool,
}

impl Model for RangesSummary {
    ghost use Rattle.psci_board.specs.Summary.{RangesSummaryValue};

    ghost Value = { RangesSummaryValue };

    ghost view = { λ s. record { first = s.first.items; faulty = s.faulty } };
}

impl RangesSummary {
    /// No range so far.
    pub fn new() -> RangesSummary
        ensures { result ≡ no_ranges }
    {
        RangesSummary {
            first: ArrayVec::new(),
            faulty: false,
        }
    }

    /// Takes the next range.
    pub fn add(&mut self, range: AddressRange)
        ensures { self.new ≡ with_range self.old range }
    {
        self.faulty = self.faulty || self.first.is_full() || range.end <= range.start;
        keep(&mut self.first, range);
    }

    /// Whether there are more than four, or one holds no address.
    pub fn is_faulty(&self) -> bool
        ensures { result ≡ self.now.faulty }
    {
        self.faulty
    }

    /// The first four.
    pub fn first(&self) -> &[AddressRange]
        ensures { result.now ≡ self.now.first }
    {
        self.first.as_slice()
    }
}
