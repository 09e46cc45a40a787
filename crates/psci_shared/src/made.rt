//! How many passes were made.

use crate::entry::Item;
use crate::named::Named;
use crate::pass::PassOf;
use std::marker::{Model, Sync};
use std::sync::ledger::Share;

/// How many passes are made of what one lock guards.
pub const MOST_PASSES: u32 = 1000;

/// How many passes were made of what one lock guards, with the parts of its ledger that no pass
/// has. The ledger has 1,001 parts: one for each pass, and one that is no pass's. It stands beside
/// the lock, so that it is known as well while nobody holds the lock.
#[derive(Drop)]
pub struct Made<N: Named> {
    count: u32,
    pub(crate) rest: Share<N>,
}

impl<N: Named> Model for Made<N> {
    ghost use Rattle.std.specs.Prelude.{◌≡◌, ◌≤◌, ◌+◌, ℕ};

    ghost Value = { ℕ };

    ghost view = { λ m. m.count };

    ghost invariant = { λ m.
        (m.count ≤ 1000) × (m.rest.parts + m.count ≡ 1001) × (m.rest.amount ≡ 0)
        × (N.parts ≡ 1001) };
}

// By a `&` to it the count is read, and nothing of the ledger.
unsafe impl<N: Named> Sync for Made<N> {}

ghost use Rattle.std.specs.Prelude.{◌≡◌, ◌≤◌, ◌<◌, ◌+◌, [], vec_capacity};
ghost use Rattle.psci_shared.specs.Places.{first};

impl<N: Named> Made<N> {
    /// No pass was made: all parts of the ledger are here, and nothing is counted in it.
    pub(crate) fn of(rest: Share<N>) -> Made<N>
        requires parts { (rest.parts ≡ N.parts) × (N.parts ≡ 1001) }
        requires none { rest.amount ≡ 0 }
        ensures { result ≡ 0 }
    {
        Made { count: 0, rest }
    }

    /// How many they are.
    pub fn count(&self) -> u32
        ensures count { result ≡ self.now }
        ensures few { self.now ≤ 1000 }
    {
        self.count
    }

    /// A pass that was not called by yet, with a part of the ledger.
    pub fn pass<W: Drop, S: Drop, C: Drop, R: Drop>(
        &mut self,
        core: W,
        room: u32,
        items: Vec<Item<C, R>>,
        seen: S,
    ) -> PassOf<N, W, S, C, R>
        requires few { self.old < 1000 }
        requires items { (items.items ≡ []) × (room ≤ vec_capacity items) }
        requires room { room ≡ N.room }
        ensures pass { result ≡ first core room seen }
        ensures made { self.new ≡ self.old + 1 }
    {
        let share = self.rest.split_off(1, 0);
        self.count += 1;
        PassOf::of(core, room, items, share, seen)
    }
}
