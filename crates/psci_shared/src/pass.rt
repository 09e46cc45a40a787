//! What one thread calls by.

use crate::entry::Item;
use crate::named::Named;
use std::marker::Model;
use std::sync::ledger::Share;

/// What a pass counts in the ledger that was told that the book is full, beside its items.
pub(crate) const TOLD: u64 = 1 << 48;

/// A pass for one core, or for none. It keeps what the thread asked and was answered, and what it
/// has seen.
#[derive(Drop)]
pub struct PassOf<N: Named, W, S, C, R> {
    pub(crate) core: W,
    pub(crate) room: u32,
    pub(crate) told_full: bool,
    pub(crate) items: Vec<Item<C, R>>,
    pub(crate) share: Share<N>,
    pub(crate) seen: S,
}

impl<N: Named, W, S, C, R> Model for PassOf<N, W, S, C, R> {
    ghost use Rattle.std.specs.Prelude.{◌≡◌, ◌≤◌, vec_len, vec_capacity};
    ghost use Rattle.psci_shared.specs.Places.{AnyPass, counted};

    ghost Value = { AnyPass W S C R };

    ghost view = { λ p. record {
      core = p.core;
      room = p.room;
      told_full = p.told_full;
      items = p.items.items;
      seen = p.seen;
    } };

    ghost invariant = { λ p.
        (p.share.parts ≡ 1) × (p.share.amount ≡ counted (vec_len p.items) p.told_full)
        × (vec_len p.items ≤ p.room) × (p.room ≤ vec_capacity p.items) × (p.room ≡ N.room) };
}

ghost use Rattle.std.specs.Prelude.{◌≡◌, ◌≤◌, [], length, vec_capacity};
ghost use Rattle.psci_shared.specs.Places.{counted, first};

impl<N: Named, W: Drop, S: Drop, C: Drop, R: Drop> PassOf<N, W, S, C, R> {
    /// A pass that was not called by yet.
    pub(crate) fn of(
        core: W,
        room: u32,
        items: Vec<Item<C, R>>,
        share: Share<N>,
        seen: S,
    ) -> PassOf<N, W, S, C, R>
        requires share { (share.parts ≡ 1) × (share.amount ≡ 0) }
        requires items { (items.items ≡ []) × (room ≤ vec_capacity items) }
        requires room { room ≡ N.room }
        ensures { result ≡ first core room seen }
    {
        PassOf {
            core,
            room,
            told_full: false,
            items,
            share,
            seen,
        }
    }

    /// Whether it was told that the book is full.
    pub fn told_full(&self) -> bool
        ensures { result ≡ self.now.told_full }
    {
        self.told_full
    }

    /// What it counts in the ledger.
    pub(crate) fn counted(&self) -> u64
        ensures { result ≡ counted (length self.now.items) self.now.told_full }
    {
        let told = if self.told_full { TOLD } else { 0 };
        self.items.len() as u64 + told
    }

    /// Its calls, the first first.
    pub fn items(&self) -> &[Item<C, R>]
        ensures { result.now ≡ self.now.items }
    {
        self.items.as_slice()
    }
}
