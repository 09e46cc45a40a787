//! Whether passes agree with a book.

ghost use Rattle.std.specs.Prelude.{◌≡◌, ◌↔◌, IsTrue, slice_get, option_map, map};
ghost use Rattle.psci_shared.specs.Places.{Agree, Agrees, all_apart, AllAgree, AllRise};
ghost use Rattle.psci_shared.specs.Places.{AllStandFrom, apart, apart_from, begins_at, not_below};
ghost use Rattle.psci_shared.specs.Places.{places, places_of, RisesFrom, StandsAt, StandsFrom};

use crate::answers::{Answers, EntryOf, ItemOf, PassBy};
use crate::book::BookOf;
use crate::entry::Item;
use crate::named::Named;
use crate::pass::PassOf;

/// Whether the passes agree with the book, and no two have one place.
#[tactic(auto, using(crate::proofs::Placed::agree_rise))]
pub fn agree<N: Named, M: Answers, S: Drop>(book: &BookOf<N, M>, passes: &[PassBy<N, M, S>]) -> bool
    ensures { IsTrue result ↔ Agree book.now passes.now }
{
    all_agree(book, passes) && all_apart(passes)
}

fn all_agree<N: Named, M: Answers, S: Drop>(book: &BookOf<N, M>, passes: &[PassBy<N, M, S>]) -> bool
    ensures { IsTrue result ↔ AllAgree book.now passes.now }
{
    for pass in passes {
        if !agrees(book, pass) {
            return false;
        }
    }
    true
}

fn agrees<N: Named, M: Answers, S: Drop>(book: &BookOf<N, M>, pass: &PassBy<N, M, S>) -> bool
    ensures { IsTrue result ↔ Agrees book.now pass.now }
{
    if pass.told_full && book.entries().len() != book.room() as usize {
        return false;
    }
    all_stand::<M>(book.entries(), &pass.core, pass.items())
}

fn all_stand<M: Answers>(entries: &[EntryOf<M>], core: &M::Core, items: &[ItemOf<M>]) -> bool
    ensures { IsTrue result ↔ AllStandFrom entries.now core.now 0 items.now }
{
    let mut from: u64 = 0;
    for item in items {
        if !stands_from::<M>(entries, core, from, item) {
            return false;
        }
        from = u64::from(item.place) + 1;
    }
    true
}

fn stands_from<M: Answers>(
    entries: &[EntryOf<M>],
    core: &M::Core,
    from: u64,
    item: &ItemOf<M>,
) -> bool
    ensures { IsTrue result ↔ StandsFrom entries.now core.now from item.now }
{
    from <= u64::from(item.place) && stands_at::<M>(entries.get(item.place as usize), core, item)
}

fn stands_at<M: Answers>(found: Option<&EntryOf<M>>, core: &M::Core, item: &ItemOf<M>) -> bool
    ensures { IsTrue result ↔ StandsAt (option_map (λ e. e.now) found.entry) core.now item.now }
{
    match found {
        Some(entry) => M::is_of(entry, core, item),
        None => false,
    }
}

fn all_apart<N: Named, W: Drop, S: Drop, C: Drop, R: Drop>(passes: &[PassOf<N, W, S, C, R>]) -> bool
    requires { AllRise (map places_of passes.now) }
    ensures { result ≡ all_apart (map places_of passes.now) }
{
    match passes {
        [] => true,
        [first, rest @ ..] => apart_from(first, rest) && all_apart(rest),
    }
}

fn apart_from<N: Named, W: Drop, S: Drop, C: Drop, R: Drop>(
    one: &PassOf<N, W, S, C, R>,
    others: &[PassOf<N, W, S, C, R>],
) -> bool
    requires { RisesFrom 0 (places_of one.now) × AllRise (map places_of others.now) }
    ensures { result ≡ apart_from (places_of one.now) (map places_of others.now) }
{
    match others {
        [] => true,
        [first, rest @ ..] => apart(one.items(), first.items()) && apart_from(one, rest),
    }
}

/// Whether no place is in both lists, whose places rise. Each is walked through once.
fn apart<C: Drop, R: Drop>(one: &[Item<C, R>], other: &[Item<C, R>]) -> bool
    requires { RisesFrom 0 (places one.now) × RisesFrom 0 (places other.now) }
    ensures { result ≡ apart (places one.now) (places other.now) }
{
    let mut left = other;
    for item in one {
        left = not_below(left, item.place);
        if begins_at(left, item.place) {
            return false;
        }
    }
    true
}

/// The items from the first on whose place is not below this one.
fn not_below<C: Drop, R: Drop>(items: &[Item<C, R>], place: u32) -> &[Item<C, R>]
    ensures { places result.now ≡ not_below place (places items.now) }
{
    for from in 0..items.len() {
        if items[from].place >= place {
            return &items[from..];
        }
    }
    &[]
}

fn begins_at<C: Drop, R: Drop>(items: &[Item<C, R>], place: u32) -> bool
    ensures { result ≡ begins_at place (places items.now) }
{
    match items {
        [] => false,
        [first, ..] => first.place == place,
    }
}
