//! How many items passes have in all, and which of them were told that the book is full.

use crate::agreement::agree;
use crate::answers::{Answers, PassBy};
use crate::book::BookOf;
use crate::entry::{BookFull, Item};
use crate::fault::GatherCause;
use crate::made::Made;
use crate::named::Named;
use crate::pass::{PassOf, TOLD};
use std::marker::Model;
use std::sync::ledger::{Blank, Book, Share};

/// The ledger of a lock, whose total is how many items its passes have in all, and 2^48 for each
/// pass that was told that the book is full.
#[derive(Drop)]
pub struct Tally<N: Named> {
    total: Book<N>,
}

impl<N: Named> Model for Tally<N> {
    ghost use Rattle.std.specs.Prelude.{ℕ};

    ghost Value = { ℕ };

    ghost view = { λ t. t.total.total };
}

ghost use Rattle.std.specs.Prelude.{◌*◌, ◌+◌, ◌<◌, ◌^◌, ◌≡◌, ◌≢◌, ◌≤◌, ◌⊎◌, IfNone, IfOk, IfSome};
ghost use Rattle.std.specs.Prelude.{length, OnErr, OnOk};
ghost use Rattle.psci_shared.specs.Places.{Agree, AllPlaced, called, FullIfTold, IsTotal, told};
ghost use Rattle.psci_shared.specs.Places.{told_of};
ghost use Rattle.psci_shared.specs.Passes.{IsCause, items_of};

impl<N: Named> Tally<N> {
    /// The ledger of a new lock, of which no pass was made.
    pub fn open(blank: Blank) -> (Tally<N>, Made<N>)
        requires name { blank.name ≡ N.name }
        requires parts { (blank.parts ≡ N.parts) × (N.parts ≡ 1001) }
        ensures { (result.0 ≡ 0) × (result.1 ≡ 0) }
    {
        let (total, rest) = blank.open::<N>();
        (Tally { total }, Made::of(rest))
    }

    /// Where the next entry goes, unless the book is full, by how many entries it has and how many
    /// it has room for: then the pass is told. No pass's list has more items than the book has
    /// entries, so it is not full before the book.
    #[inline(always)]
    pub fn next_place<W: Drop, S: Drop, C: Drop, R: Drop>(
        &mut self,
        len: u32,
        room: u32,
        pass: &mut PassOf<N, W, S, C, R>,
    ) -> Result<u32, BookFull>
        requires { IsTotal len room self.old }
        ensures tally { OnOk result (self.new ≡ self.old) }
        ensures total { IsTotal len room self.new }
        ensures ok { IfOk result (λ place. (place ≡ len) × (place < 2 ^ 32) × (len ≢ room)
            × (length pass.old.items ≤ place) × (pass.new ≡ pass.old)) }
        ensures full { OnErr result ((len ≡ room) × (pass.new ≡ told pass.old)) }
    {
        self.total.audit(&mut pass.share);
        if len == room {
            self.tell(pass);
            return Err(BookFull);
        }
        Ok(len)
    }

    /// A pass is told that the book is full, and that is counted once.
    fn tell<W: Drop, S: Drop, C: Drop, R: Drop>(&mut self, pass: &mut PassOf<N, W, S, C, R>)
        ensures pass { pass.new ≡ told pass.old }
        ensures tally { (self.new ≡ self.old) ⊎ (self.new ≡ self.old + 2 ^ 48) }
    {
        if !pass.told_full {
            self.total.add(&mut pass.share, TOLD);
            pass.told_full = true;
        }
    }

    /// One item more is counted.
    #[inline(always)]
    pub(crate) fn add(&mut self, share: &mut Share<N>)
        requires { 0 < share.old.parts }
        ensures parts { share.new.parts ≡ share.old.parts }
        ensures total { self.new ≡ self.old + 1 }
        ensures amount { share.new.amount ≡ share.old.amount + 1 }
    {
        self.total.add(share, 1);
    }

    /// An item goes into a pass's list, and is counted.
    pub fn enter<W: Drop, S: Drop, C: Drop, R: Drop>(
        &mut self,
        pass: &mut PassOf<N, W, S, C, R>,
        item: Item<C, R>,
    )
        requires { length pass.old.items < N.room }
        ensures pass { pass.new ≡ called pass.old item pass.old.seen }
        ensures tally { self.new ≡ self.old + 1 }
    {
        self.total.add(&mut pass.share, 1);
        pass.items.push_reserved(item);
    }

    /// Why passes are not gathered with a book. Where they are, as many came as were made, and each
    /// place stands in one of them. The book is full if one of them was told so.
    #[tactic(auto, using(crate::proofs::Placed::all_placed))]
    pub fn cause<M: Answers, S: Drop>(
        &mut self,
        book: &BookOf<N, M>,
        made: &mut Made<N>,
        passes: &mut Vec<PassBy<N, M, S>>,
    ) -> Option<GatherCause>
        requires { IsTotal (length book.now.entries) book.now.room self.old }
        ensures tally { (self.new ≡ self.old) × (made.new ≡ made.old) }
        ensures passes { passes.new.items ≡ passes.old.items }
        ensures cause { IfSome result (λ c. IsCause c (Agree book.now passes.old.items)
            (length passes.old.items) made.old) }
        ensures all { IfNone result (length passes.old.items ≡ made.old) }
        ensures agree { IfNone result (Agree book.now passes.old.items
            × (length book.now.entries ≡ items_of passes.old.items)) }
        ensures placed { IfNone result (AllPlaced book.now passes.old.items) }
        ensures full { FullIfTold (length book.now.entries) book.now.room
            passes.old.items }
    {
        let all_agree = agree(book, passes);
        let room = book.room();
        let len = book.len();
        count_all(
            &mut self.total,
            passes.as_mut_slice(),
            &mut made.rest,
            len,
            room,
        );
        if !all_agree {
            return Some(GatherCause::Astray);
        }
        if (passes.len() as u64) < u64::from(made.count()) {
            return Some(GatherCause::Missing);
        }
        None
    }
}

/// Lends the shares of all passes to one that has a part, and compares the sum with the total. Each
/// of them is no more, so none was told of a book of so many entries that is not full.
fn count_all<N: Named, W: Drop, S: Drop, C: Drop, R: Drop>(
    total: &mut Book<N>,
    passes: &mut [PassOf<N, W, S, C, R>],
    seen: &mut Share<N>,
    len: u32,
    room: u32,
)
    requires parts { 0 < seen.old.parts }
    requires total { IsTotal len room total.old.total }
    ensures ledger { (total.new.total ≡ total.old.total) × (seen.new.parts ≡ seen.old.parts)
        × (seen.new.amount ≡ seen.old.amount) }
    ensures passes { passes.new ≡ passes.old }
    ensures few { seen.old.parts + length passes.old ≤ N.parts }
    ensures all { seen.old.parts + length passes.old ≡ N.parts
        → seen.old.amount + items_of passes.old + 2 ^ 48 * told_of passes.old
        ≡ total.old.total }
    ensures small { items_of passes.old ≤ length passes.old * 2 ^ 32 }
    ensures full { FullIfTold len room passes.old }
{
    let Some((first, rest)) = passes.split_first_mut() else {
        let none = seen.empty();
        seen.merge(none);
        total.audit(seen);
        return;
    };
    total.audit(&mut first.share);
    let count = first.counted();
    first.share.give(seen, 1, count);
    count_all(total, rest, seen, len, room);
    seen.give(&mut first.share, 1, count);
}
