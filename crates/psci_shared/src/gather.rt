//! Passes are gathered with the book.

ghost use Rattle.std.specs.Prelude.{◌≡◌, length, map, IfErr, IfOk, MatchResult};
ghost use Rattle.psci_status.specs.Seats.{table, table_of_writer, written};
ghost use Rattle.psci_status.specs.Lists.{newest};
ghost use Rattle.psci_shared.specs.Places.{Agree, AllPlaced, FullIfTold};
ghost use Rattle.psci_shared.specs.Passes.{AllSeen, AllStand, AreMet, IsCause, items_of, met};

use crate::firmware::FwBook;
use crate::gathered::{BooksOf, GatherFaultOf};
use crate::locked::FwLocked;
use crate::named::Named;
use crate::seen::Pass;
use crate::shared::SharedFirmware;
use psci_status::{StatusWords, Writer};

/// All that a firmware was asked, and by whom: each place of the book stands in one pass.
pub type Books<N> = BooksOf<FwBook<N>, Pass<N>>;

/// Why passes were not gathered, with all that was handed in.
pub type GatherFault<N> = GatherFaultOf<FwLocked<N>, StatusWords, Pass<N>>;

impl<'t, N: Named> SharedFirmware<'t, N> {
    /// Gathers the passes with the book, in which each place then stands in one of them. Gathered
    /// or not, the book is full if one of them was told so.
    #[tactic(auto, using(crate::proofs::Written::told_before))]
    pub fn gather(self, passes: Vec<Pass<N>>) -> Result<Books<N>, GatherFault<N>>
        ensures fault { IfErr result (λ f. IsCause f.cause (Agree f.locked.book f.passes.items)
            (length f.passes.items) self.entry.made) }
        ensures made { IfErr result (λ f. f.made ≡ self.entry.made) }
        ensures words { IfErr result
            (λ f. (f.words ≡ self.entry.words) × (table f.words ≡ N.table)) }
        ensures all { IfOk result (λ b. length b.passes.items ≡ self.entry.made) }
        ensures books { IfOk result (λ b. Agree b.book b.passes.items
            × (length b.book.entries ≡ items_of b.passes.items)) }
        ensures placed { IfOk result (λ b. AllPlaced b.book b.passes.items) }
        ensures room { MatchResult result
            (λ b. b.book.room ≡ N.room) (λ f. f.locked.book.room ≡ N.room) }
        ensures full { MatchResult result
            (λ b. FullIfTold (length b.book.entries) N.room passes.items)
            (λ f. FullIfTold (length f.locked.book.entries) N.room passes.items) }
        ensures stand { IfOk result (λ b. AllStand N.board b.book.entries b.passes.items) }
        ensures stood { MatchResult result
            (λ b. AllStand N.board b.book.entries passes.items)
            (λ f. AllStand N.board f.locked.book.entries passes.items) }
        ensures passes { MatchResult result
            (λ b. AreMet passes.items b.passes.items)
            (λ f. AreMet passes.items f.passes.items) }
    {
        let (mut locked, words, mut made) = self.into_parts();
        let mut passes = passes;
        locked.meet(&words, &mut passes);
        let FwLocked {
            book,
            writer: _,
            count: _,
            tally,
        } = &mut locked;
        if let Some(cause) = tally.cause(book, &mut made, &mut passes) {
            return Err(GatherFault::of(cause, locked, words, made.count(), passes));
        }
        let FwLocked {
            book,
            writer: _,
            count: _,
            tally: _,
        } = locked;
        Ok(Books { book, passes })
    }
}

impl<N: Named> FwLocked<N> {
    /// The writer is told what each pass has seen.
    pub(crate) fn meet(&mut self, words: &StatusWords, passes: &mut Vec<Pass<N>>)
        requires { table words.now ≡ N.table }
        ensures book { self.new.book ≡ self.old.book }
        ensures passes { AreMet passes.old.items passes.new.items }
        ensures stand { AllStand N.board self.new.book.entries passes.new.items }
        ensures stood { AllStand N.board self.old.book.entries passes.old.items }
    {
        meet_all(words, &mut self.writer, passes.as_mut_slice());
    }
}

fn meet_all<N: Named>(words: &StatusWords, writer: &mut Writer, passes: &mut [Pass<N>])
    requires tables { (table words.now ≡ N.table) × (table_of_writer writer.old ≡ N.table) }
    ensures table { table_of_writer writer.new ≡ N.table }
    ensures log { written writer.new ≡ written writer.old }
    ensures passes { passes.new ≡ map (met (map newest (written writer.old))) passes.old }
    ensures seen { AllSeen (written writer.old) passes.old
        × AllSeen (written writer.new) passes.new }
{
    let Some((first, rest)) = passes.split_first_mut() else {
        return;
    };
    words.meet(writer, &mut first.seen.reader);
    meet_all(words, writer, rest);
}
