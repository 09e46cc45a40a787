//! What the lock guards.

ghost use Rattle.std.specs.Prelude.{◌≡◌, [], ◌∷◌, length, replicate, IfOk, OnErr};
ghost use Rattle.psci_fw.specs.psci_board.Board.{cores};
ghost use Rattle.psci_fw.specs.psci_fw_spec.declared.status.Status.TheVariants.{Off};
ghost use Rattle.psci_status.specs.Seats.{table, table_of_writer, written};
ghost use Rattle.psci_shared.specs.Locked.{IsEntered, IsReply, IsTurnedAway};
ghost use Rattle.psci_shared.specs.Places.{IsTotal};
ghost use Rattle.psci_shared.specs.Passes.{IsWritten};

use crate::entry::BookFull;
use crate::firmware::FwBook;
use crate::named::Named;
use crate::seen::{Pass, Seen};
use crate::tally::Tally;
use crate::writing::write_all;
use psci_fw::{FwCall, FwReply};
use psci_status::{StatusWords, Writer};

/// The firmware with its book, the writer of its status words, and the ledger, which counts the
/// entries, and each pass that was told that the book is full.
#[derive(Drop)]
pub struct FwLocked<N: Named> {
    /// The firmware with its book.
    pub book: FwBook<N>,
    pub(crate) writer: Writer,
    pub(crate) count: u16,
    pub(crate) tally: Tally<N>,
    ghost counted: { IsTotal (length book.entries) book.room tally },
    ghost table: { table_of_writer writer ≡ N.table },
    ghost words: { N.table.words ≡ cores N.board },
    ghost room: { book.room ≡ N.room },
    ghost whole: { count ≡ cores N.board },
    ghost written: { IsWritten N.board (written writer) book.entries },
}

impl<N: Named> FwLocked<N> {
    /// Carries out a call for the pass's core, and enters it, unless the book or the pass's list is
    /// full. An entered call leaves the pass with the last status of each core.
    pub fn call(
        &mut self,
        words: &StatusWords,
        ticket: u64,
        pass: &mut Pass<N>,
        call: FwCall,
    ) -> Result<FwReply, BookFull>
        requires { table words.now ≡ N.table }
        ensures reply { IfOk result (λ reply. IsReply N.board self.old.book.entries
            pass.old.core.number call reply) }
        ensures entered { IfOk result (λ reply. IsEntered N.board ticket self.old.book
            self.new.book pass.old pass.new call reply) }
        ensures full { OnErr result (IsTurnedAway N.board N.room self.old.book self.new.book
            pass.old pass.new) }
    {
        self.call_of::<FwCall>(words, ticket, pass, call)
    }

    /// The same, compiled once for each `A`, as each kind of call has its own.
    pub(crate) fn call_of<A>(
        &mut self,
        words: &StatusWords,
        ticket: u64,
        pass: &mut Pass<N>,
        call: FwCall,
    ) -> Result<FwReply, BookFull>
        requires { table words.now ≡ N.table }
        ensures reply { IfOk result (λ reply. IsReply N.board self.old.book.entries
            pass.old.core.number call reply) }
        ensures entered { IfOk result (λ reply. IsEntered N.board ticket self.old.book
            self.new.book pass.old pass.new call reply) }
        ensures full { OnErr result (IsTurnedAway N.board N.room self.old.book self.new.book
            pass.old pass.new) }
    {
        let FwLocked {
            book,
            writer,
            count,
            tally,
        } = self;
        let place = tally.next_place(book.len(), book.room(), pass)?;
        let before = book.life();
        let done = book.carry_out::<A>(&mut pass.items, place, ticket, pass.core, call);
        tally.add(&mut pass.share);
        write_all::<N, A>(words, writer, book, before, done.named, *count);
        words.meet(writer, &mut pass.seen.reader);
        Ok(book.reply_of(done.said))
    }

    /// What a new pass has seen: the last status of each core.
    pub(crate) fn seen(&mut self, words: &StatusWords) -> Seen<N>
        requires { table words.now ≡ N.table }
    {
        Seen::of(words, &mut self.writer)
    }
}

/// What the lock of a new firmware guards.
#[tactic(auto, using(crate::proofs::Written::written_first))]
pub(crate) fn locked_of<N: Named>(
    book: FwBook<N>,
    writer: Writer,
    count: u16,
    tally: Tally<N>,
) -> FwLocked<N>
    requires book { (book.entries ≡ []) × (book.room ≡ N.room) }
    requires tally { tally ≡ 0 }
    requires cores { (count ≡ cores N.board) × (N.table.words ≡ cores N.board) }
    requires writer { (table_of_writer writer ≡ N.table)
        × (written writer ≡ replicate (cores N.board) (Off ∷ [])) }
{
    FwLocked {
        book,
        writer,
        count,
        tally,
    }
}
