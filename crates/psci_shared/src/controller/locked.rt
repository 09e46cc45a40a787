//! What the lock guards.

ghost use Rattle.std.specs.Prelude.{◌≡◌, [], length, IfOk, OnErr};
ghost use Rattle.psci_ctl.specs.psci_ctl_spec.History.{IsCall};
ghost use Rattle.psci_shared.specs.Places.{IsEntered, IsReply, IsTotal, IsTurnedAway};

use crate::controller::book::CtlBook;
use crate::controller::entry::{CtlItem, CtlPass};
use crate::{BookFull, BooksOf, GatherFaultOf, Named, Tally};
use psci_ctl::{CtlCall, CtlReply};

/// The power controller with its book, and the ledger, which counts the entries, and each pass that
/// was told that the book is full.
#[derive(Drop)]
pub struct CtlLocked<N: Named> {
    /// The power controller with its book.
    pub book: CtlBook<N>,
    pub(crate) tally: Tally<N>,
    ghost counted: { IsTotal (length book.entries) book.room tally },
    ghost room: { book.room ≡ N.room },
}

impl<N: Named> CtlLocked<N> {
    /// Carries out a call of this board, and enters it, unless the book or the pass's list is full.
    pub fn call(
        &mut self,
        ticket: u64,
        pass: &mut CtlPass<N>,
        call: CtlCall,
    ) -> Result<CtlReply, BookFull>
        requires { IsCall N.board call }
        ensures reply { IfOk result (λ reply. IsReply N.board self.old.book.entries call reply) }
        ensures entered { IfOk result (λ reply. IsEntered N.board ticket self.old.book
            self.new.book pass.old pass.new call reply) }
        ensures full { OnErr result (IsTurnedAway N.board N.room self.old.book self.new.book
            pass.old pass.new) }
    {
        let CtlLocked { book, tally } = self;
        let place = tally.next_place(book.len(), book.room(), pass)?;
        let Ok(reply) = book.step(ticket, call.copy()) else {
            unreachable!();
        };
        tally.enter(pass, CtlItem::of(place, call, reply.copy()));
        Ok(reply)
    }
}

/// All that a power controller was asked: each place of the book stands in one pass.
pub type CtlBooks<N> = BooksOf<CtlBook<N>, CtlPass<N>>;

/// Why passes were not gathered, with all that was handed in.
pub type CtlGatherFault<N> = GatherFaultOf<CtlLocked<N>, (), CtlPass<N>>;

/// What the lock of a new power controller guards.
pub(crate) fn locked_of<N: Named>(book: CtlBook<N>, tally: Tally<N>) -> CtlLocked<N>
    requires book { (book.entries ≡ []) × (book.room ≡ N.room) }
    requires tally { tally ≡ 0 }
{
    CtlLocked { book, tally }
}
