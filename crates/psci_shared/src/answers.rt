//! Machines that are kept with a book: a firmware, a power controller.

use crate::entry::{Entry, Item};
use crate::pass::PassOf;
use psci_status::{Board, Memory};
use std::alloc::Global;

/// A machine that answers calls, each by what it was asked and has replied before.
pub trait Answers: Drop {
    ghost use Rattle.std.specs.Prelude.{◌↔◌, List, [], IfOk, IsTrue};
    ghost use Rattle.psci_fw.specs.psci_board.Board.{BoardValue};
    ghost use Rattle.psci_shared.specs.declared.entry.Entry.{Entry};
    ghost use Rattle.psci_shared.specs.Places.{IsOf};

    /// Who calls through a pass: a core, or `()` where passes have none.
    type Core: Drop;

    /// What is asked.
    type Call: Drop;

    /// What is replied.
    type Reply: Drop;

    // a machine of this board, which has the values after these entries
    ghost Has: { BoardValue → Self → List (Entry Self.Core Self.Call Self.Reply) → Type 0 };

    // entries that tell a legal history of this board: each reply is that after the ones before it
    ghost IsTold: { BoardValue → List (Entry Self.Core Self.Call Self.Reply) → Type 0 };

    /// A machine of this board that was asked nothing.
    fn open(alloc: Global, board: &Board) -> Result<Self, Memory>
        ensures { IfOk result (λ m. Has board.now m [] × IsTold board.now []) };

    /// Whether the entry is the item's call of this core, with the item's reply.
    fn is_of(
        entry: &Entry<Self::Core, Self::Call, Self::Reply>,
        core: &Self::Core,
        item: &Item<Self::Call, Self::Reply>,
    ) -> bool
        ensures { IsTrue result ↔ IsOf entry.now core.now item.now };
}

/// An entry of such a machine's book.
pub(crate) type EntryOf<M> = Entry<
    <M as Answers>::Core,
    <M as Answers>::Call,
    <M as Answers>::Reply,
>;

/// An item of a pass by which such a machine is called.
pub(crate) type ItemOf<M> = Item<<M as Answers>::Call, <M as Answers>::Reply>;

/// Such a pass, which sees this.
pub(crate) type PassBy<N, M, S> = PassOf<
    N,
    <M as Answers>::Core,
    S,
    <M as Answers>::Call,
    <M as Answers>::Reply,
>;
