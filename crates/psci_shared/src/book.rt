//! A machine with all that it was asked and answered.

use crate::answers::{Answers, EntryOf};
use crate::named::Named;
use psci_status::{Board, Memory};
use std::alloc::Global;
use std::marker::{Model, PhantomData};

/// A machine and its book. Each reply in it is the machine's one reply after the entries before.
#[derive(Drop)]
pub struct BookOf<N: Named, M: Answers> {
    pub(crate) machine: M,
    pub(crate) entries: Vec<EntryOf<M>>,
    pub(crate) room: u32,
    pub(crate) of: PhantomData<N>,
}

impl<N: Named, M: Answers> Model for BookOf<N, M> {
    ghost use Rattle.std.specs.Prelude.{length, vec_capacity};
    ghost use Rattle.psci_shared.specs.Places.{AnyBook, HasRoom};

    ghost Value = { AnyBook M.Core M.Call M.Reply };

    ghost view = { λ b. record { entries = b.entries.items; room = b.room } };

    ghost invariant = { λ b.
        M.Has N.board b.machine b.entries.items × M.IsTold N.board b.entries.items
        × HasRoom (length b.entries.items) (vec_capacity b.entries) b.room };
}

ghost use Rattle.std.specs.Prelude.{◌≡◌, ◌<◌, ◌≤◌, ◌^◌, [], length, IfOk};

impl<N: Named, M: Answers> BookOf<N, M> {
    /// A machine of this board that was asked nothing, and a book with room for so many entries. It
    /// takes the memory of all its calls here.
    pub fn new(alloc: Global, board: &Board, room: u32) -> Result<BookOf<N, M>, Memory>
        requires board { board.now ≡ N.board }
        ensures { IfOk result (λ b. b ≡ record { entries = []; room = room }) }
    {
        let machine = M::open(alloc, board)?;
        let entries = Vec::with_capacity(alloc, room as usize)?;
        Ok(BookOf {
            machine,
            entries,
            room,
            of: PhantomData,
        })
    }

    /// How many entries there are.
    pub fn len(&self) -> u32
        ensures len { result ≡ length self.now.entries }
        ensures within { length self.now.entries ≤ self.now.room }
        ensures small { length self.now.entries < 2 ^ 32 }
        ensures legal { M.IsTold N.board self.now.entries }
    {
        self.entries.len() as u32
    }

    /// How many entries there is room for.
    pub fn room(&self) -> u32
        ensures { result ≡ self.now.room }
    {
        self.room
    }

    /// The entries. Each reply is the one reply after the entries before it.
    pub fn entries(&self) -> &[EntryOf<M>]
        ensures entries { result.now ≡ self.now.entries }
        ensures within { length self.now.entries ≤ self.now.room }
        ensures legal { M.IsTold N.board self.now.entries }
    {
        self.entries.as_slice()
    }

    /// The entries alone.
    pub fn into_entries(self) -> Vec<EntryOf<M>>
        ensures entries { result.items ≡ self.entries }
        ensures legal { M.IsTold N.board self.entries }
    {
        let BookOf {
            machine: _,
            entries,
            room: _,
            of: _,
        } = self;
        entries
    }
}
