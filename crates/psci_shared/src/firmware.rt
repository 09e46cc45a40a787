//! The firmware's book.

use crate::answers::Answers;
use crate::asking::{ask, ask_for};
use crate::book::BookOf;
use crate::done::{Done, Said, reply_of};
use crate::entry::{BookFull, FwEntry, FwItem};
use crate::named::Named;
use crate::same::{is_same_call, is_same_reply};
use crate::touching::touch;
use psci_fw::{Firmware, FwCall, FwReply, law_values};
use psci_status::{Board, Core, Memory};
use std::alloc::Global;

/// A firmware and its book. Each reply in it is the firmware's answer after the entries before.
pub type FwBook<N> = BookOf<N, Firmware>;

impl Answers for Firmware {
    ghost use Rattle.psci_shared.specs.Passes.{Has, IsTold};

    type Core = Core;

    type Call = FwCall;

    type Reply = FwReply;

    ghost Has = { λ b f entries. Has b f entries };

    ghost IsTold = { λ b entries. IsTold b entries };

    #[tactic(auto, using(crate::proofs::Crossing::history_none))]
    fn open(alloc: Global, board: &Board) -> Result<Firmware, Memory> {
        law_values();
        Firmware::new(alloc, board)
    }

    fn is_of(entry: &FwEntry, core: &Core, item: &FwItem) -> bool {
        let same_call = is_same_call(&entry.call, &item.call);
        let same_reply = is_same_reply(&entry.reply, &item.reply);
        entry.core == *core && same_call && same_reply
    }
}

ghost use Rattle.std.specs.Prelude.{◌≡◌, ◌<◌, length, IfOk, OnOk, OnErr, vec_len, vec_capacity};
ghost use Rattle.psci_fw.specs.Reactions.{seen};
ghost use Rattle.psci_fw.specs.psci_fw_spec.History.{life, values_of};
ghost use Rattle.psci_shared.specs.Passes.{answer_after, entry, Fits, history_of};
ghost use Rattle.psci_shared.specs.Places.{entered, item};
ghost use Rattle.psci_shared.specs.Locked.{IsDone, Pushed, reply_said};

impl<N: Named> FwBook<N> {
    /// Carries out a call of this core and enters it, unless the book is full.
    #[tactic(auto, using(crate::proofs::Crossing::history_more))]
    pub fn step(&mut self, ticket: u64, core: Core, call: FwCall) -> Result<FwReply, BookFull>
        ensures reply { IfOk result (λ reply. reply
            ≡ answer_after N.board self.old.entries core.number call) }
        ensures fits { IfOk result (λ reply. Fits call reply) }
        ensures ok { IfOk result (λ reply. self.new
            ≡ entered self.old (entry ticket core call reply)) }
        ensures room { OnOk result (length self.old.entries < self.old.room) }
        ensures full { OnErr result
            ((length self.old.entries ≡ self.old.room) × (self.new ≡ self.old)) }
    {
        if self.entries.len() == self.room as usize {
            return Err(BookFull);
        }
        law_values();
        let reply = ask(&mut self.machine, core, &call);
        self.entries
            .push_reserved(FwEntry::of(ticket, core, call, reply.copy()));
        Ok(reply)
    }

    /// The same for a pass, where neither is full; the call goes into its list as well, and the
    /// message stays in its slot. `A` is for the compiler, as in all that is done under the lock:
    /// so each kind of call has its own.
    #[tactic(auto, using(crate::proofs::Crossing::history_more))]
    pub(crate) fn carry_out<A>(
        &mut self,
        items: &mut Vec<FwItem>,
        place: u32,
        ticket: u64,
        core: Core,
        call: FwCall,
    ) -> Done
        requires room { (length self.old.entries < self.old.room)
            × (vec_len items.old < vec_capacity items.old) }
        ensures done { IsDone core call
            (answer_after N.board self.old.entries core.number call) N.board
            (values_of N.board (history_of self.new.entries)) result }
        ensures book { self.new ≡ entered self.old
            (entry ticket core call (answer_after N.board self.old.entries core.number call)) }
        ensures items { Pushed items.old items.new (item place call
            (answer_after N.board self.old.entries core.number call)) }
    {
        law_values();
        let BookOf {
            machine,
            entries,
            room: _,
            of: _,
        } = self;
        ask_for::<A>(machine, entries, items, place, ticket, core, call)
    }

    /// The reply to the last call, of which this was said.
    pub(crate) fn reply_of(&self, said: Said) -> FwReply
        ensures { result
            ≡ reply_said N.board (values_of N.board (history_of self.now.entries)) said }
    {
        reply_of(&self.machine, said)
    }

    /// Writes to the memory of all entries that there is room for.
    pub(crate) fn touch(&mut self)
        ensures { self.new ≡ self.old }
    {
        touch(&mut self.entries, self.room, || FwEntry::blank());
    }

    /// The firmware, to look at.
    pub(crate) fn firmware(&self) -> &Firmware
        ensures board { result.now.board ≡ N.board }
        ensures values { seen result.now ≡ values_of N.board (history_of self.now.entries) }
    {
        &self.machine
    }

    /// The firmware's life, 0 before any core has entered.
    #[tactic(auto, unfolding(psci_fw_spec::specs::History::values_of))]
    pub fn life(&self) -> u32
        ensures { result ≡ life N.board (history_of self.now.entries) }
    {
        self.machine.life().unwrap_or(0)
    }
}
