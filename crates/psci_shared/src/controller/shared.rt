//! The power controller that threads share.

ghost use Rattle.std.specs.Prelude.{◌+◌, ◌<◌, ◌≡◌, ◌≤◌, IfErr, IfOk, length, List, MatchResult};
ghost use Rattle.std.specs.Prelude.{OnErr, OnOk};
ghost use Rattle.psci_board.specs.Board.{cores};
ghost use Rattle.psci_ctl.specs.psci_ctl_spec.declared.call.CtlCall.TheVariants as calls;
ghost use Rattle.psci_ctl.specs.psci_ctl_spec.declared.reply.CtlReply.TheVariants as replies;
ghost use Rattle.psci_ctl.specs.psci_ctl_spec.History.{IsCall, IsLegal, IsSendable, values_of};
ghost use Rattle.psci_ctl.specs.psci_ctl_spec.Replies.{last_start};
ghost use Rattle.psci_shared.specs.Places.{Agree, AllPlaced, CtlEntry, first, Fits, FullIfTold};
ghost use Rattle.psci_shared.specs.Places.{history_of, IsAnswered, IsCalled, IsFull, IsNoPass};
ghost use Rattle.psci_shared.specs.Places.{told};
ghost use Rattle.psci_shared.specs.Passes.{IsCause, items_of};

use crate::controller::book::CtlBook;
use crate::controller::entry::CtlPass;
use crate::controller::locked::{CtlBooks, CtlGatherFault, CtlLocked, locked_of};
use crate::{Board, BookFull, Core, MOST_PASSES, Made, Memory, Named, PassFault, Tally, Tickets};
use psci_ctl::{CtlCall, CtlReply, Delivery, Kick, Message, Start};
use std::alloc::Global;
use std::sync::ledger::Blank;
use std::sync::{Mutex, Wait};

/// A power controller that threads share: it is called by passes, under a lock.
#[derive(Drop)]
pub struct SharedController<'t, N: Named> {
    locked: Mutex<CtlLocked<N>>,
    tickets: &'t Tickets,
    alloc: Global,
    room: u32,
    made: Made<N>,
    ghost whole: { room ≡ N.room },
}

impl<'t, N: Named> SharedController<'t, N> {
    /// A power controller of this board, with an empty book of so much room. Tickets are drawn of
    /// these. Where no pass was made, nothing is entered, as in a firmware.
    pub fn new(
        alloc: Global,
        board: &Board,
        room: u32,
        tickets: &'t Tickets,
        blank: Blank,
    ) -> Result<SharedController<'t, N>, Memory>
        requires board { board.now ≡ N.board }
        requires name { blank.name ≡ N.name }
        requires parts { (blank.parts ≡ N.parts) × (N.parts ≡ 1001) }
        requires room { room ≡ N.room }
        ensures empty { IfOk result (λ c. c.made ≡ 0) }
    {
        let book = CtlBook::new(alloc, board, room)?;
        let (tally, made) = Tally::open(blank);
        let locked = locked_of(book, tally);
        Ok(SharedController {
            locked: Mutex::new(locked),
            tickets,
            alloc,
            room,
            made,
        })
    }

    /// How many entries there is room for, in the book and in the list of each pass.
    pub fn room(&self) -> u32
        ensures { result ≡ N.room }
    {
        self.room
    }

    /// How many passes were made.
    pub fn made(&self) -> u32
        ensures { result ≡ self.now.made }
    {
        self.made.count()
    }

    /// A pass, before the power controller is shared. It takes the memory of all its calls here.
    pub fn pass(&mut self) -> Result<CtlPass<N>, PassFault>
        ensures ok { IfOk result (λ p. p ≡ first tt N.room tt) }
        ensures made { OnOk result (self.new.made ≡ self.old.made + 1) }
        ensures err { IfErr result (λ fault. IsNoPass self.old.made fault) }
        ensures same { OnErr result (self.new.made ≡ self.old.made) }
    {
        if self.made.count() == MOST_PASSES {
            return Err(PassFault::TooMany);
        }
        let Ok(items) = Vec::with_capacity(self.alloc, self.room as usize) else {
            return Err(PassFault::Memory);
        };
        Ok(self.made.pass((), self.room, items, ()))
    }

    /// A message that can be sent on this board is delivered.
    pub fn deliver<R: Wait>(
        &self,
        rt: &R,
        pass: &mut CtlPass<N>,
        message: &Message,
    ) -> Result<Delivery, BookFull>
        requires { IsSendable N.board message.now }
        ensures ok { IfOk result (λ delivery. IsCalled pass.old pass.new
            (calls.Deliver message.now) (replies.Delivery delivery)) }
        ensures answered { IfOk result (λ delivery. IsAnswered N.board pass.old pass.new
            (calls.Deliver message.now) (replies.Delivery delivery)) }
        ensures full { OnErr result (IsFull N.board N.room pass.new) }
        ensures err { OnErr result (pass.new ≡ told pass.old) }
    {
        match self.call(rt, pass, CtlCall::Deliver(message.copy())) {
            Ok(CtlReply::Delivery(delivery)) => Ok(delivery),
            Ok(_) => unreachable!(),
            Err(BookFull) => Err(BookFull),
        }
    }

    /// A core that stopped in its start of this number has a wake-up event.
    pub fn wake<R: Wait>(
        &self,
        rt: &R,
        pass: &mut CtlPass<N>,
        core: Core,
        halted: u32,
    ) -> Result<Kick, BookFull>
        requires { core.number < cores N.board }
        ensures ok { IfOk result (λ kick. IsCalled pass.old pass.new
            (calls.Wake core halted) (replies.Kick kick)) }
        ensures answered { IfOk result (λ kick. IsAnswered N.board pass.old pass.new
            (calls.Wake core halted) (replies.Kick kick)) }
        ensures full { OnErr result (IsFull N.board N.room pass.new) }
        ensures err { OnErr result (pass.new ≡ told pass.old) }
    {
        match self.call(rt, pass, CtlCall::Wake(core, halted)) {
            Ok(CtlReply::Kick(kick)) => Ok(kick),
            Ok(_) => unreachable!(),
            Err(BookFull) => Err(BookFull),
        }
    }

    /// A core is reset by itself.
    pub fn reset<R: Wait>(
        &self,
        rt: &R,
        pass: &mut CtlPass<N>,
        core: Core,
    ) -> Result<Kick, BookFull>
        requires { core.number < cores N.board }
        ensures ok { IfOk result (λ kick. IsCalled pass.old pass.new
            (calls.Reset core) (replies.Kick kick)) }
        ensures answered { IfOk result (λ kick. IsAnswered N.board pass.old pass.new
            (calls.Reset core) (replies.Kick kick)) }
        ensures full { OnErr result (IsFull N.board N.room pass.new) }
        ensures err { OnErr result (pass.new ≡ told pass.old) }
    {
        match self.call(rt, pass, CtlCall::Reset(core)) {
            Ok(CtlReply::Kick(kick)) => Ok(kick),
            Ok(_) => unreachable!(),
            Err(BookFull) => Err(BookFull),
        }
    }

    /// The last start of a core in this life, if there is a life and a start. Nothing is entered.
    pub fn started<R: Wait>(&self, rt: &R, core: Core) -> Option<Start>
        requires { core.number < cores N.board }
        ensures { (entries : List CtlEntry) × IsLegal N.board (history_of entries)
            × (result ≡ last_start (values_of N.board (history_of entries)) core.number) }
    {
        let locked = self.locked.lock(rt);
        locked.book.started(core)
    }

    /// Gathers the passes with the book, in which each place then stands in one of them. Gathered
    /// or not, the book is full if one of them was told so.
    pub fn gather(self, passes: Vec<CtlPass<N>>) -> Result<CtlBooks<N>, CtlGatherFault<N>>
        ensures fault { IfErr result (λ f. IsCause f.cause (Agree f.locked.book f.passes.items)
            (length f.passes.items) self.entry.made) }
        ensures made { IfErr result (λ f. f.made ≡ self.entry.made) }
        ensures all { IfOk result (λ b. length b.passes.items ≡ self.entry.made) }
        ensures books { IfOk result (λ b. Agree b.book b.passes.items
            × (length b.book.entries ≡ items_of b.passes.items)) }
        ensures placed { IfOk result (λ b. AllPlaced b.book b.passes.items) }
        ensures room { MatchResult result
            (λ b. b.book.room ≡ N.room) (λ f. f.locked.book.room ≡ N.room) }
        ensures full { MatchResult result
            (λ b. FullIfTold (length b.book.entries) N.room passes.items)
            (λ f. FullIfTold (length f.locked.book.entries) N.room passes.items) }
        ensures passes { MatchResult result
            (λ b. b.passes.items ≡ passes.items) (λ f. f.passes.items ≡ passes.items) }
    {
        let (mut locked, mut made) = self.into_parts();
        let mut passes = passes;
        let CtlLocked { book, tally } = &mut locked;
        if let Some(cause) = tally.cause(book, &mut made, &mut passes) {
            return Err(CtlGatherFault::of(cause, locked, (), made.count(), passes));
        }
        let CtlLocked { book, tally: _ } = locked;
        Ok(CtlBooks { book, passes })
    }

    /// A call of this board, under the lock.
    fn call<R: Wait>(
        &self,
        rt: &R,
        pass: &mut CtlPass<N>,
        call: CtlCall,
    ) -> Result<CtlReply, BookFull>
        requires { IsCall N.board call }
        ensures ok { IfOk result (λ reply. IsCalled pass.old pass.new call reply) }
        ensures answered { IfOk result (λ reply. IsAnswered N.board pass.old pass.new call reply) }
        ensures fits { IfOk result (λ reply. Fits call reply) }
        ensures full { OnErr result (IsFull N.board N.room pass.new × (pass.new ≡ told pass.old)) }
    {
        let mut locked = self.locked.lock(rt);
        let ticket = self.tickets.draw();
        locked.call(ticket, pass, call)
    }

    /// What the lock guarded, and how many passes were made.
    fn into_parts(self) -> (CtlLocked<N>, Made<N>)
        ensures { result.1 ≡ self.entry.made }
    {
        let SharedController {
            locked,
            tickets: _,
            alloc: _,
            room: _,
            made,
        } = self;
        (locked.into_inner(), made)
    }
}
