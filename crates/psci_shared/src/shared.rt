//! The firmware that threads share.

ghost use Rattle.std.specs.Prelude.{◌+◌, ◌<◌, ◌∷◌, ◌≡◌, ◌≤◌, [], IfErr, IfOk, IfSome, List};
ghost use Rattle.std.specs.Prelude.{MatchResult, OnErr, OnOk, replicate};
ghost use Rattle.std.specs.Fn.{FnOnceReturnsAt};
ghost use Rattle.psci_fw.specs.psci_board.Board.{core_of, cores};
ghost use Rattle.psci_fw.specs.psci_fw_spec.declared.call.FwCall.TheVariants as calls;
ghost use Rattle.psci_fw.specs.psci_fw_spec.declared.reply.FwReply.TheVariants as replies;
ghost use Rattle.psci_fw.specs.psci_fw_spec.declared.status.Status.TheVariants.{Off};
ghost use Rattle.psci_status.specs.Seats.{table, table_of_writer, written};
ghost use Rattle.psci_shared.specs.Places.{FwEntry, told};
ghost use Rattle.psci_shared.specs.Passes.{Fits, history_of, IsAffinity, IsAnswered};
ghost use Rattle.psci_shared.specs.Passes.{IsAnsweredFault, IsCalled, IsFirst, IsFull, IsNoPass};
ghost use Rattle.psci_shared.specs.Passes.{IsPolled, IsRefused};
ghost use Rattle.psci_fw.specs.psci_fw_spec.Legal.{IsLegal};

use crate::entry::{BookFull, FwEntry};
use crate::fault::{CallFault, PassFault};
use crate::firmware::FwBook;
use crate::locked::{FwLocked, locked_of};
use crate::made::{MOST_PASSES, Made};
use crate::named::Named;
use crate::seen::Pass;
use crate::sighting::Sighting;
use crate::tally::Tally;
use crate::tickets::Tickets;
use psci_fw::{Code, FwCall, FwReply, Outcome, Regs, Start, Taken};
use psci_messages::Ack;
use psci_status::{Board, Core, Memory, Reading, StatusWords, Writer};
use std::alloc::Global;
use std::sync::ledger::Blank;
use std::sync::{Mutex, Wait};

/// A firmware that threads share: it is called by passes, under a lock, and the status of a core is
/// read without the lock.
#[derive(Drop)]
pub struct SharedFirmware<'t, N: Named> {
    locked: Mutex<FwLocked<N>>,
    words: StatusWords,
    tickets: &'t Tickets,
    board: Board,
    alloc: Global,
    room: u32,
    made: Made<N>,
    ghost named: { board ≡ N.board },
    ghost table: { table words ≡ N.table },
    ghost count: { N.table.words ≡ cores N.board },
    ghost whole: { room ≡ N.room },
}

impl<'t, N: Named> SharedFirmware<'t, N> {
    /// A firmware of this board, over status words that nothing was written to, with an empty book
    /// of so much room. Tickets are drawn of these. Where no pass was made, nothing is entered: the
    /// ledger, whose total is the number of entries, has all its parts beside the lock, and none of
    /// them counts an item.
    pub fn new(
        alloc: Global,
        board: &Board,
        words: StatusWords,
        writer: Writer,
        room: u32,
        tickets: &'t Tickets,
        blank: Blank,
    ) -> Result<SharedFirmware<'t, N>, Memory>
        requires board { board.now ≡ N.board }
        requires name { blank.name ≡ N.name }
        requires parts { (blank.parts ≡ N.parts) × (N.parts ≡ 1001) }
        requires words { (table words ≡ N.table) × (N.table.words ≡ cores N.board) }
        requires writer { (table_of_writer writer ≡ N.table)
            × (written writer ≡ replicate (cores N.board) (Off ∷ [])) }
        requires room { room ≡ N.room }
        ensures empty { IfOk result (λ f. f.made ≡ 0) }
    {
        let book = FwBook::new(alloc, board, room)?;
        let board = board.copy(alloc)?;
        let (tally, made) = Tally::open(blank);
        let locked = locked_of(book, writer, board.cores(), tally);
        Ok(SharedFirmware {
            locked: Mutex::new(locked),
            words,
            tickets,
            board,
            alloc,
            room,
            made,
        })
    }

    /// How many entries there is room for, in the book and in the list of each pass.
    pub fn room(&self) -> u32
        ensures { result ≡ N.room }
    {
        self.room
    }

    /// How many passes were made.
    pub fn made(&self) -> u32
        ensures { result ≡ self.now.made }
    {
        self.made.count()
    }

    /// Writes to the memory of all entries to come, before the firmware is shared, so that no call
    /// is the first to touch it under the lock. [`Pass::touch`] does the same for a pass.
    pub fn touch(&mut self)
        ensures nothing { self.new.made ≡ self.old.made }
    {
        self.locked.get_mut().book.touch();
    }

    /// A pass for a core, before the firmware is shared. It takes the memory of all its calls here.
    pub fn pass(&mut self, core: Core) -> Result<Pass<N>, PassFault>
        ensures ok { IfOk result (λ p. IsFirst core N.room p) }
        ensures made { OnOk result (self.new.made ≡ self.old.made + 1) }
        ensures on_board { OnOk result (core.number < cores N.board) }
        ensures err { IfErr result (λ fault. IsNoPass N.board self.old.made core fault) }
        ensures same { OnErr result (self.new.made ≡ self.old.made) }
    {
        if core.number >= self.board.cores() {
            return Err(PassFault::NoCore);
        }
        if self.made.count() == MOST_PASSES {
            return Err(PassFault::TooMany);
        }
        let Ok(items) = Vec::with_capacity(self.alloc, self.room as usize) else {
            return Err(PassFault::Memory);
        };
        let seen = self.locked.get_mut().seen(&self.words);
        Ok(self.made.pass(core, self.room, items, seen))
    }

    /// A secure monitor call of the pass's core.
    pub fn smc<R: Wait>(&self, rt: &R, pass: &mut Pass<N>, regs: Regs) -> Result<Outcome, CallFault>
        ensures ok { IfOk result (λ outcome.
            IsCalled pass.old pass.new (calls.Smc regs) (replies.Out outcome)) }
        ensures err { IfErr result (λ fault.
            IsRefused pass.old pass.new (calls.Smc regs) fault) }
        ensures answered { MatchResult result
            (λ outcome. IsAnswered N.board pass.old pass.new (calls.Smc regs) (replies.Out outcome))
            (λ fault. IsAnsweredFault N.board N.room pass.old pass.new (calls.Smc regs) fault) }
    {
        match self.call::<R, Regs>(rt, pass, FwCall::Smc(regs)) {
            Ok(FwReply::Out(outcome)) => Ok(outcome),
            Ok(FwReply::Fault(fault)) => Err(CallFault::Fw(fault)),
            Ok(FwReply::Taken(_)) => unreachable!(),
            Err(BookFull) => Err(CallFault::BookFull),
        }
    }

    /// The pass's core enters by this start.
    pub fn enter<R: Wait>(
        &self,
        rt: &R,
        pass: &mut Pass<N>,
        start: Start,
    ) -> Result<Outcome, CallFault>
        ensures ok { IfOk result (λ outcome.
            IsCalled pass.old pass.new (calls.Enter start) (replies.Out outcome)) }
        ensures err { IfErr result (λ fault.
            IsRefused pass.old pass.new (calls.Enter start) fault) }
        ensures answered { MatchResult result
            (λ outcome. IsAnswered N.board pass.old pass.new
            (calls.Enter start) (replies.Out outcome))
            (λ fault. IsAnsweredFault N.board N.room pass.old pass.new (calls.Enter start) fault) }
    {
        match self.call::<R, Start>(rt, pass, FwCall::Enter(start)) {
            Ok(FwReply::Out(outcome)) => Ok(outcome),
            Ok(FwReply::Fault(fault)) => Err(CallFault::Fw(fault)),
            Ok(FwReply::Taken(_)) => unreachable!(),
            Err(BookFull) => Err(CallFault::BookFull),
        }
    }

    /// The firmware takes an acknowledgement of the power controller.
    pub fn take<R: Wait>(&self, rt: &R, pass: &mut Pass<N>, ack: Ack) -> Result<Taken, BookFull>
        ensures ok { IfOk result (λ taken.
            IsCalled pass.old pass.new (calls.Take ack) (replies.Taken taken)) }
        ensures answered { IfOk result (λ taken.
            IsAnswered N.board pass.old pass.new (calls.Take ack) (replies.Taken taken)) }
        ensures full { OnErr result (IsFull N.board N.room pass.new) }
        ensures err { OnErr result (pass.new ≡ told pass.old) }
    {
        match self.call::<R, Ack>(rt, pass, FwCall::Take(ack)) {
            Ok(FwReply::Taken(taken)) => Ok(taken),
            Ok(_) => unreachable!(),
            Err(BookFull) => Err(BookFull),
        }
    }

    /// What AFFINITY_INFO answers for a core, by one load of its status word: no lock is taken, and
    /// nothing is entered.
    pub fn affinity_core(&self, pass: &mut Pass<N>, word: u64) -> Code
        ensures { IsAffinity (core_of N.board word) pass.old pass.new result }
    {
        match self.board.core_of(word) {
            Some(core) => pass.read(&self.words, core).status.code(),
            None => Code::INVALID_PARAMETERS,
        }
    }

    /// The same, with the core and the serial of its status: what it saw, if the word names a core.
    pub fn poll(&self, pass: &mut Pass<N>, word: u64) -> Option<Sighting>
        ensures seen { IsPolled (core_of N.board word) pass.old pass.new result }
        ensures on_board { IfSome result (λ s. s.core.number < cores N.board) }
    {
        let core = self.board.core_of(word)?;
        let Reading { serial, status } = pass.read(&self.words, core);
        Some(Sighting {
            core,
            serial,
            status,
        })
    }

    /// Looks at the entries of the book while the lock is held. The status of a core is read
    /// meanwhile, too.
    pub fn look<R: Wait, T, F: FnOnce(&[FwEntry]) -> T>(&self, rt: &R, f: F) -> T
        requires { F.IsAlwaysCallable f }
        ensures { (entries : List FwEntry) × IsLegal N.board (history_of entries)
            × FnOnceReturnsAt F.FnOnce f entries result }
    {
        let locked = self.locked.lock(rt);
        f(locked.book.entries())
    }

    /// What the lock guarded, the status words and how many passes were made, once no thread has
    /// the firmware any more.
    pub(crate) fn into_parts(self) -> (FwLocked<N>, StatusWords, Made<N>)
        ensures words { (result.1 ≡ self.entry.words) × (table result.1 ≡ N.table) }
        ensures made { result.2 ≡ self.entry.made }
    {
        let SharedFirmware {
            locked,
            words,
            tickets: _,
            board: _,
            alloc: _,
            room: _,
            made,
        } = self;
        (locked.into_inner(), words, made)
    }

    /// A call for the pass's core, under the lock. Where nobody holds it, it is taken at once. `A`
    /// is what is asked: this is compiled once for each kind of call, and then asks no more which
    /// it is.
    fn call<R: Wait, A>(
        &self,
        rt: &R,
        pass: &mut Pass<N>,
        call: FwCall,
    ) -> Result<FwReply, BookFull>
        ensures ok { IfOk result (λ reply. IsCalled pass.old pass.new call reply) }
        ensures answered { IfOk result (λ reply.
            IsAnswered N.board pass.old pass.new call reply) }
        ensures full { OnErr result (IsFull N.board N.room pass.new) }
        ensures fits { IfOk result (λ reply. Fits call reply) }
        ensures err { OnErr result (pass.new ≡ told pass.old) }
    {
        let mut locked = match self.locked.try_lock() {
            Some(locked) => locked,
            None => self.locked.lock(rt),
        };
        let ticket = self.tickets.draw();
        locked.call_of::<A>(&self.words, ticket, pass, call)
    }
}
