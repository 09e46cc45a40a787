//! The power controller's book.

use crate::controller::entry::{CtlEntry, CtlItem, is_same_call, is_same_reply};
use crate::{Answers, Board, BookFull, BookOf, Core, Memory, Named};
use psci_ctl::{Controller, CtlCall, CtlReply, Start, law_values};
use std::alloc::Global;

/// A power controller and its book. Each reply in it is the one reply after the entries before.
pub type CtlBook<N> = BookOf<N, Controller>;

impl Answers for Controller {
    ghost use Rattle.psci_shared.specs.Places.{Has, IsTold};

    type Core = ();

    type Call = CtlCall;

    type Reply = CtlReply;

    ghost Has = { λ b c entries. Has b c entries };

    ghost IsTold = { λ b entries. IsTold b entries };

    #[tactic(auto, using(crate::proofs::Crossing::controls_none))]
    fn open(alloc: Global, board: &Board) -> Result<Controller, Memory> {
        law_values();
        Controller::new(alloc, board)
    }

    fn is_of(entry: &CtlEntry, _core: &(), item: &CtlItem) -> bool {
        let same_call = is_same_call(&entry.call, &item.call);
        let same_reply = is_same_reply(&entry.reply, &item.reply);
        same_call && same_reply
    }
}

ghost use Rattle.std.specs.Prelude.{◌≡◌, ◌<◌, length, IfOk, OnOk, OnErr};
ghost use Rattle.psci_board.specs.Board.{cores};
ghost use Rattle.psci_ctl.specs.Seen.{seen};
ghost use Rattle.psci_ctl.specs.psci_ctl_spec.Replies.{after, last_start, reply};
ghost use Rattle.psci_ctl.specs.psci_ctl_spec.History.{IsCall, IsLegal, values_of};
ghost use Rattle.psci_shared.specs.Places.{entered, entry, Fits, history_of, IsReply};

impl<N: Named> CtlBook<N> {
    /// Carries out a call of this board and enters it, unless the book is full.
    #[tactic(auto, using(crate::proofs::Crossing::controls_more))]
    pub fn step(&mut self, ticket: u64, call: CtlCall) -> Result<CtlReply, BookFull>
        requires { IsCall N.board call }
        ensures reply { IfOk result (λ reply. IsReply N.board self.old.entries call reply) }
        ensures ok { IfOk result (λ reply. self.new
            ≡ entered self.old (entry ticket call reply)) }
        ensures room { OnOk result (length self.old.entries < self.old.room) }
        ensures full { OnErr result
            ((length self.old.entries ≡ self.old.room) × (self.new ≡ self.old)) }
    {
        if self.entries.len() == self.room as usize {
            return Err(BookFull);
        }
        law_values();
        let reply = ask(&mut self.machine, &call);
        self.entries.push_reserved(CtlEntry {
            ticket,
            core: (),
            call,
            reply: reply.copy(),
        });
        Ok(reply)
    }

    /// The last start of a core in this life, if there is a life and a start.
    pub fn started(&self, core: Core) -> Option<Start>
        requires { core.number < cores N.board }
        ensures last { result
            ≡ last_start (values_of N.board (history_of self.now.entries)) core.number }
        ensures legal { IsLegal N.board (history_of self.now.entries) }
    {
        self.machine.started(core)
    }
}

/// The power controller's reply to a call.
fn ask(controller: &mut Controller, call: &CtlCall) -> CtlReply
    requires { IsCall controller.old.board call.now }
    ensures reply { result ≡ reply controller.old.board (seen controller.old) call.now }
    ensures fits { Fits call.now result }
    ensures after { seen controller.new
        ≡ after controller.old.board call.now result (seen controller.old) }
    ensures board { controller.new.board ≡ controller.old.board }
{
    match call {
        CtlCall::Deliver(message) => CtlReply::Delivery(controller.deliver(message)),
        CtlCall::Wake(core, halted) => CtlReply::Kick(controller.wake(*core, *halted)),
        CtlCall::Reset(core) => CtlReply::Kick(controller.reset(*core)),
    }
}
