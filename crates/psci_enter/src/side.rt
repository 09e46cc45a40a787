//! The firmware's side of a port, of one core.

ghost use Rattle.std.specs.Prelude.{◌≡◌, ℕ, false, true};
ghost use Rattle.psci_abi.specs.Calls.{request_of};
ghost use Rattle.psci_enter.specs.Orders.{called, entered, is_suspending};
ghost use Rattle.psci_enter.specs.Side.{at, found, fresh, heard, IsAsked, looked, may_look};
ghost use Rattle.psci_enter.specs.Side.{replied, reply_in, taking_up};
ghost use Rattle.psci_enter.specs.declared.post.Post.TheVariants as posts;
ghost use Rattle.psci_fw_spec.specs.declared.call.FwCall.TheVariants as calls;
ghost use Rattle.psci_fw_spec.specs.Answer.{reply_of};

use crate::order::{Look, Orders, Stop};
use crate::ordering::{called, entered, is_suspending, stop_by};
use crate::post::{Door, Post};
use psci_abi::Regs;
use psci_board::Core;
use psci_fw::Firmware;
use psci_fw_spec::{Act, Cause, FwFault, Outcome};
use psci_messages::Start;

/// The firmware's side of a port, as one core's monitor runs it. Its methods do nothing to the
/// machine: they order what is to be done. Those that ask the firmware are called with the lock in
/// hand, the others without it.
#[derive(Clone, Copy, Debug, PartialEq, Eq)]
pub struct FirmwareSide {
    /// The core.
    pub core: Core,
    /// Where the core's monitor is.
    pub post: Post,
    /// The number of the start that the core took up last, 0 in a new life.
    pub used: u32,
    /// The start in whose stop it told of a wake-up.
    pub told: u32,
    /// Why it was started last.
    pub cause: Cause,
    /// How it stands, where it does.
    pub stop: Stop,
}

impl FirmwareSide {
    /// The side of a core in a new life.
    pub fn new(core: Core) -> FirmwareSide
        ensures { result ≡ fresh core }
    {
        FirmwareSide {
            core,
            post: Post::Waiting,
            used: 0,
            told: 0,
            cause: Cause::Boot,
            stop: Stop::Off,
        }
    }

    /// Where the core's monitor is.
    pub fn post(&self) -> Post
        ensures { result ≡ self.now.post }
    {
        self.post
    }

    /// A look of a core that waits, at its door and at whether a wake-up is pending for it.
    pub fn look(&mut self, door: Door, pending: bool) -> Look
        requires { may_look self.old.post ≡ true }
        ensures found { result ≡ found self.old door pending }
        ensures looked { self.new ≡ looked result door self.old }
    {
        if door.opened != self.used {
            self.take_up(door);
            return Look::Enter;
        }
        if pending && self.stop == Stop::Suspended && self.told != self.used {
            self.told = self.used;
            return Look::Tell(self.used);
        }
        Look::Rest
    }

    /// It takes up what stands at its door.
    fn take_up(&mut self, door: Door)
        ensures { self.new ≡ taking_up door self.old }
    {
        self.used = door.opened;
        self.post = Post::Waiting;
        if let Some(start) = door.start {
            self.post = Post::Entering(start);
            self.cause = start.cause;
        }
    }

    /// The core enters the firmware by the start that it took up.
    pub fn enter(&mut self, firmware: &mut Firmware, start: Start) -> Orders
        requires { self.old.post ≡ posts.Entering start }
        ensures orders { result ≡ entered self.old.cause
            (reply_in firmware.old self.old.core.number (calls.Enter start)) }
        ensures side { self.new ≡ replied false
            (reply_in firmware.old self.old.core.number (calls.Enter start)) self.old }
        ensures asked { IsAsked self.old.core.number (calls.Enter start) firmware.old firmware.new }
    {
        let reply = firmware.enter(self.core, start);
        self.reply(false, &reply);
        entered(self.cause, reply)
    }

    /// A secure monitor call of the core with these registers, one of PSCI.
    pub fn call(&mut self, firmware: &mut Firmware, regs: Regs) -> Orders
        requires { self.old.post ≡ posts.Running }
        ensures orders { result ≡ called self.old.cause regs
            (reply_in firmware.old self.old.core.number (calls.Smc regs)) }
        ensures side { self.new ≡ replied (is_suspending (request_of regs))
            (reply_in firmware.old self.old.core.number (calls.Smc regs)) self.old }
        ensures asked { IsAsked self.old.core.number (calls.Smc regs) firmware.old firmware.new }
    {
        let reply = firmware.smc(self.core, regs);
        self.reply(is_suspending(regs), &reply);
        called(self.cause, regs, reply)
    }

    /// Where a reply leaves the core.
    fn reply(&mut self, suspended: bool, reply: &Result<Outcome, FwFault>)
        ensures { self.new ≡ replied suspended (reply_of reply.now) self.old }
    {
        let Ok(outcome) = reply else {
            return;
        };
        self.stop = stop_by(suspended, outcome.message.as_ref());
        self.post = match outcome.act {
            Act::Stop => Post::Leaving,
            _ => Post::Running,
        };
    }

    /// The core is about to stand, and has given the lock back: the word that it says, last of all.
    /// From here on it executes nothing but its looks, between which its power may go.
    pub fn stands(&mut self) -> u32
        requires { self.old.post ≡ posts.Leaving }
        ensures word { result ≡ self.old.used }
        ensures side { self.new ≡ at posts.Waiting self.old }
    {
        self.post = Post::Waiting;
        self.used
    }

    /// The same with the lock in hand, where the power controller is in the monitors: the core's
    /// power goes at its WFI, and no earlier.
    pub fn arms(&mut self) -> u32
        requires { self.old.post ≡ posts.Leaving }
        ensures word { result ≡ self.old.used }
        ensures side { self.new ≡ at posts.Armed self.old }
    {
        self.post = Post::Armed;
        self.used
    }

    /// An armed core comes to its WFI.
    pub fn sleeps(&mut self)
        requires { self.old.post ≡ posts.Armed }
        ensures { self.new ≡ at posts.Waiting self.old }
    {
        self.post = Post::Waiting;
    }

    /// An interrupt has ended the WFI of a core that was armed before it.
    pub fn rouses(&mut self)
        requires { self.old.post ≡ posts.Waiting }
        ensures { self.new ≡ at posts.Armed self.old }
    {
        self.post = Post::Armed;
    }

    /// An armed core has told its own wake-up, with the lock in hand; it was started, or not.
    pub fn rises(&mut self, started: bool)
        requires { self.old.post ≡ posts.Armed }
        ensures { self.new ≡ at (heard started) self.old }
    {
        self.post = if started { Post::Woken } else { Post::Armed };
    }

    /// A core that woke itself has given the lock back, and goes to its door.
    pub fn turns(&mut self)
        requires { self.old.post ≡ posts.Woken }
        ensures { self.new ≡ at posts.Waiting self.old }
    {
        self.post = Post::Waiting;
    }

    /// The core comes out of a reset of its own: whatever it did is cut off, and it goes to its
    /// door.
    pub fn comes_back(&mut self)
        ensures { self.new ≡ at posts.Waiting self.old }
    {
        self.post = Post::Waiting;
    }
}
