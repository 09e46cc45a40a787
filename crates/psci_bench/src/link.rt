//! What the link thread does: it takes frames, and loses, repeats and reorders them by the seed.

ghost use Rattle.std.specs.Prelude.{◌≡◌, ◌<◌, length};
ghost use Rattle.psci_link.specs.Frame.{IsOf};
ghost use Rattle.psci_link.specs.declared.encoding.Frame.TheVariants as frames;

use crate::gathering::Cut;
use crate::outstanding::Outstanding;
use crate::platform::{Ending, Platform, Returned, fault_of};
use crate::watch::Watch;
use crate::wire::Bytes;
use psci_link::{Frame, decode, encode};
use psci_messages::Message;
use psci_shared::{Core, CtlPass, Delivery, Named};
use psci_storm::Draws;
use std::alloc::{AllocError, Global};
use std::sync::Wait;
use std::thread;

/// Frames of a core are lost so often in a row at most.
const LOSSES: u32 = 10;

/// The link draws the next frame among so many.
const CHOICE: u32 = 4;

/// What the link thread has.
#[derive(Drop)]
pub(crate) struct Link<N: Named, M: Named> {
    watch: Watch<N>,
    asked: CtlPass<M>,
    draws: Draws,
    carried: Vec<Carried>,
    /// The core of each frame that was lost, the first first. What is outstanding of it is sent
    /// again.
    lost: Vec<Core>,
    /// How often in a row frames of each core were lost.
    losses: Vec<u32>,
    /// What the firmware waits for to be acknowledged.
    outstanding: Outstanding,
}

/// A frame that the link carries.
#[derive(Drop)]
struct Carried {
    bytes: Bytes,
    /// Whether it is to arrive twice yet.
    twice: bool,
}

impl<N: Named, M: Named> Link<N, M> {
    /// A link of so many cores, that carries nothing.
    pub(crate) fn new(
        alloc: Global,
        watch: Watch<N>,
        asked: CtlPass<M>,
        cores: u16,
        seed: u64,
    ) -> Result<Link<N, M>, AllocError> {
        let mut losses = Vec::with_capacity(alloc, usize::from(cores))?;
        for _ in 0..cores {
            losses.push(0)?;
        }
        Ok(Link {
            watch,
            asked,
            draws: Draws::of_thread(seed, 0),
            carried: Vec::new(alloc),
            lost: Vec::new(alloc),
            losses,
            outstanding: Outstanding::new(alloc, cores)?,
        })
    }

    /// Carries frames until all workers have ended and the last frame has arrived.
    pub(crate) fn run<R: Wait>(self, rt: &R, platform: &Platform<'_, N, M>) -> Returned<N, M> {
        let mut link = self;
        let ended = link.work(rt, platform);
        if ended.is_err() {
            platform.wire.give_up();
        }
        link.handed_back(fault_of(ended))
    }

    /// What the thread hands back that ends by this fault, or without one.
    pub(crate) fn handed_back(self, fault: Option<Cut>) -> Returned<N, M> {
        let Link {
            watch,
            asked,
            draws: _,
            carried: _,
            lost: _,
            losses: _,
            outstanding: _,
        } = self;
        Returned {
            watch,
            asked,
            core: None,
            fault,
        }
    }

    fn work<R: Wait>(&mut self, rt: &R, platform: &Platform<'_, N, M>) -> Result<(), Ending> {
        for _ in rt.forever() {
            if platform.wire.is_over() {
                return Ok(());
            }
            let all_ended = platform.wire.is_left();
            self.fetch(rt, platform)?;
            self.send_again(rt, platform)?;
            if self.is_idle() && all_ended {
                return Ok(());
            }
            self.carry(rt, platform)?;
        }
        unreachable!()
    }

    /// Whether it carries no frame, and nothing is to be sent again.
    fn is_idle(&self) -> bool {
        self.carried.is_empty() && self.lost.is_empty()
    }

    /// Takes all frames that were sent. One in eight arrives twice.
    fn fetch<R: Wait>(&mut self, rt: &R, platform: &Platform<'_, N, M>) -> Result<(), Ending> {
        for _ in rt.forever() {
            let Some(bytes) = platform.wire.next(rt) else {
                return Ok(());
            };
            let twice = self.draws.one_in(8);
            self.carried.push(Carried { bytes, twice })?;
        }
        unreachable!()
    }

    /// The message that is outstanding of the first core of which a frame was lost is sent again,
    /// if there is one; after a while, or at once where nothing else is carried.
    fn send_again<R: Wait>(&mut self, rt: &R, platform: &Platform<'_, N, M>) -> Result<(), Ending> {
        if self.lost.is_empty() || (!self.carried.is_empty() && !self.draws.one_in(4)) {
            return Ok(());
        }
        let core = self.lost.remove(0);
        let outstanding = &mut self.outstanding;
        platform
            .firmware
            .look(rt, |entries| outstanding.read(entries));
        if let Some(message) = self.outstanding.of(core) {
            let bytes = encode(&Frame::Message(message));
            let twice = false;
            self.carried.push(Carried { bytes, twice })?;
        }
        Ok(())
    }

    /// One of the first frames, whichever is drawn, is lost or arrives; where there is none the
    /// link waits.
    fn carry<R: Wait>(&mut self, rt: &R, platform: &Platform<'_, N, M>) -> Result<(), Ending> {
        if self.carried.is_empty() {
            thread::yield_now();
            return Ok(());
        }
        let bytes = self.draw();
        self.arrive(rt, platform, &bytes)
    }

    /// One of the first frames, whichever is drawn.
    fn draw(&mut self) -> Bytes
        requires { 0 < length self.old.carried.items }
    {
        let drawn = self.draws.below(CHOICE) as usize;
        let place = drawn.min(self.carried.len() - 1);
        let carried = &mut self.carried[place];
        let bytes = carried.bytes;
        if carried.twice {
            carried.twice = false;
        } else {
            self.carried.remove(place);
        }
        bytes
    }

    /// A frame is read.
    fn arrive<R: Wait>(
        &mut self,
        rt: &R,
        platform: &Platform<'_, N, M>,
        bytes: &Bytes,
    ) -> Result<(), Ending> {
        let Ok(frame) = decode(bytes, platform.board) else {
            return Ok(());
        };
        self.receive(rt, platform, &frame)
    }

    /// A frame is received, or was lost on its way.
    fn receive<R: Wait>(
        &mut self,
        rt: &R,
        platform: &Platform<'_, N, M>,
        frame: &Frame,
    ) -> Result<(), Ending>
        requires { IsOf M.board frame.now }
    {
        let core = match frame {
            Frame::Message(message) => message.core,
            Frame::Ack(ack) => ack.core,
        };
        if self.loses(core) {
            self.lost.push(core)?;
            return Ok(());
        }
        self.hand_on(rt, platform, frame)
    }

    /// Whether a frame of this core is lost: one in three is, and not too many in a row.
    fn loses(&mut self, core: Core) -> bool {
        let is_lost = self.draws.one_in(3);
        let Some(losses) = self.losses.get_mut(usize::from(core.number)) else {
            return false;
        };
        if is_lost && *losses < LOSSES {
            *losses += 1;
            return true;
        }
        *losses = 0;
        false
    }

    /// The power controller has a message, or the firmware an acknowledgement.
    fn hand_on<R: Wait>(
        &mut self,
        rt: &R,
        platform: &Platform<'_, N, M>,
        frame: &Frame,
    ) -> Result<(), Ending>
        requires { IsOf M.board frame.now }
    {
        match frame {
            Frame::Message(message) => self.deliver(rt, platform, message),
            Frame::Ack(ack) => {
                let _taken = self.watch.take(rt, platform.firmware, ack.copy());
                Ok(())
            }
        }
    }

    /// A message is delivered; its acknowledgement is sent.
    #[tactic(auto, using(crate::proofs::Sendable::sendable))]
    fn deliver<R: Wait>(
        &mut self,
        rt: &R,
        platform: &Platform<'_, N, M>,
        message: &Message,
    ) -> Result<(), Ending>
        requires { IsOf M.board (frames.Message message.now) }
    {
        // A message that is looked at is as every message has to be.
        let _kind = message.kind;
        // Nothing is sent where the message is ignored or the book is full.
        let delivered = platform.controller.deliver(rt, &mut self.asked, message);
        let Ok(Delivery::Applied(ack)) = delivered else {
            return Ok(());
        };
        if platform.wire.send(rt, &Frame::Ack(ack)) {
            Ok(())
        } else {
            Err(Ending::Memory)
        }
    }
}
