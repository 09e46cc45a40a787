//! How a core comes to run: it is started, woken or reset, and enters.

ghost use Rattle.std.specs.Prelude.{◌<◌};

use crate::platform::{Ending, Platform};
use crate::worker::{State, TURNS, Worker};
use psci_fw::Start;
use psci_shared::{Kick, Named};
use std::sync::Wait;
use std::thread;

/// An off core has a wake-up event of its own after so many turns at most.
const OFF_TURNS: u32 = 4096;

/// An off core asks the power controller for its last start once in so many turns at least.
const LOOKS: u32 = 64;

impl<N: Named, M: Named> Worker<N, M> {
    /// A running core is reset, once in many calls. It is off then, and waits.
    pub(crate) fn reset_now_and_then<R: Wait>(
        &mut self,
        rt: &R,
        platform: &Platform<'_, N, M>,
        call: u64,
    ) -> Result<(), Ending> {
        let may_reset = self.state == State::Running && self.may_go_off(platform, call);
        if !may_reset || !self.draws.one_in(64) || !self.step_down(platform) {
            return Ok(());
        }
        match platform.controller.reset(rt, &mut self.asked, self.core) {
            Ok(Kick::Started(start)) => self.enter_again(rt, platform, start),
            _ => Err(Ending::Early),
        }
    }

    /// Brings the core to run: it enters each time it is started.
    pub(crate) fn arrive<R: Wait>(
        &mut self,
        rt: &R,
        platform: &Platform<'_, N, M>,
        call: u64,
    ) -> Result<(), Ending> {
        let wakes_at = self.draws.below(OFF_TURNS);
        for turn in 0..TURNS {
            if platform.wire.is_over() {
                return Err(Ending::Early);
            }
            match self.state {
                State::Running => return Ok(()),
                State::Asleep => self.wake(rt, platform, call)?,
                State::Off => self.stay_off(rt, platform, turn, call > 1 && turn == wakes_at)?,
            }
        }
        Err(Ending::Early)
    }

    /// A turn of a core that is off. It ends early where all was still before and nobody asked it
    /// on.
    fn stay_off<R: Wait>(
        &mut self,
        rt: &R,
        platform: &Platform<'_, N, M>,
        turn: u32,
        may_wake: bool,
    ) -> Result<(), Ending> {
        let is_still = platform.wire.is_still();
        self.wait(rt, platform, turn, may_wake)?;
        if is_still && self.state == State::Off {
            return Err(Ending::Early);
        }
        Ok(())
    }

    /// A turn of a core that is off: it enters if it was asked on, or is woken to no avail.
    fn wait<R: Wait>(
        &mut self,
        rt: &R,
        platform: &Platform<'_, N, M>,
        turn: u32,
        may_wake: bool,
    ) -> Result<(), Ending> {
        let is_off = self.is_off(platform, self.core)?;
        if is_off && !may_wake && turn % LOOKS != 0 {
            thread::yield_now();
            return Ok(());
        }
        match platform.controller.started(rt, self.core) {
            Some(start) if start.number > self.entered => self.enter(rt, platform, start),
            _ if may_wake && self.has_starts(platform) => self.wake_off(rt, platform),
            _ => {
                thread::yield_now();
                Ok(())
            }
        }
    }

    /// A core that is off is woken. Where it was not asked on in between it stays off.
    fn wake_off<R: Wait>(&mut self, rt: &R, platform: &Platform<'_, N, M>) -> Result<(), Ending> {
        match platform
            .controller
            .wake(rt, &mut self.asked, self.core, self.entered)
        {
            Ok(Kick::Started(start)) => self.enter(rt, platform, start),
            // it was asked on in between
            Ok(Kick::Ignored) => Ok(()),
            Err(_) => Err(Ending::Early),
        }
    }

    /// A sleeping core is woken, or now and then reset.
    fn wake<R: Wait>(
        &mut self,
        rt: &R,
        platform: &Platform<'_, N, M>,
        call: u64,
    ) -> Result<(), Ending> {
        let may_reset = self.may_go_off(platform, call) && self.draws.one_in(16);
        if may_reset && self.step_down(platform) {
            return match platform.controller.reset(rt, &mut self.asked, self.core) {
                Ok(Kick::Started(start)) => self.enter_again(rt, platform, start),
                _ => Err(Ending::Early),
            };
        }
        match platform
            .controller
            .wake(rt, &mut self.asked, self.core, self.entered)
        {
            Ok(Kick::Started(start)) => self.enter(rt, platform, start),
            _ => Err(Ending::Early),
        }
    }

    /// The core enters by a reset. Where it goes on from there, it is up again.
    fn enter_again<R: Wait>(
        &mut self,
        rt: &R,
        platform: &Platform<'_, N, M>,
        start: Start,
    ) -> Result<(), Ending> {
        self.enter(rt, platform, start)?;
        if self.state == State::Running {
            platform.wire.step_up();
        }
        Ok(())
    }

    /// The core enters by its start. Where it does not go on from there, it is off. Who asked it on
    /// counts it among those that are up.
    fn enter<R: Wait>(
        &mut self,
        rt: &R,
        platform: &Platform<'_, N, M>,
        start: Start,
    ) -> Result<(), Ending> {
        let entered = self.watch.enter(rt, platform.firmware, start);
        self.entered = start.number;
        self.go_on(rt, platform, entered, State::Off)?;
        if self.state == State::Running {
            self.is_up = true;
            platform.wire.set_waiting(self.core, false);
        }
        Ok(())
    }
}
