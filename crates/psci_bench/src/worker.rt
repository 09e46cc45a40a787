//! What a core's thread does.

ghost use Rattle.std.specs.Prelude.{◌<◌};
ghost use Rattle.psci_fw.specs.psci_board.Board.{cores};

use crate::gate::Gate;
use crate::gathering::Cut;
use crate::platform::{Ending, Platform, Returned, fault_of};
use crate::watch::Watch;
use psci_fw::{Act, Outcome};
use psci_link::Frame;
use psci_shared::{CallFault, Core, CtlPass, Named};
use psci_storm::Draws;
use std::sync::Wait;

/// A worker waits so many turns in a row at most.
pub(crate) const TURNS: u32 = 4_000_000;

/// What a core's thread has.
#[derive(Drop)]
pub(crate) struct Worker<N: Named, M: Named> {
    pub(crate) watch: Watch<N>,
    pub(crate) asked: CtlPass<M>,
    pub(crate) core: Core,
    pub(crate) draws: Draws,
    pub(crate) state: State,
    /// The number of the start by which the core entered last, 0 before it entered.
    pub(crate) entered: u32,
    /// Whether it counts among those that are up.
    pub(crate) is_up: bool,
    ghost on_board: { core.number < cores M.board },
}

/// What a worker knows of its core.
#[derive(Clone, Copy, Debug, PartialEq, Eq)]
pub(crate) enum State {
    /// It runs.
    Running,
    /// It suspends, and wakes by itself.
    Asleep,
    /// It is off until another core asks it on.
    Off,
}

impl<N: Named, M: Named> Worker<N, M> {
    /// A core that has not entered.
    pub(crate) fn new(watch: Watch<N>, asked: CtlPass<M>, core: Core, seed: u64) -> Worker<N, M>
        requires { core.number < cores M.board }
    {
        Worker {
            watch,
            asked,
            core,
            draws: Draws::of_thread(seed, u64::from(core.number) + 1),
            state: State::Off,
            entered: 0,
            is_up: core.number == 0,
        }
    }

    /// Makes the core's calls. A worker that has to stop before it has made them ends the run.
    pub(crate) fn run<R: Wait, G: Gate>(
        self,
        rt: &R,
        platform: &Platform<'_, N, M>,
        gate: &G,
    ) -> Returned<N, M> {
        let mut worker = self;
        let ended = worker.work(rt, platform, gate);
        if ended.is_err() {
            platform.wire.give_up();
        }
        platform.wire.set_waiting(worker.core, false);
        if worker.is_up {
            platform.wire.step_out();
        }
        platform.wire.leave();
        worker.handed_back(fault_of(ended))
    }

    /// What the thread hands back that ends by this fault, or without one.
    pub(crate) fn handed_back(self, fault: Option<Cut>) -> Returned<N, M> {
        let Worker {
            watch,
            asked,
            core,
            draws: _,
            state: _,
            entered: _,
            is_up: _,
        } = self;
        Returned {
            watch,
            asked,
            core: Some(core),
            fault,
        }
    }

    fn work<R: Wait, G: Gate>(
        &mut self,
        rt: &R,
        platform: &Platform<'_, N, M>,
        gate: &G,
    ) -> Result<(), Ending> {
        for call in 0..platform.count {
            self.reset_now_and_then(rt, platform, call)?;
            self.arrive(rt, platform, call)?;
            self.call(rt, platform, gate, call)?;
        }
        Ok(())
    }

    /// Whether the core may go off before this call: only in the first three quarters of its calls,
    /// and only if it can be started twice yet.
    pub(crate) fn may_go_off(&self, platform: &Platform<'_, N, M>, call: u64) -> bool {
        let is_early = call < platform.count - platform.count / 4;
        call > 1 && is_early && self.has_starts(platform)
    }

    /// Whether the core can be started twice yet: once to no avail, and once since it is asked on.
    pub(crate) fn has_starts(&self, platform: &Platform<'_, N, M>) -> bool {
        platform.board.start_limit().saturating_sub(self.entered) >= 2
    }

    /// The core waits to be asked on, if another one is up that can do so.
    pub(crate) fn step_down(&mut self, platform: &Platform<'_, N, M>) -> bool {
        platform.wire.set_waiting(self.core, true);
        let is_down = platform.wire.step_down();
        if is_down {
            self.is_up = false;
        } else {
            platform.wire.set_waiting(self.core, false);
        }
        is_down
    }

    /// Sends the message of an outcome. Where the outcome is a stop, the core has stopped so.
    pub(crate) fn go_on<R: Wait>(
        &mut self,
        rt: &R,
        platform: &Platform<'_, N, M>,
        answered: Result<Outcome, CallFault>,
        stopped: State,
    ) -> Result<(), Ending> {
        let Ok(Outcome { act, message }) = answered else {
            return Err(Ending::Early);
        };
        if let Some(message) = message
            && !platform.wire.send(rt, &Frame::Message(message))
        {
            return Err(Ending::Memory);
        }
        self.state = match act {
            Act::Stop => stopped,
            _ => State::Running,
        };
        Ok(())
    }
}
