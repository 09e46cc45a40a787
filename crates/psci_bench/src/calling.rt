//! The calls of a core: it looks at another core, and then calls.

ghost use Rattle.std.specs.Prelude.{◌<◌};

use crate::calls::request_of;
use crate::gate::Gate;
use crate::platform::{Ending, Platform};
use crate::worker::{State, TURNS, Worker};
use psci_abi::Request;
use psci_fw::{Act, Code, Outcome};
use psci_shared::{CallFault, Core, Named, Status};
use psci_storm::affinity;
use std::sync::Wait;
use std::thread;

/// What CPU_ON answers that was accepted.
const SUCCESS: Code = Code(0);

impl<N: Named, M: Named> Worker<N, M> {
    /// The core calls, if the gate lets it.
    pub(crate) fn call<R: Wait, G: Gate>(
        &mut self,
        rt: &R,
        platform: &Platform<'_, N, M>,
        gate: &G,
        call: u64,
    ) -> Result<(), Ending> {
        if !gate.may(self.core, call) {
            return Err(Ending::Gate);
        }
        let request = self.next_request(platform, call)?;
        let answered = self.ask(rt, platform, request);
        gate.done(self.core, call);
        let stopped = match request {
            Request::CpuOff => State::Off,
            _ => State::Asleep,
        };
        self.go_on(rt, platform, answered, stopped)
    }

    /// The firmware's answer. A core that is asked on counts among those that are up, from before
    /// the call on.
    fn ask<R: Wait>(
        &mut self,
        rt: &R,
        platform: &Platform<'_, N, M>,
        request: Request,
    ) -> Result<Outcome, CallFault> {
        let asks_on = matches!(request, Request::CpuOn { .. });
        if asks_on {
            platform.wire.step_up();
        }
        let answered = self
            .watch
            .smc(rt, platform.firmware, request.registers(true));
        if asks_on && !is_accepted(&answered) {
            platform.wire.step_out();
        }
        answered
    }

    /// What the core calls. It looks at another core before, and mostly asks it on if it waits.
    fn next_request(
        &mut self,
        platform: &Platform<'_, N, M>,
        call: u64,
    ) -> Result<Request, Ending> {
        if call < 2 {
            return Ok(request_of(&mut self.draws, platform.board, self.core, call, false));
        }
        if call == platform.count.saturating_sub(1) {
            return self.last_request(platform);
        }
        if let Some(core) = self.look_at_another(platform)?
            && !self.draws.one_in(4)
        {
            return Ok(self.asks_on(platform, core));
        }
        Ok(self.drawn_request(platform, call))
    }

    /// A call that is drawn. The core goes off only where another one is up.
    fn drawn_request(&mut self, platform: &Platform<'_, N, M>, call: u64) -> Request {
        let may_go_off = self.may_go_off(platform, call);
        match request_of(&mut self.draws, platform.board, self.core, call, may_go_off) {
            Request::CpuOff if !self.step_down(platform) => Request::Version,
            request => request,
        }
    }

    /// The last call: if no other core is up, it asks one on that waits, once that is off.
    fn last_request(&mut self, platform: &Platform<'_, N, M>) -> Result<Request, Ending> {
        for _ in 0..TURNS {
            if platform.wire.is_over() {
                return Err(Ending::Early);
            }
            if let Some(request) = self.last_request_yet(platform)? {
                return Ok(request);
            }
            thread::yield_now();
        }
        Err(Ending::Early)
    }

    /// The last call, unless the core that it asks on is not off yet.
    fn last_request_yet(
        &mut self,
        platform: &Platform<'_, N, M>,
    ) -> Result<Option<Request>, Ending> {
        if platform.wire.step_down() {
            self.is_up = false;
            return Ok(Some(Request::Version));
        }
        let Some(core) = first_waiting(platform) else {
            return Ok(Some(Request::Version));
        };
        if self.is_off(platform, core)? {
            return Ok(Some(self.asks_on(platform, core)));
        }
        Ok(None)
    }

    /// A core is asked on.
    fn asks_on(&mut self, platform: &Platform<'_, N, M>, core: Core) -> Request {
        Request::CpuOn {
            target: affinity(platform.board, core.number),
            entry: platform.board.boot(),
            context: self.draws.word(),
        }
    }

    /// Looks at any core without the lock: which one, if it is another one that is off and waits.
    fn look_at_another(&mut self, platform: &Platform<'_, N, M>) -> Result<Option<Core>, Ending> {
        let number = self.draws.core(platform.board.cores());
        let Some(core) = platform.board.core(number) else {
            return Ok(None);
        };
        let is_off = self.is_off(platform, core)?;
        Ok((is_off && core != self.core && platform.wire.is_waiting(core)).then_some(core))
    }

    /// Whether a core is off, by its status, which is read without the lock.
    pub(crate) fn is_off(
        &mut self,
        platform: &Platform<'_, N, M>,
        core: Core,
    ) -> Result<bool, Ending> {
        let word = affinity(platform.board, core.number);
        let status = self.watch.poll(platform.firmware, word)?;
        Ok(status == Some(Status::Off))
    }
}

/// The first core that waits to be asked on.
fn first_waiting<N: Named, M: Named>(platform: &Platform<'_, N, M>) -> Option<Core> {
    (0..platform.board.cores())
        .map(|number| Core { number })
        .find(|core| platform.wire.is_waiting(*core))
}

/// Whether a call was answered SUCCESS.
fn is_accepted(answered: &Result<Outcome, CallFault>) -> bool {
    match answered {
        Ok(Outcome { act, message: _ }) => *act == Act::Return(SUCCESS),
        Err(_) => false,
    }
}
