//! A pass, and what was seen by polls with it.

use psci_shared::{BookFull, CallFault, Named, Pass, SharedFirmware, Sighting, Status};
use std::marker::Model;

/// A pass that is polled with. It keeps what was seen, which the pass itself only knows.
#[derive(Drop)]
pub(crate) struct Watch<N: Named> {
    pass: Pass<N>,
    /// What was seen, the first first. Polls in a row that saw the same stand there once.
    seen: Vec<Sighting>,
    /// How often it was polled with.
    polls: u64,
}

impl<N: Named> Model for Watch<N> {
    ghost use Rattle.psci_bench.specs.Watches.{HaveAllSeen, WatchView};

    ghost Value = { WatchView };

    ghost view = { λ w. record { pass = w.pass; seen = w.seen.items } };

    ghost invariant = { λ w. HaveAllSeen N.board w.pass.seen w.seen.items };
}

ghost use Rattle.std.specs.Prelude.{◌≡◌, [], IfOk, Option};
ghost use Rattle.psci_shared.specs.declared.sighting.Sighting.{Sighting};
ghost use Rattle.psci_bench.specs.Watches.{HaveAllSeen, IsKept, IsSeenLast};

use psci_fw::{Outcome, Regs, Start, Taken};
use psci_messages::Ack;
use std::alloc::{AllocFailed, Global};
use std::sync::Wait;

impl<N: Named> Watch<N> {
    /// A pass that was not polled with.
    pub(crate) fn new(alloc: Global, pass: Pass<N>) -> Watch<N>
        ensures { result ≡ record { pass = pass; seen = [] } }
    {
        Watch {
            pass,
            seen: Vec::new(alloc),
            polls: 0,
        }
    }

    /// A secure monitor call of the pass's core.
    pub(crate) fn smc<R: Wait>(
        &mut self,
        rt: &R,
        firmware: &SharedFirmware<'_, N>,
        regs: Regs,
    ) -> Result<Outcome, CallFault>
        ensures { self.new.seen ≡ self.old.seen }
    {
        firmware.smc(rt, &mut self.pass, regs)
    }

    /// The pass's core enters by this start.
    pub(crate) fn enter<R: Wait>(
        &mut self,
        rt: &R,
        firmware: &SharedFirmware<'_, N>,
        start: Start,
    ) -> Result<Outcome, CallFault>
        ensures { self.new.seen ≡ self.old.seen }
    {
        firmware.enter(rt, &mut self.pass, start)
    }

    /// The firmware takes an acknowledgement.
    pub(crate) fn take<R: Wait>(
        &mut self,
        rt: &R,
        firmware: &SharedFirmware<'_, N>,
        ack: Ack,
    ) -> Result<Taken, BookFull>
        ensures { self.new.seen ≡ self.old.seen }
    {
        firmware.take(rt, &mut self.pass, ack)
    }

    /// The status of the core that a word names, without the lock. What was seen is kept.
    pub(crate) fn poll(
        &mut self,
        firmware: &SharedFirmware<'_, N>,
        word: u64,
    ) -> Result<Option<Status>, AllocFailed<Sighting>>
        ensures kept { IfOk result (λ status. (found : Option Sighting)
            × IsSeenLast found status self.new.seen) }
    {
        self.polls = self.polls.saturating_add(1);
        let found = firmware.poll(&mut self.pass, word);
        keep(&mut self.seen, found)
    }

    /// The pass, what was seen by polls with it, and how often it was polled with.
    pub(crate) fn into_parts(self) -> (Pass<N>, Vec<Sighting>, u64)
        ensures pass { result.0 ≡ self.pass }
        ensures seen { result.1.items ≡ self.seen }
        ensures kept { HaveAllSeen N.board result.0.seen result.1.items }
    {
        let Watch { pass, seen, polls } = self;
        (pass, seen, polls)
    }
}

/// Keeps what was seen, unless it is what was kept last.
#[tactic(auto, using(crate::proofs::Kept::last_pushed))]
fn keep(
    seen: &mut Vec<Sighting>,
    found: Option<Sighting>,
) -> Result<Option<Status>, AllocFailed<Sighting>>
    ensures last { IfOk result (λ status. IsSeenLast found status seen.new.items) }
    ensures kept { IsKept seen.old.items found seen.new.items }
{
    let Some(sighting) = found else {
        return Ok(None);
    };
    if let Some(last) = seen.last()
        && *last == sighting
    {
        return Ok(Some(sighting.status));
    }
    seen.push(sighting)?;
    Ok(Some(sighting.status))
}
