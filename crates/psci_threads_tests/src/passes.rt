//! Stories of one thread with its passes.

ghost use Rattle.std.specs.Prelude.{◌≡◌, IfSome};

use psci_fw::{Act, Cause, Code, FwFault, Outcome, Regs, Start};
use psci_messages::{Ack, Kind, Taken};
use psci_shared::{Books, CallFault, Core, GatherCause, Named, Pass, PassFault, SharedFirmware};
use std::alloc::Global;
use std::sync::Wait;

/// The boot core's first start.
pub(crate) const FIRST: Start = Start {
    life: 1,
    number: 1,
    cause: Cause::Boot,
};

/// What its entry answers: it goes on at the board's boot address.
pub(crate) const ENTERS: Act = Act::Enter {
    address: 0x4000_0000,
    context: 0,
};

/// PSCI_VERSION, which answers 65537.
pub(crate) const VERSION: Regs = Regs {
    x0: 0x8400_0000,
    x1: 0,
    x2: 0,
    x3: 0,
};

/// The last core is asked on, with context id 7.
const CPU_ON: Regs = Regs {
    x0: 0xc400_0003,
    x1: 0x101,
    x2: 0x4000_1000,
    x3: 7,
};

/// Its first start.
const ASKED_ON: Start = Start {
    life: 1,
    number: 1,
    cause: Cause::On,
};

/// CPU_OFF.
const CPU_OFF: Regs = Regs {
    x0: 0x8400_0002,
    ..VERSION
};

/// Core 0 enters at the board's boot address and calls, core 1 may not call; both are gathered, or
/// core 0's pass alone.
pub(crate) fn three_calls<N: Named, R: Wait>(
    rt: &R,
    alloc: Global,
    mut shared: SharedFirmware<'_, N>,
    both: bool,
) -> Option<bool> {
    let mut first = shared.pass(Core { number: 0 }).ok()?;
    let mut second = shared.pass(Core { number: 1 }).ok()?;
    shared.touch();
    first.touch();
    let right = are_answered(rt, &shared, &mut first, &mut second)?;
    let mut passes = Vec::with_capacity(alloc, 2).ok()?;
    passes.push(first).ok()?;
    if both {
        passes.push(second).ok()?;
    }
    match shared.gather(passes) {
        Ok(books) => Some(right && both && has_places(&books)),
        Err(fault) => {
            let is_told = fault.cause == GatherCause::Missing && fault.made == 2;
            Some(right && !both && is_told)
        }
    }
}

/// Whether core 0 enters and gets its version, and core 1 is refused, which does not run.
fn are_answered<N: Named, R: Wait>(
    rt: &R,
    shared: &SharedFirmware<'_, N>,
    first: &mut Pass<N>,
    second: &mut Pass<N>,
) -> Option<bool> {
    let entered = shared.enter(rt, first, FIRST).ok()?.act;
    let called = shared.smc(rt, first, VERSION).ok()?.act;
    let refused = shared.smc(rt, second, VERSION).err()?;
    Some(
        entered == ENTERS
            && called == Act::Return(Code(65537))
            && refused == CallFault::Fw(FwFault::NotRunning),
    )
}

/// Whether the first pass has the places 0 and 1 and the second one place 2.
fn has_places<N: Named>(books: &Books<N>) -> bool {
    let [first, second] = books.passes.as_slice() else {
        return false;
    };
    books.book.len() == 3 && places(first) == Some((0, 1)) && place(second) == Some(2)
}

fn places<N: Named>(pass: &Pass<N>) -> Option<(u32, u32)> {
    match pass.items() {
        [one, other] => Some((one.place, other.place)),
        _ => None,
    }
}

fn place<N: Named>(pass: &Pass<N>) -> Option<u32> {
    match pass.items() {
        [one] => Some(one.place),
        _ => None,
    }
}

/// A book with room for one entry takes one call, and no pass is made for a core of a larger board.
pub(crate) fn full_books<N: Named, R: Wait>(
    rt: &R,
    alloc: Global,
    mut shared: SharedFirmware<'_, N>,
) -> Option<bool> {
    let none = shared.pass(Core { number: 9 }).err()?;
    let mut first = shared.pass(Core { number: 0 }).ok()?;
    let entered = shared.enter(rt, &mut first, FIRST).is_ok();
    let right = none == PassFault::NoCore && entered;
    let entries = book_told_full(rt, alloc, shared, first)?;
    Some(right && entries == 1)
}

/// How many entries the book has that a call was told is full. By the public clauses alone they are
/// as many as there is room for, gathered or not.
fn book_told_full<N: Named, R: Wait>(
    rt: &R,
    alloc: Global,
    shared: SharedFirmware<'_, N>,
    pass: Pass<N>,
) -> Option<u32>
    ensures { IfSome result (λ entries. entries ≡ N.room) }
{
    let mut pass = pass;
    let Err(CallFault::BookFull) = shared.smc(rt, &mut pass, VERSION) else {
        return None;
    };
    let mut passes = Vec::with_capacity(alloc, 1).ok()?;
    passes.push(pass).ok()?;
    match shared.gather(passes) {
        Ok(books) => Some(books.book.len()),
        Err(fault) => Some(fault.locked.book.len()),
    }
}

/// A book without room refuses each call, and there are 1,000 passes at most.
pub(crate) fn too_many<N: Named, R: Wait>(
    rt: &R,
    alloc: Global,
    mut shared: SharedFirmware<'_, N>,
) -> Option<bool> {
    let mut passes = Vec::with_capacity(alloc, 1000).ok()?;
    for _ in 0..1000u32 {
        passes.push(shared.pass(Core { number: 0 }).ok()?).ok()?;
    }
    let none = shared.pass(Core { number: 0 }).err()?;
    let mut one = passes.pop()?;
    let refused = shared.smc(rt, &mut one, VERSION).err()?;
    Some(none == PassFault::TooMany && refused == CallFault::BookFull)
}

/// A core is OFF, ON_PENDING once it is asked on, which sends its message, and ON once it has
/// entered; a pass that made no call reads the same.
pub(crate) fn statuses_are_read<N: Named, R: Wait>(
    rt: &R,
    mut shared: SharedFirmware<'_, N>,
) -> Option<bool> {
    let mut first = shared.pass(Core { number: 0 }).ok()?;
    let mut other = shared.pass(Core { number: 1 }).ok()?;
    let before = shared.affinity_core(&mut other, 0);
    shared.enter(rt, &mut first, FIRST).ok()?;
    let own = shared.affinity_core(&mut first, 0);
    let off = shared.affinity_core(&mut first, 0x1);
    let Outcome { act, message } = shared.smc(rt, &mut first, CPU_ON).ok()?;
    let pending = shared.affinity_core(&mut first, 0x101);
    let seen = shared.affinity_core(&mut other, 0x101);
    let nobody = shared.affinity_core(&mut other, 0x200);
    let statuses = [before, own, off, pending, seen, nobody];
    let is_sent = message.is_some_and(|message| message.core.number == 3);
    Some(act == Act::Return(Code(0)) && is_sent && statuses == [1, 0, 1, 2, 2, -2].map(Code))
}

/// Entering is the third status of the boot core. An acknowledgement that nothing waits for leaves
/// its status and serial, before it and after it.
pub(crate) fn serials_stay<N: Named, R: Wait>(
    rt: &R,
    mut shared: SharedFirmware<'_, N>,
) -> Option<bool> {
    let mut pass = shared.pass(Core { number: 0 }).ok()?;
    let early = shared.take(rt, &mut pass, unasked()).ok()?;
    let first = shared.poll(&mut pass, 0)?.serial;
    shared.enter(rt, &mut pass, FIRST).ok()?;
    let entered = shared.poll(&mut pass, 0)?.serial;
    let late = shared.take(rt, &mut pass, unasked()).ok()?;
    let after = shared.poll(&mut pass, 0)?.serial;
    let others = shared.poll(&mut pass, 1)?.serial;
    let serials = [first, entered, after, others];
    Some(early == Taken::Old && late == Taken::Old && serials == [0, 2, 2, 0])
}

/// The last core is on until the power controller has taken it and its cluster down.
pub(crate) fn goes_off<N: Named, R: Wait>(
    rt: &R,
    mut shared: SharedFirmware<'_, N>,
) -> Option<bool> {
    let mut first = shared.pass(Core { number: 0 }).ok()?;
    let mut last = shared.pass(Core { number: 3 }).ok()?;
    shared.enter(rt, &mut first, FIRST).ok()?;
    shared.smc(rt, &mut first, CPU_ON).ok()?;
    shared.enter(rt, &mut last, ASKED_ON).ok()?;
    shared.smc(rt, &mut last, CPU_OFF).ok()?;
    let before = shared.affinity_core(&mut first, 0x101);
    let taken = shared.take(rt, &mut first, gone()).ok()?;
    let after = shared.affinity_core(&mut first, 0x101);
    Some(taken == Taken::Used && before == Code(0) && after == Code(1))
}

/// An acknowledgement of a message that the boot core has not sent.
fn unasked() -> Ack {
    Ack {
        kind: Kind::Start,
        core: Core { number: 0 },
        life: 1,
        number: 1,
        applied: 1,
        stale: false,
    }
}

/// The acknowledgement of the last core's Down, both of whose parts were applied.
fn gone() -> Ack {
    Ack {
        kind: Kind::Down,
        core: Core { number: 3 },
        life: 1,
        number: 1,
        applied: 2,
        stale: false,
    }
}
