//! The story of two threads with a pass each.

use crate::passes::{ENTERS, FIRST, VERSION};
use psci_fw::{Act, Code, FwFault};
use psci_shared::{CallFault, Core, Named, Pass, SharedFirmware};
use std::alloc::Global;
use std::sync::Wait;
use std::thread;
use std::thread::Threads;

/// Core 0 enters and calls so many times, while core 1 calls as often without having entered: each
/// gets its own answers whatever the order, and each entry of the book is in one pass.
pub(crate) fn two_threads<N: Named + Send + Sync, R: Threads + Wait + Sync>(
    rt: &R,
    alloc: Global,
    mut shared: SharedFirmware<'_, N>,
    calls: u32,
) -> Option<bool> {
    let first = shared.pass(Core { number: 0 }).ok()?;
    let second = shared.pass(Core { number: 1 }).ok()?;
    let lock = &shared;
    let ((first, answered), (second, refused)) = thread::join(
        rt,
        move || enters_and_calls(rt, lock, first, calls),
        move || is_refused(rt, lock, second, calls),
    );
    let each = calls as usize;
    let counted = first.items().len() == each + 1 && second.items().len() == each;
    let entries = gathered(alloc, shared, first, second)?;
    Some(answered && refused && counted && entries == 2 * each + 1)
}

/// How many entries the book has once both passes are gathered.
fn gathered<N: Named>(
    alloc: Global,
    shared: SharedFirmware<'_, N>,
    first: Pass<N>,
    second: Pass<N>,
) -> Option<usize> {
    let mut passes = Vec::with_capacity(alloc, 2).ok()?;
    passes.push(first).ok()?;
    passes.push(second).ok()?;
    let books = shared.gather(passes).ok()?;
    Some(books.book.len() as usize)
}

/// An entry and so many calls of PSCI_VERSION, and whether each had its answer.
fn enters_and_calls<N: Named, R: Wait>(
    rt: &R,
    shared: &SharedFirmware<'_, N>,
    pass: Pass<N>,
    calls: u32,
) -> (Pass<N>, bool) {
    let mut pass = pass;
    let mut right = match shared.enter(rt, &mut pass, FIRST) {
        Ok(outcome) => outcome.act == ENTERS,
        Err(_) => false,
    };
    for _ in 0..calls {
        right &= match shared.smc(rt, &mut pass, VERSION) {
            Ok(outcome) => outcome.act == Act::Return(Code(65537)),
            Err(_) => false,
        };
    }
    (pass, right)
}

/// So many calls of a core that has not entered, and whether each was refused: by a firmware
/// without a life, or because the core does not run.
fn is_refused<N: Named, R: Wait>(
    rt: &R,
    shared: &SharedFirmware<'_, N>,
    pass: Pass<N>,
    calls: u32,
) -> (Pass<N>, bool) {
    let mut pass = pass;
    let mut right = true;
    for _ in 0..calls {
        right &= match shared.smc(rt, &mut pass, VERSION) {
            Err(CallFault::Fw(fault)) => fault == FwFault::NoLife || fault == FwFault::NotRunning,
            _ => false,
        };
    }
    (pass, right)
}
