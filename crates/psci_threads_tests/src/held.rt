//! A status is read while another thread holds the lock.

use crate::passes::FIRST;
use psci_fw::Code;
use psci_shared::{Core, Named, Pass, SharedFirmware};
use std::sync::Wait;
use std::sync::atomic::{AtomicBool, Ordering};
use std::thread;
use std::thread::Threads;

/// A thread looks at the book, and keeps the lock until another one has polled the last core: the
/// poll is answered meanwhile.
pub(crate) fn poll_while_held<N: Named + Send + Sync, R: Threads + Wait + Sync>(
    rt: &R,
    mut shared: SharedFirmware<'_, N>,
) -> Option<bool> {
    let mut first = shared.pass(Core { number: 0 }).ok()?;
    let second = shared.pass(Core { number: 1 }).ok()?;
    let _entered = shared.enter(rt, &mut first, FIRST);
    let is_held = AtomicBool::new(false);
    let is_polled = AtomicBool::new(false);
    let (lock, held, polled) = (&shared, &is_held, &is_polled);
    let (waited, code) = thread::join(
        rt,
        move || lock.look(
            rt,
            |entries| holds_until(held, polled) && entries.len() == 1,
        ),
        move || polls_once(lock, second, held, polled),
    );
    Some(waited && code == Some(Code(1)))
}

/// Says that the lock is held, and waits until the other thread has polled.
fn holds_until(held: &AtomicBool, polled: &AtomicBool) -> bool {
    held.store(true, Ordering::SeqCst);
    is_soon(polled)
}

/// Polls the last core once the lock is held, and says so.
fn polls_once<N: Named>(
    shared: &SharedFirmware<'_, N>,
    pass: Pass<N>,
    held: &AtomicBool,
    polled: &AtomicBool,
) -> Option<Code> {
    if !is_soon(held) {
        return None;
    }
    let mut pass = pass;
    let code = shared.affinity_core(&mut pass, 0x101);
    polled.store(true, Ordering::SeqCst);
    Some(code)
}

/// Whether it is set before the processor was given away ten million times.
fn is_soon(flag: &AtomicBool) -> bool {
    for _ in 0..10_000_000u32 {
        if flag.load(Ordering::SeqCst) {
            return true;
        }
        thread::yield_now();
    }
    false
}
