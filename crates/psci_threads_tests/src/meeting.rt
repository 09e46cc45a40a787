//! A gate at which two cores meet.

use psci_bench::{Core, Gate};
use std::sync::atomic::{AtomicBool, Ordering};
use std::thread;

/// Lets call 1 of core 0 and call 1 of core 1 go on once both are asked. Each waits 250,000 turns
/// at most, and then the answer is no. All other calls may be made.
#[derive(Drop)]
pub(crate) struct Meeting {
    first: AtomicBool,
    second: AtomicBool,
}

impl Meeting {
    /// No core has come.
    pub(crate) fn new() -> Meeting {
        Meeting {
            first: AtomicBool::new(false),
            second: AtomicBool::new(false),
        }
    }
}

impl Gate for Meeting {
    fn may(&self, core: Core, call: u64) -> bool {
        if call != 1 {
            return true;
        }
        match core.number {
            0 => meets(&self.first, &self.second),
            1 => meets(&self.second, &self.first),
            _ => true,
        }
    }

    fn done(&self, _core: Core, _call: u64) {}
}

/// Says that one has come, and whether the other comes in time.
fn meets(one: &AtomicBool, other: &AtomicBool) -> bool {
    one.store(true, Ordering::SeqCst);
    for _ in 0..250_000u32 {
        if other.load(Ordering::SeqCst) {
            return true;
        }
        thread::yield_now();
    }
    false
}
