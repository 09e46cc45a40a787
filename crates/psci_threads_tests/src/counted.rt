//! What is asked of the gate, and the calls of a run.

use crate::boards::ran;
use psci_bench::{BenchFault, Core, FwEntry, Gate};
use psci_fw::{FwCall, Regs};
use std::alloc::Global;
use std::sync::Wait;
use std::sync::atomic::{AtomicU64, Ordering};
use std::thread::Threads;

/// PSCI_VERSION.
const VERSION: Regs = Regs {
    x0: 0x8400_0000,
    x1: 0,
    x2: 0,
    x3: 0,
};

/// Core 1 is asked on at the boot address, with context id 1.
const CPU_ON: Regs = Regs {
    x0: 0xc400_0003,
    x1: 1,
    x2: 0x4000_0000,
    x3: 1,
};

/// A gate that is open, and counts.
#[derive(Drop)]
struct Counting {
    asked: AtomicU64,
    done: AtomicU64,
}

impl Gate for Counting {
    fn may(&self, _core: Core, _call: u64) -> bool {
        let _before = self.asked.fetch_add(1, Ordering::SeqCst);
        true
    }

    fn done(&self, _core: Core, _call: u64) {
        let _before = self.done.fetch_add(1, Ordering::SeqCst);
    }
}

/// Whether the gate was asked once for each call and told of each; the first calls of cores 0 and 1
/// are what they have to be, and no call ends the life.
pub(crate) fn is_counted<R: Threads + Wait + Sync>(
    rt: &R,
    alloc: Global,
    text: &str,
    seed: u64,
    count: u64,
) -> Result<bool, BenchFault> {
    let gate = Counting {
        asked: AtomicU64::new(0),
        done: AtomicU64::new(0),
    };
    let run = ran(rt, alloc, text, seed, count, &gate)?;
    let entries = run.trace.firmware.as_slice();
    let calls = entries
        .iter()
        .filter(|entry| regs_of(entry).is_some())
        .count() as u64;
    let once = gate.asked.load(Ordering::SeqCst) == calls;
    let told = gate.done.load(Ordering::SeqCst) == calls;
    let first = has_first(entries, 0, CPU_ON) && has_first(entries, 1, VERSION);
    Ok(once && told && first && entries.iter().all(|entry| !ends_life(entry)))
}

/// The registers of a call.
fn regs_of(entry: &FwEntry) -> Option<Regs> {
    match &entry.call {
        FwCall::Smc(regs) => Some(*regs),
        _ => None,
    }
}

/// Whether the core's first call is this one, and its second PSCI_VERSION.
fn has_first(entries: &[FwEntry], number: u16, call: Regs) -> bool {
    let mut calls = entries
        .iter()
        .filter(|entry| entry.core.number == number)
        .filter_map(regs_of);
    calls.next() == Some(call) && calls.next() == Some(VERSION)
}

/// Whether it is SYSTEM_OFF, SYSTEM_RESET or SYSTEM_RESET2.
fn ends_life(entry: &FwEntry) -> bool {
    match regs_of(entry) {
        Some(regs) => matches!(
            regs.x0,
            0x8400_0008 | 0x8400_0009 | 0x8400_0012 | 0xc400_0012
        ),
        None => false,
    }
}
