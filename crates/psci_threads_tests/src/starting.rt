//! The start of a run that is over before all threads have looked.

use psci_bench::{BenchFault, Wire};
use std::alloc::Global;
use std::sync::Wait;

/// Whether a thread starts that comes when the run is to end already, where so many workers are to
/// come beside it. With none it is the last to come, and what the others had to do may be done.
pub(crate) fn starts_after_the_end<R: Wait>(
    rt: &R,
    alloc: Global,
    workers: u16,
) -> Result<bool, BenchFault> {
    let Ok(wire) = Wire::new(alloc, workers) else {
        return Err(BenchFault::Memory);
    };
    wire.give_up();
    Ok(wire.starts_with_all(rt))
}
