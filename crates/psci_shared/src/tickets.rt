//! Numbers that are drawn while a lock is held.

use std::sync::atomic::{AtomicU64, Ordering};

/// Numbers that rise, until they begin anew after 2^64 of them.
#[derive(Drop)]
pub struct Tickets {
    next: AtomicU64,
}

impl Tickets {
    /// From 0 on.
    pub fn new() -> Tickets {
        Tickets {
            next: AtomicU64::new(0),
        }
    }

    /// The next number, by one atomic addition.
    pub fn draw(&self) -> u64 {
        self.next.fetch_add(1, Ordering::SeqCst)
    }
}
