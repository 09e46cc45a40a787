//! Tests of the firmware and the power controller that threads share, of core threads over a lossy
//! link, and of what their audit refuses. They start threads, and end the same whatever the
//! schedule.
//!
//! - A *story* is what is done with one shared firmware, and what is seen of it at the end.
//! - A *meeting* is a gate that lets the second calls of cores 0 and 1 go on together alone.
//! - A *server* is one core of a body that has no threads: it serves its cores one after another.
#![tactic(auto)]

#[cfg(test)]
mod boards;
#[cfg(test)]
mod controller;
#[cfg(test)]
mod counted;
#[cfg(test)]
mod forged;
#[cfg(test)]
mod fresh;
#[cfg(test)]
mod held;
#[cfg(test)]
mod meeting;
#[cfg(test)]
mod named;
#[cfg(test)]
mod passes;
#[cfg(test)]
mod serving;
#[cfg(test)]
mod starting;
#[cfg(test)]
mod threads;

#[cfg(test)]
mod tests {
    use crate::boards::{BOARD, LARGE, ONE, TALL, is_audited, met, served};
    use crate::controller::told_of_starts;
    use crate::counted::is_counted;
    use crate::forged::{is_illegal_at, is_ticket_twice, judged, judged_by_message};
    use crate::fresh::{entries_of_controller, entries_of_firmware};
    use crate::named::{Story, told};
    use crate::starting::starts_after_the_end;
    use psci_bench::{AuditFault, BenchFault};
    use std::test::*;

    #[test]
    fn firmware_and_power_controllers_are_shared(rt: HostRuntime) -> Result<(), Fail> {
        assert_eq!(rt; entries_of_firmware(rt.alloc()), Some(0));
        assert_eq!(rt; told(&rt, rt.alloc(), Story::ThreeCalls), Some(true));
        assert_eq!(rt; told(&rt, rt.alloc(), Story::OneIsMissing), Some(true));
        assert_eq!(rt; told(&rt, rt.alloc(), Story::FullBooks), Some(true));
        assert_eq!(rt; told(&rt, rt.alloc(), Story::TooMany), Some(true));
        assert_eq!(rt; told(&rt, rt.alloc(), Story::Statuses), Some(true));
        assert_eq!(rt; told(&rt, rt.alloc(), Story::Serials), Some(true));
        assert_eq!(rt; told(&rt, rt.alloc(), Story::GoesOff), Some(true));
        assert_eq!(rt; told(&rt, rt.alloc(), Story::TwoThreads(49)), Some(true));
        assert_eq!(rt; told(&rt, rt.alloc(), Story::PolledWhileHeld), Some(true));
        assert_eq!(rt; entries_of_controller(rt.alloc()), Some(0));
        assert_eq!(rt; told_of_starts(&rt, rt.alloc(), true), Some(true));
        assert_eq!(rt; told_of_starts(&rt, rt.alloc(), false), Some(true));
        Ok(())
    }

    #[test]
    fn runs_are_audited(rt: HostRuntime) -> Result<(), Fail> {
        assert_eq!(rt; is_audited(&rt, rt.alloc(), BOARD, 0, 0), Ok(true));
        assert_eq!(rt; is_audited(&rt, rt.alloc(), BOARD, 200, 50), Ok(true));
        assert_eq!(rt; is_audited(&rt, rt.alloc(), TALL, 40, 0), Ok(true));
        assert_eq!(rt; is_audited(&rt, rt.alloc(), ONE, 40, 0), Ok(true));
        assert_eq!(rt; is_audited(&rt, rt.alloc(), LARGE, 50, 0), Ok(true));
        assert_eq!(rt; is_counted(&rt, rt.alloc(), BOARD, 3, 40), Ok(true));
        Ok(())
    }

    #[test]
    fn the_last_to_come_starts(rt: HostRuntime) -> Result<(), Fail> {
        assert_eq!(rt; met(&rt, rt.alloc(), BOARD), Ok(true));
        assert_eq!(rt; served(rt.alloc(), BOARD, [0, 1], 1), Err(BenchFault::Gate));
        assert_eq!(rt; served(rt.alloc(), BOARD, [1, 0], 1), Err(BenchFault::Gate));
        assert_eq!(rt; served(rt.alloc(), BOARD, [0, 1], 2), Err(BenchFault::Gate));
        assert_eq!(rt; served(rt.alloc(), BOARD, [1, 0], 2), Err(BenchFault::Gate));
        assert_eq!(rt; starts_after_the_end(&rt, rt.alloc(), 0), Ok(true));
        assert_eq!(rt; starts_after_the_end(&rt, rt.alloc(), 1), Ok(false));
        Ok(())
    }

    #[test]
    fn forged_traces_are_refused(rt: HostRuntime) -> Result<(), Fail> {
        assert_eq!(rt; is_ticket_twice(&rt, rt.alloc(), BOARD), Ok(true));
        assert_eq!(rt; is_illegal_at(&rt, rt.alloc(), BOARD), Ok(true));
        assert_eq!(rt; judged(rt.alloc(), BOARD, &[], &[]), Ok(Ok(0)));
        assert_eq!(rt;
            judged(rt.alloc(), BOARD, &[1], &[]),
            Ok(Err(AuditFault::Illegal(0)))
        );
        assert_eq!(rt;
            judged(rt.alloc(), BOARD, &[2, 1], &[]),
            Ok(Err(AuditFault::Ticket))
        );
        assert_eq!(rt;
            judged(rt.alloc(), BOARD, &[1, 3], &[2, 3]),
            Ok(Err(AuditFault::Ticket))
        );
        assert_eq!(rt; judged_by_message(rt.alloc(), BOARD, false), Ok(Ok(2)));
        assert_eq!(rt;
            judged_by_message(rt.alloc(), BOARD, true),
            Ok(Err(AuditFault::Illegal(1)))
        );
        Ok(())
    }
}
