//! A run has a record for each event.

use psci_abi::Regs;
use psci_board::Board;
use psci_world::{Event, Said, run};
use std::test::Fail;

/// Two clusters of two cores, of which each may be started three times in each of two lives.
const BOARD: &str = "(2 2) exec 0x40000000-0x40100000 boot 0x40000000 starts 3 lives 2";

/// The last core is asked on, with context id 7.
const CPU_ON: Regs = Regs {
    x0: 0xc400_0003,
    x1: 0x101,
    x2: 0x4000_0100,
    x3: 7,
};

const CPU_OFF: Regs = Regs {
    x0: 0x8400_0002,
    x1: 0,
    x2: 0,
    x3: 0,
};

/// A core is asked on, enters, and goes off with its cluster; there is no third message.
const EVENTS: [Event; 8] = [
    Event::Enter(0),
    Event::Call(0, CPU_ON),
    Event::Deliver(0),
    Event::Take(0),
    Event::Enter(3),
    Event::Call(3, CPU_OFF),
    Event::Deliver(2),
    Event::Deliver(1),
];

#[test]
fn runs_have_a_record_for_each_event(rt: HostRuntime) -> Result<(), Fail> {
    let board = Board::read(rt.alloc(), BOARD)?;
    assert!(rt; run(rt.alloc(), &board, &[])?.is_empty());
    let records = run(rt.alloc(), &board, &EVENTS)?;
    assert_eq!(rt; records.len(), EVENTS.len());
    for (record, event) in records.iter().zip(EVENTS) {
        assert!(rt; record.event == event);
        assert!(rt; (record.said == Said::Absent) == (event == Event::Deliver(2)));
    }
    let last = records.last().map(|record| record.said.copy());
    assert!(rt; matches!(last, Some(Said::Acked { index: 1, ack }) if ack.applied == 2));
    Ok(())
}
