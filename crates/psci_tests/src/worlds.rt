//! Stories of worlds that are read, settle, and do not.

use psci_abi::Regs;
use psci_board::{Board, Core, Node};
use psci_fw::Firmware;
use psci_machine::Machine;
use psci_world::{Event, Place, Settled, World, settle};
use std::alloc::Global;
use std::process::Abort;
use std::test::Fail;

/// Two clusters of two cores.
const BOARD: &str = "(2 2) exec 0x40000000-0x40100000 boot 0x40000000 starts 1000 lives 3";

/// All nodes of the board.
const NODES: [(u32, u16); 7] = [(0, 0), (0, 1), (0, 2), (0, 3), (1, 0), (1, 1), (2, 0)];

/// The last core is asked on, with context id 7.
const CPU_ON: Regs = Regs {
    x0: 0xc400_0003,
    x1: 0x101,
    x2: 0x4000_1000,
    x3: 7,
};

const SYSTEM_OFF: Regs = Regs {
    x0: 0x8400_0008,
    x1: 0,
    x2: 0,
    x3: 0,
};

/// All domains may be powered down.
const CPU_SUSPEND: Regs = Regs {
    x0: 0xc400_0001,
    x1: 0x0201_0333,
    x2: 0x4000_4000,
    x3: 2,
};

const SYSTEM_RESET: Regs = Regs {
    x0: 0x8400_0009,
    x1: 0,
    x2: 0,
    x3: 0,
};

/// Something that happens to the world or is asked of it, and the answer.
#[derive(Clone, Copy)]
enum Step {
    /// The event happens, and its record is the last one.
    Happens(Event),
    /// The world settles so.
    Settles(Settled),
    /// There are so many records.
    Records(usize),
    /// The record of this number is of this event.
    Recorded(usize, Event),
    /// Where a core is.
    Place(u16, Place),
    /// The lives of the firmware and of the power controller.
    Lives(Option<u32>, Option<u32>),
    /// There is no message and no acknowledgement.
    NothingSent,
    /// Nothing is outstanding, and each domain is as deep as was granted.
    Agrees,
    /// Each domain was granted power-down.
    AllDown,
}

/// What the readers show before and after the first event.
const READ: [Step; 7] = [
    Step::Place(0, Place::Started),
    Step::Place(3, Place::Stopped),
    Step::Happens(Event::Enter(0)),
    Step::Place(0, Place::Running),
    Step::Lives(Some(1), Some(1)),
    Step::NothingSent,
    Step::Records(1),
];

/// A new world enters the boot core.
const NEW_WORLD: [Step; 5] = [
    Step::Settles(Settled::Quiet(0)),
    Step::Records(1),
    Step::Recorded(0, Event::Enter(0)),
    Step::Place(0, Place::Running),
    Step::Agrees,
];

/// Both clusters go down, and the system with them.
const BOTH_CLUSTERS: [Step; 9] = [
    Step::Happens(Event::Enter(0)),
    Step::Happens(Event::Call(0, CPU_ON)),
    Step::Happens(Event::Deliver(0)),
    Step::Happens(Event::Enter(3)),
    Step::Happens(Event::Call(3, CPU_SUSPEND)),
    Step::Happens(Event::Call(0, CPU_SUSPEND)),
    Step::Settles(Settled::Quiet(2)),
    Step::Agrees,
    Step::AllDown,
];

/// An outstanding Start is served, and its core enters.
const OUTSTANDING_START: [Step; 9] = [
    Step::Happens(Event::Enter(0)),
    Step::Happens(Event::Call(0, CPU_ON)),
    Step::Settles(Settled::Quiet(0)),
    Step::Records(5),
    Step::Recorded(2, Event::Deliver(0)),
    Step::Recorded(3, Event::Take(0)),
    Step::Recorded(4, Event::Enter(3)),
    Step::Place(3, Place::Running),
    Step::Agrees,
];

/// A halting world stays as it is, and so does one whose system is off.
const HALTING: [Step; 7] = [
    Step::Happens(Event::Enter(0)),
    Step::Happens(Event::Call(0, SYSTEM_OFF)),
    Step::Settles(Settled::Halting),
    Step::Records(2),
    Step::Happens(Event::Deliver(0)),
    Step::Settles(Settled::Halting),
    Step::Records(3),
];

/// A world that is reset halts until the message is delivered. Then the boot core enters its next
/// life, which ends in its turn as the system goes off.
const RESET: [Step; 12] = [
    Step::Happens(Event::Enter(0)),
    Step::Happens(Event::Call(0, SYSTEM_RESET)),
    Step::Settles(Settled::Halting),
    Step::Records(2),
    Step::Happens(Event::Deliver(0)),
    Step::Settles(Settled::Quiet(0)),
    Step::Records(4),
    Step::Recorded(3, Event::Enter(0)),
    Step::Lives(Some(2), Some(2)),
    Step::Happens(Event::Call(0, SYSTEM_OFF)),
    Step::Happens(Event::Deliver(1)),
    Step::Settles(Settled::Halting),
];

/// Takes a step, and says whether it got its answer.
fn is_answered(world: &mut World, step: Step) -> bool {
    match step {
        Step::Happens(event) => happens(world, event),
        Step::Settles(settled) => settles(world, settled),
        Step::Records(count) => world.records().len() == count,
        Step::Recorded(number, event) => is_recorded(world, number, event),
        Step::Place(number, place) => is_at(world, number, place),
        Step::Lives(firmware, controller) => {
            world.firmware().life() == firmware && world.controller().life() == controller
        }
        Step::NothingSent => world.message(0).is_none() && world.ack(0).is_none(),
        Step::Agrees => agrees(world),
        Step::AllDown => are_all_down(world),
    }
}

/// Each domain was granted power-down.
fn are_all_down(world: &World) -> bool {
    NODES.iter().all(|(level, place)| {
        let node = Node {
            level: *level,
            place: *place,
        };
        world.firmware().granted(node) == 3
    })
}

/// The event happens, and its record is the last one.
fn happens(world: &mut World, event: Event) -> bool {
    match world.step(event) {
        Ok(record) => record.event == event && world.records().last() == Some(&record),
        Err(_) => false,
    }
}

/// The world settles so.
fn settles(world: &mut World, wanted: Settled) -> bool {
    settle(world).is_ok_and(|settled| settled == wanted)
}

/// The record of this number is of this event.
fn is_recorded(world: &World, number: usize, event: Event) -> bool {
    world
        .records()
        .get(number)
        .is_some_and(|record| record.event == event)
}

/// The board has the core, and it is there.
fn is_at(world: &World, number: u16, place: Place) -> bool {
    number < world.board().cores() && world.place(Core { number }) == place
}

/// Nothing is outstanding, and each domain is as deep as was granted.
pub(crate) fn agrees(world: &World) -> bool {
    let board = world.board();
    for core in 0..board.cores() + 1 {
        if world.firmware().outstanding(core).is_some() {
            return false;
        }
    }
    for level in 0..board.height().min(3) + 1 {
        for place in 0..board.nodes(level) {
            let node = Node { level, place };
            if world.firmware().granted(node) != world.controller().depth(node) {
                return false;
            }
        }
    }
    true
}

/// Steps that are taken from before the first event on, one after the other.
struct Story(
    /// Their name.
    &'static str,
    /// The steps.
    &'static [Step],
);

const STORIES: [Story; 6] = [
    Story("read", &READ),
    Story("new world", &NEW_WORLD),
    Story("both clusters", &BOTH_CLUSTERS),
    Story("outstanding start", &OUTSTANDING_START),
    Story("halting", &HALTING),
    Story("reset", &RESET),
];

/// Takes these steps, and says the number of the first one that did not get its answer.
fn first_unanswered(alloc: Global, steps: &[Step]) -> Result<Option<usize>, Fail> {
    let board = Board::read(alloc, BOARD)?;
    let mut world = World::new(alloc, &board)?;
    Ok(
        steps
            .iter()
            .position(|step| !is_answered(&mut world, *step)),
    )
}

#[test]
fn worlds_are_read_settle_and_stand(rt: HostRuntime) -> Result<(), Fail> {
    for story in &STORIES {
        let wrong = first_unanswered(rt.alloc(), story.1)?;
        assert_eq!(rt; wrong, None, "{}", story.0);
    }
    worlds_stand(&rt, rt.alloc())
}

/// Boards of each height, and the largest number of cores.
const BOARDS: [&str; 5] = [
    "1 exec 0x0-0x10 boot 0x0 starts 1 lives 1",
    "16 exec 0x0-0x10 boot 0x0 starts 1 lives 1",
    "(5 1 16) exec 0x0-0x10 boot 0x0 starts 1 lives 1",
    "((1 2 3) (4) (5 6)) exec 0x0-0x10 boot 0x0 starts 1 lives 1",
    "((16 16) (16 16)) exec 0x0-0x10 boot 0x0 starts 1 lives 1",
];

/// On each of these boards a firmware, a machine and a world are made.
fn worlds_stand(rt: &impl Abort, alloc: Global) -> Result<(), Fail> {
    for text in BOARDS {
        let board = Board::read(alloc, text)?;
        assert!(rt; Firmware::new(alloc, &board).is_ok(), "{text}");
        assert!(rt; Machine::new(alloc, &board).is_ok(), "{text}");
        assert!(rt; World::new(alloc, &board).is_ok(), "{text}");
    }
    Ok(())
}
