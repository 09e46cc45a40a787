//! Boards are read and copied, and the layers stand on each, where there is memory.
//! `tests/program/growths` refuses each growth in turn.

use psci_board::Board;
use psci_ctl::Controller;
use psci_messages::Slots;
use psci_tree::Tree;
use std::alloc::Global;
use std::process::Abort;
use std::test::Fail;

/// The longest trees and the most ranges that a board may have.
const LARGEST: &str = "((1 1 1 1 1 1 1 1 1 1 1 1 1 1 1 1) (1 1 1 1 1 1 1 1 1 1 1 1 1 1 1 1) \
    (1 1 1 1 1 1 1 1 1 1 1 1 1 1 1 1) (1 1 1 1 1 1 1 1 1 1 1 1 1 1 1 1) \
    (1 1 1 1 1 1 1 1 1 1 1 1 1 1 1 1) (1 1 1 1 1 1 1 1 1 1 1 1 1 1 1 1) \
    (1 1 1 1 1 1 1 1 1 1 1 1 1 1 1 1) (1 1 1 1 1 1 1 1 1 1 1 1 1 1 1 1) \
    (1 1 1 1 1 1 1 1 1 1 1 1 1 1 1 1) (1 1 1 1 1 1 1 1 1 1 1 1 1 1 1 1) \
    (1 1 1 1 1 1 1 1 1 1 1 1 1 1 1 1) (1 1 1 1 1 1 1 1 1 1 1 1 1 1 1 1) \
    (1 1 1 1 1 1 1 1 1 1 1 1 1 1 1 1) (1 1 1 1 1 1 1 1 1 1 1 1 1 1 1 1) \
    (1 1 1 1 1 1 1 1 1 1 1 1 1 1 1 1) (1 1 1 1 1 1 1 1 1 1 1 1 1 1 1 1)) \
    exec 0x0000000000000000-0x0000000000000004 0x0000000000000000-0x0000000000000004 \
    0x0000000000000000-0x0000000000000004 0x0000000000000000-0xffffffffffffffff \
    boot 0xfffffffffffffff8 starts 4294967295 lives 65535";

/// Boards of each height, with their heights and how many cores they have.
const BOARDS: [(&str, u32, u16); 17] = [
    ("1 exec 0x0-0x1 boot 0x0 starts 1 lives 1", 1, 1),
    ("2 exec 0x0-0x1 boot 0x0 starts 1 lives 1", 1, 2),
    ("3 exec 0x0-0x1 boot 0x0 starts 1 lives 1", 1, 3),
    ("16 exec 0x0-0x1 boot 0x0 starts 1 lives 1", 1, 16),
    (
        "(2 2) exec 0x40000000-0x40100000 boot 0x40000000 starts 1000 lives 3",
        2,
        4,
    ),
    ("(3) exec 0x0-0x1 boot 0x0 starts 1 lives 1", 2, 3),
    ("(1 2 3) exec 0x0-0x1 boot 0x0 starts 1 lives 1", 2, 6),
    ("(4 3 2 1) exec 0x0-0x1 boot 0x0 starts 1 lives 1", 2, 10),
    ("(1 1 1 1 1) exec 0x0-0x1 boot 0x0 starts 1 lives 1", 2, 5),
    (
        "(5 1 1 1 1 1 1 1 1 1 1 1 1 1 1 16) exec 0x0-0x1 boot 0x0 starts 1 lives 1",
        2,
        35,
    ),
    ("((1)) exec 0x0-0x1 boot 0x0 starts 1 lives 1", 3, 1),
    ("((1) (2) (3)) exec 0x0-0x1 boot 0x0 starts 1 lives 1", 3, 6),
    ("((1 2 3)) exec 0x0-0x1 boot 0x0 starts 1 lives 1", 3, 6),
    (
        "((1 2 3) (4) (5 6)) exec 0x0-0x1 boot 0x0 starts 1 lives 1",
        3,
        21,
    ),
    (
        "((1) (1) (1) (1) (1) (1) (1) (1) (1) (1) (1) (1) (1) (1) (1) (1 2)) \
        exec 0x0-0x1 0x0-0x1 0x0-0x1 boot 0x0 starts 1 lives 1",
        3,
        18,
    ),
    (
        "(16 16 16 16 16 16 16 16 16 16 16 16 16 16 16 16) \
        exec 0x0-0x1 boot 0x0 starts 1 lives 1",
        2,
        256,
    ),
    (LARGEST, 3, 256),
];

/// The layers stand on a board.
fn layers_stand(rt: &impl Abort, alloc: Global, text: &str, board: &Board) {
    assert!(rt; Tree::new(alloc, board).is_ok(), "{text}");
    assert!(rt; Slots::new(alloc, board.cores()).is_ok(), "{text}");
    assert!(rt; Controller::new(alloc, board).is_ok(), "{text}");
}

#[test]
fn boards_are_read_and_copied(rt: HostRuntime) -> Result<(), Fail> {
    for (text, height, cores) in BOARDS {
        let board = Board::read(rt.alloc(), text)?;
        assert_eq!(rt; (board.height(), board.cores()), (height, cores), "{text}");
        let copy = board.copy(rt.alloc())?;
        assert_eq!(rt; (copy.height(), copy.cores()), (height, cores), "{text}");
        layers_stand(&rt, rt.alloc(), text, &board);
    }
    let (text, _, _) = BOARDS[4];
    let board = Board::read(rt.alloc(), text)?;
    assert_eq!(rt;
        (board.boot(), board.start_limit(), board.life_limit()),
        (0x4000_0000, 1000, 3)
    );
    Ok(())
}
