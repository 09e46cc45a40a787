//! Scripts replayed between devices in memory that give little, stop and fail.

use crate::devices::{Page, Script};
use crate::scripts::{CUT, ENTRY, FIRST, FIRST_TEXT, MESSAGE_TEXT, MESSAGES, SCRIPT, TEXT, WHOLE};
use psci_answers::{ReplayFault, Replayed, ScriptFault, replay};
use std::alloc::Global;

/// A script, how its devices behave, and what comes of it. Bytes come and go one by one.
#[derive(Clone, Copy)]
struct Replay {
    name: &'static str,
    script: &'static [u8],
    /// Whether the script fails after its last byte.
    breaks: bool,
    /// How many interruptions come before each read.
    read_pauses: u32,
    /// How many interruptions come before each write.
    write_pauses: u32,
    /// How many bytes the page takes before it is full.
    room: usize,
    /// Whether the full page fails, and does not just take nothing.
    full_fails: bool,
    answer: Result<Replayed, ReplayFault>,
    text: &'static [u8],
}

/// The script whose devices do all that is asked.
const EASY: Replay = Replay {
    name: "bytes come and go one by one",
    script: SCRIPT,
    breaks: false,
    read_pauses: 0,
    write_pauses: 0,
    room: 1000,
    full_fails: true,
    answer: Ok(WHOLE),
    text: TEXT,
};

/// Replays a script, and compares the answer and the bytes that were taken.
fn is_replayed(alloc: Global, wanted: &Replay) -> bool {
    let mut script = Script::new(wanted.script);
    script.breaks = wanted.breaks;
    script.pauses = wanted.read_pauses;
    let mut page = Page::new(alloc);
    page.pauses = wanted.write_pauses;
    page.room = wanted.room;
    page.breaks = wanted.full_fails;
    let ended = replay(alloc, &mut script, &mut page);
    ended == wanted.answer && page.taken.as_slice() == wanted.text
}

const FULL_PAGE: Replay = Replay {
    name: "the page fails within a line",
    room: 10,
    answer: Err(ReplayFault::Write),
    text: b"1 enter 0x",
    ..EASY
};

const PAGE_THAT_TAKES_NOTHING: Replay = Replay {
    name: "the page takes nothing",
    room: 0,
    full_fails: false,
    answer: Err(ReplayFault::Write),
    text: b"",
    ..EASY
};

const SCRIPT_FAILS: Replay = Replay {
    name: "the script fails after a line",
    script: ENTRY,
    breaks: true,
    answer: Err(ReplayFault::Read),
    text: b"1 enter 0x40000000 0x0\n",
    ..EASY
};

const INTERRUPTED: Replay = Replay {
    name: "interruptions are waited for",
    read_pauses: 999,
    write_pauses: 999,
    ..EASY
};

const READS_GIVEN_UP: Replay = Replay {
    name: "reads are given up",
    read_pauses: 1000,
    answer: Err(ReplayFault::Read),
    text: b"",
    ..EASY
};

const WRITES_GIVEN_UP: Replay = Replay {
    name: "writes are given up",
    write_pauses: 1000,
    answer: Err(ReplayFault::Write),
    text: b"",
    ..EASY
};

const NO_LAST_LINE_FEED: Replay = Replay {
    name: "the last line needs no line feed",
    script: CUT,
    text: b"1 enter 0x40000000 0x0\n2 return -1\n",
    ..EASY
};

const TWO_NUMBERS: Replay = Replay {
    name: "delivery of two numbers",
    script: FIRST,
    answer: Err(ReplayFault::Script {
        line: 8,
        fault: ScriptFault::Line,
    }),
    text: FIRST_TEXT,
    ..EASY
};

const FIVE_MESSAGES: Replay = Replay {
    name: "five messages on 256 cores",
    script: MESSAGES,
    answer: Ok(Replayed {
        lines: 8,
        events: 7,
    }),
    text: MESSAGE_TEXT,
    ..EASY
};

/// All of them.
const REPLAYS: [Replay; 10] = [
    EASY,
    FULL_PAGE,
    PAGE_THAT_TAKES_NOTHING,
    SCRIPT_FAILS,
    INTERRUPTED,
    READS_GIVEN_UP,
    WRITES_GIVEN_UP,
    NO_LAST_LINE_FEED,
    TWO_NUMBERS,
    FIVE_MESSAGES,
];

#[test]
fn scripts_are_replayed(rt: HostRuntime) {
    for wanted in &REPLAYS {
        assert!(rt; is_replayed(rt.alloc(), wanted), "{}", wanted.name);
    }
}
