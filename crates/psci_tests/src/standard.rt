//! Scripts replayed between a reader and a writer of the standard library.

use crate::scripts::{SCRIPT, TEXT, WHOLE};
use psci_answers::{ReplayFault, Replayed, Std, replay};
use std::alloc::Global;
use std::io::{self, ErrorKind, Read, Write};

/// A script that comes after some interruptions, and ends or fails then.
#[derive(Drop)]
struct Reader<'a> {
    rest: &'a [u8],
    pauses: u32,
    failure: Option<ErrorKind>,
}

impl Read for Reader<'_> {
    fn read(&mut self, buffer: &mut [u8]) -> io::Result<usize> {
        if self.pauses > 0 {
            self.pauses -= 1;
            return Err(io::Error::from(ErrorKind::Interrupted));
        }
        if let (true, Some(kind)) = (self.rest.is_empty(), self.failure) {
            return Err(io::Error::from(kind));
        }
        let count = buffer.len().min(self.rest.len());
        buffer[..count].copy_from_slice(&self.rest[..count]);
        self.rest = &self.rest[count..];
        Ok(count)
    }
}

/// A page that takes bytes one by one after some interruptions, up to its room.
#[derive(Drop)]
struct Writer {
    taken: Vec<u8>,
    pauses: u32,
    room: usize,
    failure: Option<ErrorKind>,
}

impl Write for Writer {
    fn write(&mut self, bytes: &[u8]) -> io::Result<usize> {
        if self.pauses > 0 {
            self.pauses -= 1;
            return Err(io::Error::from(ErrorKind::Interrupted));
        }
        if let (0, Some(kind)) = (self.room, self.failure) {
            return Err(io::Error::from(kind));
        }
        let count = bytes.len().min(self.room).min(1);
        self.taken.extend_from_slice(&bytes[..count])?;
        self.room -= count;
        Ok(count)
    }

    fn flush(&mut self) -> io::Result<()> {
        Ok(())
    }
}

/// How the devices behave between which the script is replayed, and what comes of it.
#[derive(Clone, Copy)]
struct Replay {
    name: &'static str,
    read_pauses: u32,
    read_failure: Option<ErrorKind>,
    write_pauses: u32,
    room: usize,
    write_failure: Option<ErrorKind>,
    answer: Result<Replayed, ReplayFault>,
    text: &'static [u8],
}

/// The devices interrupt as often as may be.
const INTERRUPTED: Replay = Replay {
    name: "interruptions are waited for",
    read_pauses: 999,
    read_failure: None,
    write_pauses: 999,
    room: 1000,
    write_failure: None,
    answer: Ok(WHOLE),
    text: TEXT,
};

const READS_GIVEN_UP: Replay = Replay {
    name: "reads are given up",
    read_pauses: 1000,
    write_pauses: 0,
    answer: Err(ReplayFault::Read),
    text: b"",
    ..INTERRUPTED
};

const READ_FAILS: Replay = Replay {
    name: "a read fails",
    read_pauses: 0,
    read_failure: Some(ErrorKind::BrokenPipe),
    text: TEXT,
    ..READS_GIVEN_UP
};

const WRITE_FAILS: Replay = Replay {
    name: "a write fails",
    read_pauses: 0,
    write_pauses: 0,
    room: 10,
    write_failure: Some(ErrorKind::StorageFull),
    answer: Err(ReplayFault::Write),
    text: b"1 enter 0x",
    ..INTERRUPTED
};

const NO_BYTE_WRITTEN: Replay = Replay {
    name: "a write of no byte",
    write_failure: None,
    ..WRITE_FAILS
};

/// Interruptions are no failures up to 999; a failed read, a failed write and a write of no byte
/// are.
const REPLAYS: [Replay; 5] = [
    INTERRUPTED,
    READS_GIVEN_UP,
    READ_FAILS,
    WRITE_FAILS,
    NO_BYTE_WRITTEN,
];

/// Replays the script between such a reader and such a writer, and compares the answer and the
/// bytes that were taken.
fn is_replayed(alloc: Global, wanted: &Replay) -> bool {
    let reader = Reader {
        rest: SCRIPT,
        pauses: wanted.read_pauses,
        failure: wanted.read_failure,
    };
    let mut writer = Writer {
        taken: Vec::new(alloc),
        pauses: wanted.write_pauses,
        room: wanted.room,
        failure: wanted.write_failure,
    };
    let ended = replay(alloc, &mut Std::new(reader), &mut Std::new(&mut writer));
    ended == wanted.answer && writer.taken.as_slice() == wanted.text
}

#[test]
fn standard_devices_are_waited_for_and_fail(rt: HostRuntime) {
    for wanted in &REPLAYS {
        assert!(rt; is_replayed(rt.alloc(), wanted), "{}", wanted.name);
    }
}
