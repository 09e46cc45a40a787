//! What was answered.

use psci_abi::{Function, read};
use psci_world_spec::{Act, Event, Record, Said, Taken};
use std::fmt;

/// What was said of an event, without the addresses, numbers and messages that it names.
#[derive(Clone, Copy, Debug, PartialEq, Eq)]
pub enum Answer {
    /// The core goes on with this return code.
    Return(i32),
    /// The core stops.
    Stop,
    /// The core enters at its opening.
    Enter,
    /// The core goes on after its CPU_SUSPEND.
    Resume,
    /// The core was started.
    Started,
    /// The message was acknowledged.
    Acked {
        /// How many parts of it were applied, or 1 where another message was carried out, else 0.
        applied: u8,
        /// Whether what was not applied never will be.
        stale: bool,
    },
    /// The acknowledgement was of an outstanding message.
    Used,
    /// The acknowledgement was of none.
    Old,
    /// Nothing of the kind happens there.
    Ignored,
    /// There is no such core, message or acknowledgement.
    Absent,
}

impl Answer {
    /// What was said, as an answer.
    pub fn of(said: &Said) -> Answer {
        match said {
            Said::Fw { act, .. } => Answer::of_act(*act),
            Said::Kick(_) => Answer::Started,
            Said::Acked { ack, .. } => Answer::Acked {
                applied: ack.applied,
                stale: ack.stale,
            },
            Said::Taken(Taken::Used) => Answer::Used,
            Said::Taken(Taken::Old) => Answer::Old,
            Said::Ignored => Answer::Ignored,
            Said::Absent => Answer::Absent,
        }
    }

    /// What the core does next.
    fn of_act(act: Act) -> Answer {
        match act {
            Act::Return(code) => Answer::Return(code.0),
            Act::Stop => Answer::Stop,
            Act::Enter { .. } => Answer::Enter,
            Act::Resume => Answer::Resume,
        }
    }
}

// What was asked.

/// What happened: a call by its function, or an event of another sort.
#[derive(Clone, Copy, Debug, PartialEq, Eq)]
pub enum Asked {
    /// A function of the standard.
    Call(Function),
    /// A function word that is not supported.
    Unknown,
    /// A core entered the firmware.
    Enter,
    /// A wake-up event of a core.
    Wake,
    /// A core was reset by itself.
    Reset,
    /// A message came to the power controller.
    Deliver,
    /// An acknowledgement came to the firmware.
    Take,
}

impl Asked {
    /// What an event asks.
    pub fn of(event: &Event) -> Asked {
        match event {
            Event::Call(_, regs) => Asked::of_function(read(*regs).function()),
            Event::Enter(_) => Asked::Enter,
            Event::Wake(_) => Asked::Wake,
            Event::Reset(_) => Asked::Reset,
            Event::Deliver(_) => Asked::Deliver,
            Event::Take(_) => Asked::Take,
        }
    }

    /// What a call of this function asks.
    fn of_function(function: Option<Function>) -> Asked {
        match function {
            Some(function) => Asked::Call(function),
            None => Asked::Unknown,
        }
    }
}

// What is counted in a storm.

/// What was asked with what was answered. Each record is of one tally.
#[derive(Clone, Copy, Debug, PartialEq, Eq)]
pub struct Tally {
    /// What was asked.
    pub asked: Asked,
    /// What was answered.
    pub answer: Answer,
}

impl Tally {
    /// The tally of a record.
    pub fn of(item: &Record) -> Tally {
        Tally {
            asked: Asked::of(&item.event),
            answer: Answer::of(&item.said),
        }
    }
}

// How tallies are spelled.

impl fmt::Display for Asked {
    fn fmt<W: fmt::Write>(&self, f: &mut fmt::Formatter<W>) -> fmt::Result {
        match self {
            Asked::Call(function) => write!(f, "{}", function.short_name()),
            Asked::Unknown => write!(f, "unknown"),
            Asked::Enter => write!(f, "enter"),
            Asked::Wake => write!(f, "wake"),
            Asked::Reset => write!(f, "reset"),
            Asked::Deliver => write!(f, "deliver"),
            Asked::Take => write!(f, "take"),
        }
    }
}

impl fmt::Display for Answer {
    fn fmt<W: fmt::Write>(&self, f: &mut fmt::Formatter<W>) -> fmt::Result {
        match self {
            Answer::Return(code) => write!(f, "return {code}"),
            Answer::Stop => write!(f, "stop"),
            Answer::Enter => write!(f, "enter"),
            Answer::Resume => write!(f, "resume"),
            Answer::Started => write!(f, "started"),
            Answer::Acked { applied, stale } if *stale => {
                write!(f, "ack applied {applied} stale")
            }
            Answer::Acked { applied, .. } => write!(f, "ack applied {applied}"),
            Answer::Used => write!(f, "used"),
            Answer::Old => write!(f, "old"),
            Answer::Ignored => write!(f, "ignored"),
            Answer::Absent => write!(f, "absent"),
        }
    }
}

impl fmt::Display for Tally {
    fn fmt<W: fmt::Write>(&self, f: &mut fmt::Formatter<W>) -> fmt::Result {
        write!(f, "{} {}", self.asked, self.answer)
    }
}
