//! The rule of the status words, and the steps that keep it.

use atomic_table::{Join, Play, Split, TableRule};
use psci_fw_spec::Status;
use std::collections::LinkedList;

/// What a seat knows of each core, the last first. No value of it is made.
pub struct View {
    /// Whether the seat is the writer's.
    pub writer: bool,
    /// The writer's: each status that was written. How many stand before it is its serial.
    pub log: LinkedList<LinkedList<Status>>,
    /// A reader's: each item that it has seen, a serial and a status.
    pub seen: LinkedList<LinkedList<(u64, Status)>>,
    /// The writer's: the items that it was told a reader has seen.
    pub told: LinkedList<LinkedList<(u64, Status)>>,
}

/// The rule. Its key is the number of cores.
pub struct StatusRule;

impl TableRule<(), View, u64> for StatusRule {
    ghost use Rattle.psci_status.specs.Rule.{Kept, begins};

    ghost holds = { Kept };

    ghost first = { begins };
}

/// The writer loads a word.
pub struct Looks;

impl Play<(), View> for Looks {
    ghost use Rattle.psci_status.specs.Rule.{Looked};

    ghost then = { Looked };
}

/// A reader loads a word.
pub struct Loads;

impl Play<(), View> for Loads {
    ghost use Rattle.psci_status.specs.Rule.{Loaded};

    ghost then = { Loaded };
}

/// The writer stores a word.
pub struct Stores;

impl Play<(), View> for Stores {
    ghost use Rattle.psci_status.specs.Rule.{Stored};

    ghost then = { Stored };
}

/// A note is split off a seat, and joined into another one.
pub struct Notes;

impl Split<View> for Notes {
    ghost use Rattle.psci_status.specs.Rule.{note_of};

    ghost left = { λ v. v };

    ghost right = { note_of };
}

impl Join<View> for Notes {
    ghost use Rattle.psci_status.specs.Rule.{informed, nobody};

    ghost both = { informed };

    ghost spent = { nobody };
}
