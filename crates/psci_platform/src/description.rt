//! What a platform calls its cores, power states and functions.

use crate::class::{Class, LEVELS, STATES};
use crate::functions::Functions;
use crate::row::Row;
use std::marker::Model;

/// The class of each state, by level and number. State 0 is running, and no class is shallower than
/// that of the number before. Numbers that a level does not use have the last class.
#[derive(Clone, Copy)]
pub struct Classes {
    /// The classes of each level, by the states' numbers.
    pub levels: [[Class; STATES]; LEVELS],
}

/// The description of a platform, beside the board, which has the tree of its power domains, the
/// format of its power state words, and all that the firmware has to know.
#[derive(Drop)]
pub struct Description {
    /// The affinity fields of each core's MPIDR_EL1 (Aff3 in bits 39:32, Aff2 to Aff0 in bits
    /// 23:0), in the order in which the board's tree has the cores.
    pub mpidrs: Vec<u64>,
    /// How many levels above the cores the platform can take down.
    pub levels: u32,
    /// The class of each state.
    pub classes: Classes,
    /// The power state words, 64 at most.
    pub rows: Vec<Row>,
    /// What SYSTEM_SUSPEND asks of each level.
    pub system: [u8; LEVELS],
    /// The functions that are there.
    pub functions: Functions,
    /// The reset types of SYSTEM_RESET2 that are the vendor's own (bit 31 set), each of which
    /// resets the system.
    pub resets: Vec<u32>,
}

impl Model for Description {
    ghost use Rattle.psci_platform.specs.Described.{DescriptionValue};

    ghost Value = { DescriptionValue };

    ghost view = { λ d. record {
      mpidrs = d.mpidrs.items;
      levels = d.levels;
      classes = d.classes.levels;
      rows = d.rows.items;
      system = d.system;
      functions = d.functions;
      resets = d.resets.items;
    } };
}
