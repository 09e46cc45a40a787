//! What the calls of a firmware name its cores, power domains, states and functions by, and what it
//! shares with those who poll.

ghost use Rattle.std.specs.Prelude.{◌≡◌, IfOk, option_map};
ghost use Rattle.std.specs.Arc.{arc_value};
ghost use Rattle.psci_board.specs.Board.{cores};
ghost use Rattle.psci_status.specs.Seats.{table};
ghost use Rattle.psci_ffi.specs.Namings.{asked_in, board_of, machine_of, regs_in, word_in};

use crate::answer::{GivenAsked, asked_shown, nothing_asked};
use psci_board::{Board, Memory};
use psci_fw::{Regs, SuspendMode};
use psci_platform::Platform;
use psci_status::StatusWords;
use std::alloc::Global;
use std::sync::Arc;

/// A board with its own words, or a machine with words of its own.
#[derive(Drop)]
pub enum Naming {
    /// The words of this board.
    Board(Box<Board>),
    /// The words of this machine.
    Machine(Box<Platform>),
}

impl Naming {
    ghost use Rattle.psci_ffi.specs.Shown.{asked_shown};

    /// The board.
    pub fn board(&self) -> &Board
        ensures { result.now ≡ board_of self.now }
    {
        match self {
            Naming::Board(board) => board,
            Naming::Machine(machine) => machine.board(),
        }
    }

    /// The machine, if it has words of its own.
    #[inline(always)]
    pub fn machine(&self) -> Option<&Platform>
        ensures { option_map (λ machine. machine.now) result ≡ machine_of self.now }
    {
        match self {
            Naming::Board(_) => None,
            Naming::Machine(machine) => Some(machine),
        }
    }

    /// The affinity word of the board for that of a call.
    pub fn word(&self, affinity: u64) -> u64
        ensures { result ≡ word_in (machine_of self.now) affinity }
    {
        match self.machine() {
            None => affinity,
            Some(machine) => machine.word(affinity),
        }
    }

    /// The registers of the firmware's call for one in these words, in this mode. What is asked
    /// beside is written.
    #[inline(always)]
    pub fn called(&self, mode: SuspendMode, regs: Regs, asked: &mut GivenAsked) -> Regs
        ensures regs { result ≡ regs_in (machine_of self.now) mode regs }
        ensures asked { asked.new ≡ asked_shown (asked_in (machine_of self.now) mode regs) }
    {
        match self.machine() {
            None => {
                *asked = nothing_asked();
                regs
            }
            Some(machine) => {
                let call = machine.translate(mode, regs);
                *asked = asked_shown(call.asked);
                call.regs
            }
        }
    }
}

/// What names its things, and a status word for each of its cores.
#[derive(Drop)]
pub struct Common {
    /// The board, or the machine with it.
    pub naming: Naming,
    /// The status words of its cores.
    pub words: StatusWords,
    ghost fits: { (table words).words ≡ cores (board_of naming) },
}

/// Both, to be shared. It has a frame of its own, so that none is held while a firmware is made.
#[inline(never)]
pub fn share(alloc: Global, naming: Naming, words: StatusWords) -> Result<Arc<Common>, Memory>
    requires { (table words).words ≡ cores (board_of naming) }
    ensures naming { IfOk result (λ common. (arc_value common).naming ≡ naming) }
    ensures words { IfOk result (λ common. (arc_value common).words ≡ words) }
{
    match Arc::new(alloc, Common { naming, words }) {
        Ok(common) => Ok(common),
        Err(_) => Err(Memory),
    }
}
