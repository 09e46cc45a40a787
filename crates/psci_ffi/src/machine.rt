//! What a machine calls its cores, power states and functions, as C gives it: a struct of numbers,
//! what is wrong with it, and a firmware whose calls are in its words.

ghost use Rattle.std.specs.Prelude.{◌≡◌, IfErr, IfOk, IsSomeAnd, map, take};
ghost use Rattle.psci_ffi.specs.Machines.{IsMade, IsNewWith, OpensMachine, all_classes};
ghost use Rattle.psci_ffi.specs.Machines.{class_given, classes_given, functions_given, has_room};
ghost use Rattle.psci_ffi.specs.Machines.{machine_given, machine_said, row_given};
ghost use Rattle.psci_ffi.specs.Given.{board_of_given};

use crate::codes::opened_code;
use crate::given::{GivenBoard, read_given};
use crate::naming::Naming;
use crate::opening::renew;
use crate::place::Place;
use psci_board::{BoardFault, MOST_CORES, Memory};
use psci_platform::{Class, Classes, Description, Functions, Platform, PlatformFault, Row};
use std::alloc::Global;
use std::mem::size_of;

/// How many rows there is room for.
pub const MOST_ROWS: usize = 64;

/// How many resets of the vendor there is room for.
pub const MOST_RESETS: usize = 8;

/// How many sets of functions there are: eight functions are there or not.
const SETS: u32 = 256;

/// A power state word.
#[repr(C)]
#[derive(Clone, Copy)]
pub struct GivenRow {
    /// The word.
    pub word: u32,
    /// The bits of a call's word that count.
    pub mask: u32,
    /// The number of the state of each level, from the core's up: 0 where it goes on running.
    pub states: [u8; 4],
}

/// A machine. What is not counted is not looked at.
#[repr(C)]
#[derive(Clone, Copy)]
pub struct GivenMachine {
    /// How many levels above the cores can be taken down.
    pub levels: u32,
    /// The functions that are there: a bit for each.
    pub functions: u32,
    /// How many cores have an MPIDR.
    pub many_mpidrs: u32,
    /// How many power state words there are.
    pub many_rows: u32,
    /// How many resets are the vendor's own.
    pub many_resets: u32,
    /// How many states of each level, from number 1 up, are standby.
    pub standby: [u8; 4],
    /// How many behind these are retention. All others power down.
    pub retention: [u8; 4],
    /// What SYSTEM_SUSPEND asks of each level.
    pub system: [u8; 4],
    /// The reset types that are the vendor's own.
    pub resets: [u32; MOST_RESETS],
    /// The power state words.
    pub rows: [GivenRow; MOST_ROWS],
    /// The MPIDR of each core, in the order of the board's tree.
    pub mpidrs: [u64; MOST_CORES],
}

// The sizes that psci.h gives these.
const _: () = prove!(size_of::<GivenRow>() == 12);

const _: () = prove!(size_of::<GivenMachine>() == 2880);

impl GivenRow {
    /// The row.
    pub fn row(&self) -> Row
        ensures { result ≡ row_given self.now }
    {
        Row {
            word: self.word,
            mask: self.mask,
            states: self.states,
        }
    }
}

impl GivenMachine {
    /// Whether no more is counted than there is room for, and no other function is there.
    pub fn has_room(&self) -> bool
        ensures { result ≡ has_room self.now }
    {
        self.many_mpidrs <= MOST_CORES as u32
            && self.many_rows <= MOST_ROWS as u32
            && self.many_resets <= MOST_RESETS as u32
            && self.functions < SETS
    }

    /// The MPIDRs that are counted.
    pub fn mpidrs(&self) -> &[u64]
        ensures { result.now ≡ take self.now.many_mpidrs self.now.mpidrs }
    {
        let end = (self.many_mpidrs as usize).min(MOST_CORES);
        &self.mpidrs[..end]
    }

    /// The rows that are counted.
    pub fn rows(&self) -> &[GivenRow]
        ensures { result.now ≡ take self.now.many_rows self.now.rows }
    {
        let end = (self.many_rows as usize).min(MOST_ROWS);
        &self.rows[..end]
    }

    /// The resets that are counted.
    pub fn resets(&self) -> &[u32]
        ensures { result.now ≡ take self.now.many_resets self.now.resets }
    {
        let end = (self.many_resets as usize).min(MOST_RESETS);
        &self.resets[..end]
    }

    /// The class of each state.
    pub fn classes(&self) -> Classes
        ensures { result.levels ≡ all_classes self.now }
    {
        let (standby, retention) = (self.standby, self.retention);
        let levels = [
            classes_given(standby[0], retention[0]),
            classes_given(standby[1], retention[1]),
            classes_given(standby[2], retention[2]),
            classes_given(standby[3], retention[3]),
        ];
        Classes { levels }
    }

    /// The functions that are there.
    pub fn functions(&self) -> Functions
        ensures { result ≡ functions_given self.now.functions }
    {
        let set = self.functions;
        Functions {
            cpu_suspend: set % 2 == 1,
            cpu_off: set / 2 % 2 == 1,
            cpu_on: set / 4 % 2 == 1,
            system_off: set / 8 % 2 == 1,
            system_reset: set / 16 % 2 == 1,
            node_hw_state: set / 32 % 2 == 1,
            system_suspend: set / 64 % 2 == 1,
            system_reset2: set / 128 % 2 == 1,
        }
    }
}

/// The class of a state, of a level with so many states in standby and in retention.
fn class_given(standby: u8, retention: u8, number: u16) -> Class
    ensures { result ≡ class_given standby retention number }
{
    if number == 0 {
        Class::Running
    } else if number <= u16::from(standby) {
        Class::Standby
    } else if number <= u16::from(standby) + u16::from(retention) {
        Class::Retention
    } else {
        Class::PowerDown
    }
}

/// The class of each state of such a level.
fn classes_given(standby: u8, retention: u8) -> [Class; 16]
    ensures { result ≡ classes_given standby retention }
{
    [
        class_given(standby, retention, 0),
        class_given(standby, retention, 1),
        class_given(standby, retention, 2),
        class_given(standby, retention, 3),
        class_given(standby, retention, 4),
        class_given(standby, retention, 5),
        class_given(standby, retention, 6),
        class_given(standby, retention, 7),
        class_given(standby, retention, 8),
        class_given(standby, retention, 9),
        class_given(standby, retention, 10),
        class_given(standby, retention, 11),
        class_given(standby, retention, 12),
        class_given(standby, retention, 13),
        class_given(standby, retention, 14),
        class_given(standby, retention, 15),
    ]
}

/// More is counted than there is room for, or there is another function.
pub const NO_ROOM: u32 = 64;

/// Why a machine is not opened.
#[derive(Clone, Copy, Debug, PartialEq, Eq)]
pub enum MachineFault {
    /// Its board has this fault, or memory lacks.
    Board(BoardFault),
    /// More is counted than there is room for, or there is another function.
    Room,
    /// Its description has this fault.
    Description(PlatformFault),
}

/// What came of an opening: 0, or the number of the first fault.
pub fn machine_code(opened: Result<(), MachineFault>) -> u32
    ensures { machine_said result ≡ opened }
{
    match opened {
        Ok(()) => 0,
        Err(MachineFault::Board(fault)) => opened_code(Err(fault)),
        Err(MachineFault::Room) => NO_ROOM,
        Err(MachineFault::Description(PlatformFault::WrongCount)) => 65,
        Err(MachineFault::Description(PlatformFault::BadMpidr)) => 66,
        Err(MachineFault::Description(PlatformFault::SameMpidr)) => 67,
        Err(MachineFault::Description(PlatformFault::NoBootCore)) => 68,
        Err(MachineFault::Description(PlatformFault::LateBootCore)) => 69,
        Err(MachineFault::Description(PlatformFault::TooManyLevels)) => 70,
        Err(MachineFault::Description(PlatformFault::FallingClass)) => 71,
        Err(MachineFault::Description(PlatformFault::TooManyRows)) => 72,
        Err(MachineFault::Description(PlatformFault::BadWord)) => 73,
        Err(MachineFault::Description(PlatformFault::SameWord)) => 74,
        Err(MachineFault::Description(PlatformFault::WrongType)) => 75,
        Err(MachineFault::Description(PlatformFault::BadStates)) => 76,
        Err(MachineFault::Description(PlatformFault::BadSystem)) => 77,
        Err(MachineFault::Description(PlatformFault::BadFunctions)) => 78,
    }
}

/// Puts a new firmware of this board into the place, in the words of this machine, whose boot core
/// has this MPIDR, and frees the one that was there: 0. Else the number of the first fault, and
/// nothing changes: the board's first; 64 where more is counted than there is room for, or another
/// function is there; of the description 64 and the number that its fault has in a machine text; or
/// 8 where memory lacks.
#[unsafe(no_mangle)]
pub extern "C" fn psci_open_machine(
    alloc: Global,
    place: &mut Place,
    board: &GivenBoard,
    machine: &GivenMachine,
    boot: u64,
) -> u32
    ensures { OpensMachine (machine_said result) (board_of_given board.now) machine.now boot
        place.old.slot.kept place.new.slot.kept }
{
    machine_code(open(alloc, place, board, machine, boot))
}

/// Puts a new firmware into the place, if the structs are a machine's and there is memory.
#[tactic(auto, using(crate::proofs::Making::opening))]
fn open(
    alloc: Global,
    place: &mut Place,
    board: &GivenBoard,
    given: &GivenMachine,
    boot: u64,
) -> Result<(), MachineFault>
    ensures { OpensMachine result (board_of_given board.now) given.now boot place.old.slot.kept
        place.new.slot.kept }
{
    let machine = make(alloc, board, given, boot)?;
    match put(alloc, place, machine) {
        Ok(()) => Ok(()),
        Err(Memory) => Err(MachineFault::Board(BoardFault::Memory)),
    }
}

/// Puts a new firmware in the words of this machine into the place, if there is memory.
fn put(alloc: Global, place: &mut Place, machine: Platform) -> Result<(), Memory>
    ensures done { IfOk result (λ _. IsSomeAnd place.new.slot.kept (IsNewWith machine)) }
    ensures same { IfErr result (λ _. place.new.slot.kept ≡ place.old.slot.kept) }
{
    let machine = Box::new(alloc, machine.in_order(alloc)?)?;
    renew(alloc, place, Naming::Machine(machine))
}

/// The machine, or the first fault.
#[tactic(auto, using(crate::proofs::Making::making))]
pub fn make(
    alloc: Global,
    board: &GivenBoard,
    given: &GivenMachine,
    boot: u64,
) -> Result<Platform, MachineFault>
    ensures { IsMade result (board_of_given board.now) given.now boot }
{
    let board = match read_given(alloc, board) {
        Ok(board) => board,
        Err(fault) => return Err(MachineFault::Board(fault)),
    };
    if !given.has_room() {
        return Err(MachineFault::Room);
    }
    let Ok(description) = describe(alloc, given) else {
        return Err(MachineFault::Board(BoardFault::Memory));
    };
    match Platform::new(description, board, boot) {
        Ok(machine) => Ok(machine),
        Err(fault) => Err(MachineFault::Description(fault)),
    }
}

/// The description of a struct that counts no more than there is room for.
fn describe(alloc: Global, given: &GivenMachine) -> Result<Description, Memory>
    ensures { IfOk result (λ d. d ≡ machine_given given.now) }
{
    let mpidrs = Vec::from_slice(alloc, given.mpidrs())?;
    let rows = rows(alloc, given.rows())?;
    let resets = Vec::from_slice(alloc, given.resets())?;
    Ok(Description {
        mpidrs,
        levels: given.levels,
        classes: given.classes(),
        rows,
        system: given.system,
        functions: given.functions(),
        resets,
    })
}

/// These rows.
fn rows(alloc: Global, rows: &[GivenRow]) -> Result<Vec<Row>, Memory>
    ensures { IfOk result (λ made. made.items ≡ map row_given rows.now) }
{
    let mut made = Vec::with_capacity(alloc, rows.len())?;
    for row in rows {
        made.push(row.row())?;
    }
    Ok(made)
}
