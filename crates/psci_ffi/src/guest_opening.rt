//! Making the power of a guest, with a machine whose words its calls are in or without, and letting
//! it go.

ghost use Rattle.std.specs.Prelude.{◌≡◌, Err, IfErr, IfOk, IsSomeAnd, None, Ok, Result};
ghost use Rattle.psci_board.specs.Board.{BoardValue};
ghost use Rattle.psci_board.specs.declared.fault.BoardFault.{BoardFault};
ghost use Rattle.psci_board.specs.Verdict.{Answers, board_of as board_said};
ghost use Rattle.psci_ffi.specs.Codes.{opened_said};
ghost use Rattle.psci_ffi.specs.Given.{board_of_given};
ghost use Rattle.psci_ffi.specs.Guests.{IsNewTold, IsSame, Opens};
ghost use Rattle.psci_ffi.specs.Namings.{board_of, machine_of};
ghost use Rattle.psci_ffi.specs.Machines.{IsGuestWith, OpensGuest, machine_said};

use crate::codes::opened_code;
use crate::given::{GivenBoard, kept_given};
use crate::guest::{Guest, GuestPlace};
use crate::guest_calls::{GuestTurn, write_arrival};
use crate::machine::{GivenMachine, MachineFault, machine_code, make};
use crate::naming::Naming;
use crate::opening::read;
use psci_board::{Board, BoardFault, Memory};
use psci_platform::Platform;
use std::alloc::Global;

/// Puts the power of a new guest of the board that the text describes into the place, and frees the
/// one that was there: 0, and how the boot core enters. Else the number of the text's first fault,
/// or 8 where memory lacks, and nothing changes.
#[unsafe(no_mangle)]
pub extern "C" fn psci_guest_open(
    alloc: Global,
    place: &mut GuestPlace,
    text: &[u8],
    boot: &mut GuestTurn,
) -> u32
    ensures { Opens (opened_said result) (board_said text.now) place.old.slot.kept
        place.new.slot.kept boot.old boot.new }
{
    opened_code(open(alloc, place, read(alloc, text), boot))
}

/// The same, of the board that the struct gives: the faults are those of `psci_open_board`.
#[unsafe(no_mangle)]
pub extern "C" fn psci_guest_open_board(
    alloc: Global,
    place: &mut GuestPlace,
    board: &GivenBoard,
    boot: &mut GuestTurn,
) -> u32
    ensures { Opens (opened_said result) (board_of_given board.now) place.old.slot.kept
        place.new.slot.kept boot.old boot.new }
{
    opened_code(open(alloc, place, kept_given(alloc, board), boot))
}

/// Frees the power of the guest in the place, which is empty then.
#[unsafe(no_mangle)]
pub extern "C" fn psci_guest_close(alloc: Global, place: &mut GuestPlace)
    ensures { place.new.slot.kept ≡ None }
{
    empty(alloc, place);
}

/// Puts the power of a new guest into the place, if there is a board and memory.
fn open(
    alloc: Global,
    place: &mut GuestPlace,
    board: Result<Box<Board>, BoardFault>,
    boot: &mut GuestTurn,
) -> Result<(), BoardFault>
    ensures { (said : Result BoardValue BoardFault) → IfOk board (λ b. said ≡ Ok b.value)
        → IfErr board (λ fault. Answers (Err fault) said)
        → Opens result said place.old.slot.kept place.new.slot.kept boot.old boot.new }
{
    Ok(renew(alloc, place, Naming::Board(board?), boot)?)
}

/// Puts the power of a new guest in these words into the place, if there is memory.
pub fn renew(
    alloc: Global,
    place: &mut GuestPlace,
    naming: Naming,
    boot: &mut GuestTurn,
) -> Result<(), Memory>
    ensures done { IfOk result (λ _. IsSomeAnd place.new.slot.kept
        (IsNewTold (board_of naming) (machine_of naming) boot.new)) }
    ensures same { IfErr result (λ _. IsSame place.old.slot.kept place.new.slot.kept boot.old
        boot.new) }
{
    let (guest, arrival) = Guest::new(alloc, naming)?;
    let guest = boxed(alloc, guest)?;
    write_arrival(boot, guest.life(), arrival);
    empty(alloc, place);
    place.put(guest);
    Ok(())
}

/// The power of a guest in memory of its own.
#[inline(never)]
fn boxed(alloc: Global, guest: Guest) -> Result<Box<Guest>, Memory>
    ensures { IfOk result (λ boxed. boxed.value ≡ guest) }
{
    match Box::new(alloc, guest) {
        Ok(boxed) => Ok(boxed),
        Err(_) => Err(Memory),
    }
}

/// Frees the power of the guest in the place.
fn empty(alloc: Global, place: &mut GuestPlace)
    ensures { place.new.slot.kept ≡ None }
{
    drop(place.take(alloc));
}

/// Puts the power of a new guest of this board into the place, in the words of this machine, whose
/// boot core has this MPIDR, and frees the one that was there: 0, and how the boot core enters.
/// Else a fault of `psci_open_machine`, and nothing changes.
#[unsafe(no_mangle)]
pub extern "C" fn psci_guest_open_machine(
    alloc: Global,
    place: &mut GuestPlace,
    board: &GivenBoard,
    machine: &GivenMachine,
    mpidr: u64,
    boot: &mut GuestTurn,
) -> u32
    ensures { OpensGuest (machine_said result) (board_of_given board.now) machine.now mpidr
        place.old.slot.kept place.new.slot.kept boot.old boot.new }
{
    machine_code(open_machine(alloc, place, board, machine, mpidr, boot))
}

/// Puts the power of a new guest into the place, if structs give a machine and memory suffices.
#[tactic(auto, using(crate::proofs::Making::opening))]
fn open_machine(
    alloc: Global,
    place: &mut GuestPlace,
    board: &GivenBoard,
    given: &GivenMachine,
    mpidr: u64,
    boot: &mut GuestTurn,
) -> Result<(), MachineFault>
    ensures { OpensGuest result (board_of_given board.now) given.now mpidr place.old.slot.kept
        place.new.slot.kept boot.old boot.new }
{
    let machine = make(alloc, board, given, mpidr)?;
    match put(alloc, place, machine, boot) {
        Ok(()) => Ok(()),
        Err(Memory) => Err(MachineFault::Board(BoardFault::Memory)),
    }
}

/// Puts the power of a new guest in the words of this machine into the place, if there is memory.
fn put(
    alloc: Global,
    place: &mut GuestPlace,
    machine: Platform,
    boot: &mut GuestTurn,
) -> Result<(), Memory>
    ensures done { IfOk result (λ _. IsSomeAnd place.new.slot.kept
        (IsGuestWith machine boot.new)) }
    ensures same { IfErr result (λ _. IsSame place.old.slot.kept place.new.slot.kept boot.old
        boot.new) }
{
    let machine = Box::new(alloc, machine.in_order(alloc)?)?;
    renew(alloc, place, Naming::Machine(machine), boot)
}
