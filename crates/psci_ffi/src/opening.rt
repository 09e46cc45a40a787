//! Making a firmware, and letting it go.

ghost use Rattle.std.specs.Prelude.{◌≡◌, Err, IfErr, IfOk, IsSomeAnd, None, Ok, Result};
ghost use Rattle.psci_board.specs.Board.{BoardValue};
ghost use Rattle.psci_board.specs.declared.fault.BoardFault.{BoardFault};
ghost use Rattle.psci_board.specs.Verdict.{Answers, board_of};
ghost use Rattle.psci_ffi.specs.Codes.{opened_said};
ghost use Rattle.psci_ffi.specs.Given.{board_of_given};
ghost use Rattle.psci_ffi.specs.Shown.{IsNewIn, Opens};

use crate::codes::opened_code;
use crate::given::{GivenBoard, kept_given};
use crate::held::Held;
use crate::naming::Naming;
use crate::place::Place;
use psci_board::{Board, BoardFault, Memory};
use std::alloc::Global;

/// Puts a new firmware of the board that the text describes into the place, and frees the one that
/// was there: 0. Else the number of the text's first fault, or 8 where memory lacks, and nothing
/// changes.
#[unsafe(no_mangle)]
pub extern "C" fn psci_open(alloc: Global, place: &mut Place, text: &[u8]) -> u32
    ensures { Opens (opened_said result) (board_of text.now) place.old.slot.kept
        place.new.slot.kept }
{
    opened_code(open(alloc, place, read(alloc, text)))
}

/// The same, of the board that the struct gives: 0. Else the number of the struct's first fault, as
/// of the text that says the same, or 8 where memory lacks, and nothing changes. 1 says that there
/// are not one to three levels, that one has more than 256 nodes, or that no format has this
/// number; 2 that a level has not as many nodes as the one above has children, or the highest not
/// one.
#[unsafe(no_mangle)]
pub extern "C" fn psci_open_board(alloc: Global, place: &mut Place, board: &GivenBoard) -> u32
    ensures { Opens (opened_said result) (board_of_given board.now) place.old.slot.kept
        place.new.slot.kept }
{
    opened_code(open(alloc, place, kept_given(alloc, board)))
}

/// Frees the firmware in the place, which is empty then.
#[unsafe(no_mangle)]
pub extern "C" fn psci_close(alloc: Global, place: &mut Place)
    ensures { place.new.slot.kept ≡ None }
{
    empty(alloc, place);
}

/// Puts a new firmware into the place, if there is a board and memory.
fn open(
    alloc: Global,
    place: &mut Place,
    board: Result<Box<Board>, BoardFault>,
) -> Result<(), BoardFault>
    ensures { (said : Result BoardValue BoardFault) → IfOk board (λ b. said ≡ Ok b.value)
        → IfErr board (λ fault. Answers (Err fault) said)
        → Opens result said place.old.slot.kept place.new.slot.kept }
{
    Ok(renew(alloc, place, Naming::Board(board?))?)
}

/// The board of a text. It has a frame of its own, which is gone from the stack when the firmware
/// is made.
#[inline(never)]
pub fn read(alloc: Global, text: &[u8]) -> Result<Box<Board>, BoardFault>
    ensures board { IfOk result (λ board. board_of text.now ≡ Ok board.value) }
    ensures fault { IfErr result (λ fault. Answers (Err fault) (board_of text.now)) }
{
    let board = Board::read_bytes(alloc, text)?;
    Ok(keep(alloc, board)?)
}

/// Puts a new firmware in these words into the place, if there is memory.
pub fn renew(alloc: Global, place: &mut Place, naming: Naming) -> Result<(), Memory>
    ensures done { IfOk result (λ _. IsSomeAnd place.new.slot.kept (IsNewIn naming)) }
    ensures same { IfErr result (λ _. place.new.slot.kept ≡ place.old.slot.kept) }
{
    let held = Held::new(alloc, naming)?;
    let boxed = boxed(alloc, held)?;
    empty(alloc, place);
    place.put(boxed);
    Ok(())
}

/// A firmware in memory of its own.
#[inline(never)]
fn boxed(alloc: Global, held: Held) -> Result<Box<Held>, Memory>
    ensures { IfOk result (λ boxed. boxed.value ≡ held) }
{
    match Box::new(alloc, held) {
        Ok(boxed) => Ok(boxed),
        Err(refused) => {
            drop(refused.value.alone());
            Err(Memory)
        }
    }
}

/// Frees the firmware in the place. It has a frame of its own.
#[inline(never)]
fn empty(alloc: Global, place: &mut Place)
    ensures { place.new.slot.kept ≡ None }
{
    if let Some(held) = place.take(alloc) {
        drop(Held::unboxed(held));
    }
}

/// A board in memory of its own, so that it is moved as a pointer.
#[inline(never)]
pub fn keep(alloc: Global, board: Board) -> Result<Box<Board>, Memory>
    ensures { IfOk result (λ kept. kept.value ≡ board) }
{
    match Box::new(alloc, board) {
        Ok(kept) => Ok(kept),
        Err(_) => Err(Memory),
    }
}

/// Lets a board go. It has a frame of its own.
#[inline(never)]
pub fn let_go(board: Box<Board>) {
    drop(board);
}
