//! What holds of the tree of every board. Each law is a function that does nothing, whose contract
//! is the law.

ghost use Rattle.std.specs.Prelude.{◌≡◌, List, Ok, Some, ℕ};
ghost use Rattle.psci_board.specs.Board.{BoardValue, ChildLaws, IsBoard, IsTree, ParentLaws};
ghost use Rattle.psci_board.specs.Board.{PathLaws, SizeLaws, SpanLaws, WordLaws};
ghost use Rattle.psci_board.specs.Grammar.{BoardText, IsBoardText, spelling, TextLaws};
ghost use Rattle.psci_board.specs.Verdict.{board_of, board_text};

/// Each level has 1 to 256 nodes, and that of the system has one.
pub fn law_sizes()
    ensures { (b : BoardValue) → IsBoard b → SizeLaws b }
{}

/// A path has one node of each level, and cores whose paths meet share them from there up. Each
/// node is on the path of some core.
#[tactic(auto, using(crate::proofs::Paths::path_laws))]
pub fn law_paths()
    ensures { (b : BoardValue) → IsBoard b → PathLaws b }
{}

/// The children of a node part the cores below it: each is below exactly one child, and the cores
/// below a node are those below its first child, then those below the second, and so on.
#[tactic(auto, using(crate::proofs::Paths::child_laws))]
pub fn law_children()
    ensures { (b : BoardValue) → IsBoard b → ChildLaws b }
{}

/// One step up and one step down are each other's inverse: a node is the parent of its children,
/// and each node below the system is the child of its parent that has its number.
#[tactic(auto, using(crate::proofs::Named::parent_laws))]
pub fn law_parents()
    ensures { (b : BoardValue) → IsBoard b → ParentLaws b }
{}

/// The cores below a node stand side by side: they are the cores of its span, and so a list by
/// core, cut to the span, is a list of the cores below. The spans of the children of a node follow
/// each other, from the first core of its own span to the last.
pub fn law_spans()
    ensures { (levels : List (List ℕ)) → IsTree levels → SpanLaws levels }
{}

/// Each node and core is named by the words that have its affinity fields, and by no others. A
/// child has its number in a field below those of its parent. A core is named by a word of 24 bits.
pub fn law_words()
    ensures { (b : BoardValue) → IsBoard b → WordLaws b }
{}

// The laws of board texts: that each describes a board, and that a text is read as it is spelled.
// A law is the contract of a function that does nothing.

/// What holds of every board holds of each board that a text describes: whoever has the board of a
/// text may use all that is known of boards.
pub fn law_boards()
    ensures { (bytes : List ℕ) (b : BoardValue) → board_of bytes ≡ Ok b → IsBoard b }
{}

/// A board text is read as it is spelled, and in no other way: reading and grammar are one, for
/// every text.
///
/// The first clause rules out a reading that refuses a text of the grammar, or that takes it for
/// another one: no text has two meanings. The second rules out a reading that accepts what the
/// grammar does not spell: a second space between two words or one at an end, a number with a
/// leading zero or of 2 to the 64 or more, an address of no digit or of more than 16, `0X` for
/// `0x`, an empty list, a third bracket, a text without a range, or anything after the text.
pub fn law_board_text()
    ensures again { (t : BoardText) → IsBoardText t → board_text (spelling t) ≡ Some t }
    ensures spelled { (bytes : List ℕ) (t : BoardText) → board_text bytes ≡ Some t
        → IsBoardText t × (bytes ≡ spelling t) }
{
    law_text();
}

// The law that words and numbers are read as they are spelled, and in no other way.

/// Words and numbers are read as they are spelled, and in no other way.
///
/// That what is spelled is read so rules out a reading that refuses a number below 2 to the 64,
/// digits of either case or leading zeros of a hexadecimal number, or that takes one for another.
/// That what is read is spelled so rules out a reading that accepts a word in another case, a
/// leading zero or a number of 2 to the 64 or more, `0X` for `0x`, no digit, or more than 16.
#[tactic(auto, using(crate::proofs::SpelledParts::reading))]
pub fn law_text()
    ensures { TextLaws }
{}
