//! Scripts of events as texts: their lines, the grammar of a line, the answer line of an event, the
//! loop that takes a script from a device and tells what came of it, and how a program ends.
//!
//! - The *answer text* of a script has one line for each event before the first fault.
//! - A run is *kept* as a script of its board and its events, which is read again as these.
//! - A *source* and a *sink* are the devices that a script comes from and its answers go to.
//! - A *block* is the bytes that were read and not yet taken; a *progress* is a script on its way.
//! - A *teller* makes the events of a script happen, and tells what came of them.
//! - A *failure* is why a program ended before it was done: an exit status and a line.
#![tactic(auto)]

mod answer_line;
mod answers;
mod block;
mod device;
mod exit;
mod fault;
mod grammar;
mod keeping;
mod laws;
mod standard;
mod teller;
mod telling;
mod transfer;

pub use answer_line::{LONGEST_ANSWER, read_board, write_answer};
pub use answers::Answers;
pub use block::Block;
pub use device::{Io, Sink, Source};
pub use exit::{AuditFailure, Failure, end};
pub use fault::{ReplayFault, Replayed, ScriptFault};
pub use grammar::{Line, read_line};
pub use keeping::write_script;
pub use laws::{law_event_lines, law_kept_lines};
pub use psci_board::{BoardFault, law_boards, literal};
pub use psci_world_spec::{Act, Board, Code, Event, Record, Said};
pub use standard::Std;
pub use teller::Teller;
pub use telling::{Progress, tell};
pub use transfer::{Extent, Front, LONGEST_LINE, MOST_LINES, cut, last_line};
