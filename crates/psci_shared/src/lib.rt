//! One firmware and one power controller that core threads share, each behind a lock, with a book
//! of all that it was asked.
//!
//! - A *book* has an *entry* for each call, in the order in which the calls were carried out.
//! - A *pass* is what one thread calls by: it has a core, and keeps an *item* for each of its
//!   calls: the place of its entry, the call and the reply.
//! - A *ticket* is a number that is drawn while a lock is held; tickets of both books are drawn
//!   from one row.
//! - Passes are *gathered* with the book once all calls are done, and each place then stands in one
//!   pass.
//!
//! Entries, books, items, passes, their ledger and how they are gathered are of any machine that
//! [`Answers`]; the firmware and the power controller have them by names of their own.
#![tactic(auto)]

mod agreement;
mod answers;
mod asking;
mod book;
mod controller;
mod done;
mod entry;
mod fault;
mod firmware;
mod gather;
mod gathered;
mod laws;
mod locked;
mod made;
mod named;
mod pass;
mod same;
mod seen;
mod shared;
mod sighting;
mod tally;
mod tickets;
mod touching;
mod writing;

pub use agreement::agree;
pub use answers::Answers;
pub use book::BookOf;
pub use controller::{
    CtlBook, CtlBooks, CtlCall, CtlEntry, CtlGatherFault, CtlItem, CtlLocked, CtlPass, CtlReply,
    Delivery, Kick, Message, SharedController,
};
pub use entry::{BookFull, Entry, FwEntry, FwItem, Item};
pub use fault::{CallFault, GatherCause, PassFault};
pub use firmware::FwBook;
pub use gather::{Books, GatherFault};
pub use gathered::{BooksOf, GatherFaultOf};
pub use laws::{law_own_calls, law_polls};
pub use locked::FwLocked;
pub use made::{MOST_PASSES, Made};
pub use named::Named;
pub use pass::PassOf;
pub use psci_fw::{Code, FwCall, FwFault, FwReply, Outcome, Regs, Start, Status, Taken};
pub use psci_messages::Ack;
pub use psci_status::{Board, Core, Memory, Reader, StatusWords, Writer};
pub use same::is_same_message;
pub use seen::{Pass, Seen};
pub use shared::SharedFirmware;
pub use sighting::Sighting;
pub use tally::Tally;
pub use tickets::Tickets;
