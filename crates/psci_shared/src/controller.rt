//! One power controller that core threads share, behind a lock, with a book of all that it was
//! asked. Its passes and how they are gathered are those of the firmware.

mod book;
mod entry;
mod locked;
mod shared;

pub use book::CtlBook;
pub use entry::{CtlEntry, CtlItem, CtlPass};
pub use locked::{CtlBooks, CtlGatherFault, CtlLocked};
pub use psci_ctl::{CtlCall, CtlReply, Delivery, Kick, Message};
pub use shared::SharedController;
