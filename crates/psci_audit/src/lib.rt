//! The audit of what threads did: whether the books of a firmware and a power controller, merged by
//! their tickets, are the list of one legal run; and what it is for a list of calls to be that.
//!
//! - A *trace* is the entries of both books; the *merged list* has all in the order of tickets.
//! - An *entry* is one call with its reply. A *list* of entries has its newest first.
//! - An entry *may follow* a list if the call could have been made then, and the reply is the one
//!   that the entries so far ask for. A list is *legal* if each of its entries may follow those
//!   before it. That is said of the entries alone.
//! - A run *tells* a list if it has one record for each entry, in order, with the same reply.
#![tactic(auto)]

mod fault;
mod finding;
mod following;
mod laws;
mod merging;
mod said;
mod tickets;
mod trace;

pub use fault::AuditFault;
pub use laws::law_told;
pub use merging::{Retold, audit, retell};
pub use psci_shared::{CtlEntry, FwCall, FwEntry};
pub use psci_world::World;
pub use trace::Trace;
