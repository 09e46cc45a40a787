//! Whole runs: replays (`psci_answers`), storms (`psci_storm`), core threads over a lossy link, and
//! the audit of what they did (`psci_audit`).
//!
//! - A *worker* is what a core's thread does, the *link* what the link thread does. The *platform*
//!   is what all threads of a run share; the *wire* has the queues of frames.
//! - The *gate* is asked before each call, and told once it is answered.
//! - A *turn* is one look of a thread that waits; after it the thread gives the processor away.
//! - A worker is *busy* while its core runs or can wake itself: it may yet ask another core on. All
//!   is *still* once no worker is busy and no frame is under way.
#![tactic(auto)]

mod arriving;
mod calling;
mod calls;
mod cores;
mod counts;
mod gate;
mod gathering;
mod link;
mod outstanding;
mod platform;
mod watch;
mod wire;
mod worker;

pub use calls::request_of;
pub use cores::run_cores;
pub use counts::{calls_of, entries_of};
pub use gate::{Gate, OpenGate};
pub use gathering::{BenchFault, Cut, Gathered, Polled, Threaded, threads};
pub use psci_answers::{
    Io, ReplayFault, Replayed, ScriptFault, Sink, Source, Std, law_event_lines, law_safe_scripts,
    replay,
};
pub use psci_audit::{AuditFault, CtlEntry, FwEntry, Retold, Trace, World, audit, retell};
pub use psci_shared::{Board, Core, Sighting, Status};
pub use psci_storm::{Settled, Storm, StormedWorld, storm, storm_world, write_counts};
pub use wire::Wire;
