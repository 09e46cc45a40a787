//! Scripts of events, replayed in a world, and answered. What an event is, and what is said of it,
//! are those of `psci_world_spec`; the lines of a script, their way in and out and its answer text
//! are those of `psci_script`.
#![tactic(auto)]

mod laws;
mod run;

pub use laws::law_safe_scripts;
pub use psci_script::{Io, ReplayFault, Replayed, ScriptFault, Sink, Source, Std, law_event_lines};
pub use run::replay;
