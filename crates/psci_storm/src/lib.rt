//! Storms: events that are drawn from a seed happen in a world, and then it settles. And what came
//! of them: how often each thing that was asked got each answer.
//!
//! - Which events are drawn is said by no contract. The same seed draws the same on every machine.
//! - A *plain* draw may be any event; an *aimed* one leads to what is rare.
//! - A storm is *alive* while some core can still come to call. A *last exit* ends that.
//! - A *tally* is what was asked, without its arguments, with what was answered, without numbers
//!   that only name something. The *count* of a tally is the number of its records.
#![tactic(auto)]

mod aims;
mod answer;
mod counting;
mod draws;
mod outcome;
mod plain;
mod states;
mod table;

pub use answer::{Answer, Asked, Tally};
pub use counting::{count, write_counts};
pub use draws::{Draws, blow, storm, storm_world};
pub use outcome::{Storm, StormedWorld};
pub use plain::affinity;
pub use psci_world::Settled;
pub use table::TALLIES;
