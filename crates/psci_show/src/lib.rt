//! A run as people and programs read it: scripts in, and a row for each event out.
//!
//! - A *run* is a world with the sleep of each core, and of each acknowledgement the number of its
//!   message: what its words need.
//! - The *row* of an event begins with its *front*: its number, and in JSON the event and its
//!   answer. Contracts say that each event has its row, in order; what else stands in it is tested,
//!   text for text.
//! - The *names* stand in one table: of functions, of what they return, of levels, depths and kinds
//!   of messages. The *words* of a record are made of them.
//! - The *columns* are the state of each core and the depths of each power domain, in a row or as
//!   *entries* by names. A *sleep* is what a suspended core asked of itself.
//! - A *wrapped* text stands in lines of a width.
#![tactic(auto)]

mod answer;
mod call;
mod event_json;
mod event_object;
mod front;
mod lines;
mod run;
mod showing;
mod state;
mod words;

pub use lines::{Form, Layout};
pub use showing::show;
