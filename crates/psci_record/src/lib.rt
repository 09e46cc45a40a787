//! The record of a port's run as text: of each event its line, by which the run is compared with
//! the proved program.
//!
//! - A *line* is an event and what came of it, as a port has them: registers, frames and numbers.
//! - A core is *named* by the MPIDR that it reads, or by its number.
//! - A *frame* is written as two digits for each byte, up to its last one that is not 0.
#![tactic(auto)]

mod core_text;
mod digits;
mod event_text;
mod frame_text;
mod laws;
mod line;
mod outcome_text;
mod reply_text;
mod room;

pub use event_text::{
    write_begins, write_call, write_deliver, write_enter, write_leaves, write_poll, write_reset,
    write_stands, write_take, write_wake,
};
pub use laws::law_lines;
pub use line::{Begun, FRAME_BYTES, Named, Next, Outcome, Polled, Reply, Started, Taken};
pub use room::LONGEST_LINE;
