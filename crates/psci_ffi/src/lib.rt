//! The firmware and the power controller for C, kept between calls in places of the caller's.
//!
//! - A *place* is memory of the caller's that holds a firmware, or a power controller, or is empty;
//! all zero is empty.
//! - A *poller* is such a place for one who polls: it reads status words without the firmware's
//! lock.
//! - A *machine* has names of its own for its cores, power states and functions: a place is opened
//! with one, or has the board's words.
//! - An *answer* is what came of a call, as C sees it, with the frame of the message that is sent.
//! - A *line* is the text of an event in a record, in a struct of the caller's.
//! - A *refusal* is an answer from 16 on: the caller's mistake has a number, and nothing changed.
#![tactic(auto)]

/// What is in a place, where it stands. The call ends with this where the place is empty.
macro_rules! lent {
    ($place:ident.$kind:ident else $empty:expr) => {{
        if !$place.full {
            return $empty;
        }
        $place.slot.$kind()
    }};
}

mod answer;
mod calls;
mod codes;
mod control_calls;
mod control_doors;
mod control_place;
mod controller_calls;
mod controller_place;
mod controller_readers;
mod fields;
mod given;
mod guest;
mod guest_calls;
mod guest_opening;
mod guest_readers;
mod held;
mod machine;
mod naming;
mod opening;
mod place;
mod poller;
mod port_calls;
mod port_core;
mod port_turns;
mod readers;
mod record_calls;
mod record_line;
mod record_link;
