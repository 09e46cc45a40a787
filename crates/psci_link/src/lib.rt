//! What crosses between the firmware and the power controller: messages and their
//! acknowledgements, the frames that carry them, and the messages that wait for an acknowledgement.
//!
//! - A *frame* is a message or an acknowledgement as 53 bytes. All else is that of `psci_messages`,
//!   which this crate passes on.
#![tactic(auto)]

mod decoding;
mod encoding;
mod laws;
mod parts;

pub use decoding::{Heading, ack_in, decode, heading_on, message_in};
pub use encoding::{FRAME_LEN, Frame, encode, encode_ack, encode_message, write_message};
pub use laws::law_frames;
pub use parts::FrameFault;
pub use psci_messages::{
    Ack, Cause, Kind, Message, Part, Parts, Slots, Start, Taken, law_parts, law_slots,
};
