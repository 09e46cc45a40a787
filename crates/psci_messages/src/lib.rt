//! What a core that stops asks of its power domains, the messages that say so to the power
//! controller, their acknowledgements, and the messages that wait for one.
//!
//! - A *part* asks one domain on the path of a core to go to a depth. Its *generation* is the sum
//!   of the known starts below when it was made: it is out of date once one of them starts again.
//! - A *claim* is the parts of one stop, from the core up: four at most, one for each level.
//! - A *message* asks to power down, start, switch off or reset. An *acknowledgement* names it by
//!   kind, core, life and number, and says what was carried out.
//! - A *start* is one power-up of a core, numbered from 1 in each life.
//! - A message is *outstanding* from when it is sent until it is acknowledged or given up.
//! - Outstanding messages are *saved* as 12 words a slot, that of the system first: kind (1 Down, 2
//!   Start, 3 Off, 4 Reset; 0 for none), core, life, number, and depth and generation of each part.
#![tactic(auto)]

mod ack;
mod claim_laws;
mod kind;
mod laws;
mod loading;
mod message;
mod osi;
mod part;
mod parts;
mod saved_laws;
mod saving;
mod slot;
mod slot_words;
mod slots;
mod start;
mod sum;
mod taken;

pub use ack::Ack;
pub use claim_laws::{law_below, law_claims, law_last_core, law_off, law_own, law_platform};
pub use kind::Kind;
pub use laws::{law_parts, law_slots};
pub use message::Message;
pub use osi::Osi;
pub use part::Part;
pub use parts::{MOST_PARTS, Parts};
pub use saved_laws::law_slots_words;
pub use saving::{SLOT_WORDS, write};
pub use slot_words::are_slots;
pub use slots::Slots;
pub use start::{Cause, Start};
pub use sum::{FACTOR, sum_of};
pub use taken::Taken;
