//! What a stopping core asks of its power domains, read off the tree.
//!
//! - In *platform-coordinated* mode a core claims of each domain on its path the least that the
//!   cores below the domain ask. In *OS-initiated* mode it claims what it asks itself.
#![tactic(auto)]

mod claim;

pub use claim::{Wish, claims, climb, own_parts};
pub use psci_messages::{MOST_PARTS, Part, Parts};
