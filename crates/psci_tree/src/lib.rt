//! The tree of power domains: what each core asks, and the depth that each domain was granted.
//!
//! - A core is *active* while it is running or pending, *suspended* with a power state that it
//!   asked for, or *off*, which includes going off.
//! - The *ask* of a core is a depth for each level of the board: 0 while it is active, 3 while it
//!   is off, and that of its power state while it is suspended. Levels end at the board's height:
//!   above it no core asks anything.
//! - The *known start* of a core is the number of its last start that was seen to enter in this
//!   life.
//! - The *granted depth* of a domain is the depth that it was granted last, 0 once a core below it
//!   became pending or started.
//! - A granted depth is *confirmed* once the power controller said that the domain is at it.
//! - How a domain *stands* is the least ask of it of the cores below, and the sum of their known
//!   starts.
//! - A tree is *saved* as two words a core, what it does (0 running or pending, the word of its
//!   power state in the extended format, or 2^32 off) and its known start; and as two words a
//!   domain: the granted depths, from level 0 up, and then what is confirmed.
//! - A value of a domain *below* is recounted over all cores whose path the domain is on.
#![tactic(auto)]

mod beside;
mod changes;
mod core_change;
mod depths;
mod domains;
mod grants;
mod kept;
mod laws;
mod loading;
mod saved;
mod saved_laws;
mod saving;
mod standing;
mod tree;
mod tree_words;
mod way;

pub use laws::{law_confirmed, law_cores, law_granted, law_start_of_life};
pub use psci_state::Activity;
pub use saved_laws::law_tree_words;
pub use standing::Standing;
pub use tree::Tree;
pub use tree_words::are_cores;
