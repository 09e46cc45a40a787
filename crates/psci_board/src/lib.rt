//! The board: its power domain tree, the addresses that a core may enter, its limits, and its text.
//!
//! - A *core* is a processing element, numbered from 0 as the text has them. A *node* is a power
//!   domain: a core (level 0), a cluster, up to the system. The *height* is the system's level.
//! - The `place` of a node is its index in its level, from left to right and from 0.
//! - The *path* of a core is the core and the nodes above it, up to the system.
//! - An *affinity word* names a core or a node by one field of 8 bits per level (MPIDR_EL1).
//! - An *entry point* may be entered where it is word aligned and lies in an executable range.
//! - What is read of a text stands at its *front*, the *rest* after it. A *literal* stands there
//!   byte for byte; a *number* is decimal, a *hexadecimal number* begins with `0x`.
#![tactic(auto)]

#[tactic(auto, using(crate::proofs::Ranges::reading))]
mod board;
mod digits;
mod draft;
mod fault;
mod level;
mod memory;
mod span;
mod summary;
mod tree_laws;
mod tree_text;

pub use board::{Board, is_in_some};
pub use draft::{
    BoardDraft, Core, MOST_CHILDREN, MOST_CORES, MOST_LEVELS, MOST_LIVES, MOST_ON_PATH,
    MOST_RANGES, Node,
};
pub use fault::BoardFault;
pub use level::Level;
pub use memory::Memory;
pub use psci_abi::Format;
pub use span::CoreSpan;
pub use tree_laws::{
    law_board_text, law_boards, law_children, law_parents, law_paths, law_sizes, law_spans,
    law_text, law_words,
};
pub use tree_text::{AddressRange, hex, literal, number};
