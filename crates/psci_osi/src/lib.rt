//! What a stopping core may ask for in OS-initiated mode, where the operating system says which
//! domains go down with their last core.
//!
//! - A *child* of a domain is *shallow* for a request where it was granted less than is asked of
//!   the domain.
//! - The *last-core check* refuses a request with a shallow child beside the caller's path: the
//!   caller is not the last core that goes down.
//! - A core that goes off asks for power-down of itself, and of each higher domain where every core
//!   below is off or going off.
#![tactic(auto)]

mod last_core;
mod off;

pub use last_core::{check, path_refusal};
pub use off::{off_ask, off_parts};
pub use psci_messages::Osi;
