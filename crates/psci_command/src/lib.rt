//! The command line of the program: what its words ask for. The *words* are the program's name and
//! the arguments that it was given.
#![tactic(auto)]

mod command_line;
mod requests;
mod threads_command;

pub use command_line::{asked, words};
pub use psci_script::{AuditFailure, Board, BoardFault, Failure, end};
pub use requests::{Color, Request, ShowRequest, StormRequest, ThreadsRequest};
