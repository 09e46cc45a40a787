//! The register interface of the firmware: PSCI function words over the SMC Calling Convention.
//!
//! - A *function word* is the low half of register x0. It names a function and, by bit 30, the
//!   width of its arguments: the SMC32 or the SMC64 convention (DEN0028).
//! - A *request* is a function with its arguments, each already cut to its width.
//! - A *return code* is the signed number that the standard's table of error codes gives.
//! - A *result register* is what the caller finds in x0 afterwards.
//! - A *power state word* is the parameter power_state of CPU_SUSPEND (DEN0022D). Its *format* says
//!   where it has its fields: the original format, or the one with an extended StateID.
#![tactic(auto)]

mod functions;
mod parameter;
mod registers;
mod request;
pub mod words;

pub use functions::Function;
pub use parameter::Parameter;
pub use registers::{Code, Format, Regs, features, low};
pub use request::{Request, read};
