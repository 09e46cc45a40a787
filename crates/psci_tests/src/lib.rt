//! Tests of what no contract says: that memory which is there is enough, what devices that fail
//! leave, what faults say, and that storms come to all that they may.
//!
//! - A *story* is a list of steps that are taken one after the other, from the start on.
//! - A *step* is something that is done or asked, with the answer that it has to get.
#![tactic(auto)]

#[cfg(test)]
mod boards;
#[cfg(test)]
mod devices;
#[cfg(test)]
mod faults;
#[cfg(test)]
mod replays;
#[cfg(test)]
mod runs;
#[cfg(test)]
mod scripts;
#[cfg(test)]
mod standard;
#[cfg(test)]
mod storms;
#[cfg(test)]
mod worlds;
