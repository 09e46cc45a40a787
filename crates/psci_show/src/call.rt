//! Calls, in words.

use crate::event_json::{write_shares, write_target};
use psci_state::Ask;
use psci_world::Board;
use psci_world_spec::{Kind, Parameter, Regs, Request, read};
use std::alloc::AllocError;

/// An argument of 32 bits.
fn low(argument: u64) -> u32 {
    (argument % (1 << 32)) as u32
}

/// Writes the function of a word.
fn write_function(out: &mut String, word: u64) -> Result<(), AllocError> {
    let alone = Regs {
        x0: word,
        x1: 0,
        x2: 0,
        x3: 0,
    };
    match read(alone).function() {
        Some(function) => write!(out, "{}", function.name()),
        None => write!(out, "unknown function 0x{:x}", low(word)),
    }
}

/// Writes where a core enters, and what it finds in x0 there.
fn write_entry(out: &mut String, entry: u64, context: u64) -> Result<(), AllocError> {
    write!(out, "entry 0x{entry:x}")?;
    if context != 0 {
        write!(out, ", context 0x{context:x}")?;
    }
    Ok(())
}

/// Writes the power state of a CPU_SUSPEND, and where the core enters again after a power-down.
fn write_state(
    out: &mut String,
    board: &Board,
    state: u32,
    entry: u64,
    context: u64,
) -> Result<(), AllocError> {
    let height = board.height();
    let Ok(ask) = Ask::read(state, board.format(), height) else {
        return write!(out, "to the faulty power state 0x{state:x}");
    };
    let depths = [ask.depth(0), ask.depth(1), ask.depth(2), ask.depth(3)];
    write!(out, "to ")?;
    write_shares(out, height, depths)?;
    if ask.deep() {
        write!(out, ", ")?;
        write_entry(out, entry, context)?;
    }
    Ok(())
}

/// Writes a mode of PSCI_SET_SUSPEND_MODE.
fn write_mode(out: &mut String, mode: u32) -> Result<(), AllocError> {
    match mode_name(mode) {
        Some(name) => write!(out, "{name}"),
        None => write!(out, "unknown mode 0x{mode:x}"),
    }
}

/// Writes what an affinity word names, and where it enters if the call says that.
fn write_named(
    out: &mut String,
    board: &Board,
    second: Parameter,
    carried: [u64; 3],
) -> Result<(), AllocError> {
    let [word, argument, context] = carried;
    match second {
        Parameter::Level => write_target(out, board, word, low(argument)),
        Parameter::Entry => {
            write_target(out, board, word, 0)?;
            write!(out, ", ")?;
            write_entry(out, argument, context)
        }
        _ => write_target(out, board, word, 0),
    }
}

/// Writes the arguments of a call, by the first two things that its function takes.
fn write_arguments(
    out: &mut String,
    board: &Board,
    first: Parameter,
    second: Parameter,
    carried: [u64; 3],
) -> Result<(), AllocError> {
    let [x1, x2, x3] = carried;
    write!(out, "{}", before(first))?;
    match first {
        Parameter::Target => write_named(out, board, second, carried),
        Parameter::PowerState => write_state(out, board, low(x1), x2, x3),
        Parameter::Entry => write_entry(out, x1, x2),
        Parameter::Word => write_function(out, x1),
        Parameter::Mode => write_mode(out, low(x1)),
        Parameter::ResetType => write!(out, "0x{x1:x}"),
        Parameter::Level | Parameter::Context | Parameter::Cookie | Parameter::Nothing => Ok(()),
    }
}

/// What stands before the first argument.
fn before(first: Parameter) -> &'static str {
    match first {
        Parameter::Target | Parameter::Word => " of ",
        Parameter::PowerState | Parameter::Entry | Parameter::Mode => " ",
        Parameter::ResetType => " of type ",
        Parameter::Level | Parameter::Context | Parameter::Cookie | Parameter::Nothing => "",
    }
}

/// Writes the call of a core with these registers.
pub fn write_call(
    out: &mut String,
    board: &Board,
    core: u64,
    regs: Regs,
) -> Result<(), AllocError> {
    let request = read(regs);
    write!(out, "core {core} ")?;
    write_function(out, regs.x0)?;
    match request.function() {
        Some(function) => {
            let [first, second, _] = function.takes();
            write_arguments(out, board, first, second, request.arguments())
        }
        None => Ok(()),
    }
}

// The one table of names.

/// The name of a return code that is no value of a function.
pub fn code_name(code: i32) -> Option<&'static str> {
    match code {
        0 => Some("SUCCESS"),
        -1 => Some("NOT_SUPPORTED"),
        -2 => Some("INVALID_PARAMETERS"),
        -3 => Some("DENIED"),
        -4 => Some("ALREADY_ON"),
        -5 => Some("ON_PENDING"),
        -6 => Some("INTERNAL_FAILURE"),
        -7 => Some("NOT_PRESENT"),
        -8 => Some("DISABLED"),
        -9 => Some("INVALID_ADDRESS"),
        _ => None,
    }
}

/// The status of a power domain.
fn status_name(code: i32) -> Option<&'static str> {
    match code {
        0 => Some("ON"),
        1 => Some("OFF"),
        2 => Some("ON_PENDING"),
        _ => code_name(code),
    }
}

/// The state of the hardware of a power domain.
fn hw_name(code: i32) -> Option<&'static str> {
    match code {
        0 => Some("HW_ON"),
        1 => Some("HW_OFF"),
        2 => Some("HW_STANDBY"),
        _ => code_name(code),
    }
}

/// The flags of a function that is there.
fn flags_name(code: i32) -> Option<&'static str> {
    match code {
        0 => Some("there, no flags"),
        1 => Some("there, flags 1"),
        3 => Some("there, flags 3"),
        _ => code_name(code),
    }
}

/// What a function returned, by name: a value of its own, or a code.
pub fn returned_name(request: Request, code: i32) -> Option<&'static str> {
    match request {
        Request::Version if code == 0x1_0001 => Some("version 1.1"),
        Request::MigrateInfoType if code == 2 => Some("2, nothing to migrate"),
        Request::AffinityInfo { .. } => status_name(code),
        Request::NodeHwState { .. } => hw_name(code),
        Request::Features { .. } => flags_name(code),
        _ => code_name(code),
    }
}

/// A mode of PSCI_SET_SUSPEND_MODE, if there is one of this number.
pub fn mode_name(mode: u32) -> Option<&'static str> {
    match mode {
        0 => Some("platform-coordinated"),
        1 => Some("OS-initiated"),
        _ => None,
    }
}

/// A depth that is not 0.
pub fn depth_name(depth: u8) -> &'static str {
    match depth {
        1 => "standby",
        2 => "retention",
        _ => "power-down",
    }
}

/// A level of a board of this height.
pub fn level_name(height: u32, level: u32) -> &'static str {
    match level {
        0 => "core",
        1 => "cluster",
        2 if height == 3 => "group",
        _ => "system",
    }
}

/// What a message is.
pub fn kind_name(kind: Kind) -> &'static str {
    match kind {
        Kind::Down => "Down",
        Kind::Start => "Start",
        Kind::Off => "Off",
        Kind::Reset => "Reset",
    }
}
