//! What stands in the JSON object of an event behind its answer.

ghost use Rattle.std.specs.Prelude.{◌≤◌};
ghost use Rattle.psci_world.specs.psci_board.Board.{height};

use crate::call::{depth_name, level_name};
use crate::run::Run;
use crate::state::is_told;
use crate::words::{write_asked, write_said};
use psci_world::{Board, Core, Event, Kind, Message, Node, Part, Place, Record, Said};
use std::alloc::AllocError;

/// Writes an event and its answer in words.
fn write_words(out: &mut String, run: &Run, item: &Record) -> Result<(), AllocError> {
    write!(out, ", \"asked\": \"")?;
    write_asked(out, run, &item.event)?;
    write!(out, "\", \"said\": \"")?;
    write_said(out, run, item)?;
    write!(out, "\"")
}

/// Writes the state of each core.
fn write_states(out: &mut String, run: &Run) -> Result<(), AllocError> {
    write!(out, ", \"cores\": [")?;
    for number in 0..run.world().board().cores() {
        let between = before(number as usize);
        let state = run.state(Core { number }).told().word;
        write!(out, "{between}\"{state}\"")?;
    }
    write!(out, "]")
}

/// Writes the place of each core.
fn write_places(out: &mut String, run: &Run) -> Result<(), AllocError> {
    write!(out, ", \"places\": [")?;
    for number in 0..run.world().board().cores() {
        let between = before(number as usize);
        let place = place_word(run.world().place(Core { number }));
        write!(out, "{between}\"{place}\"")?;
    }
    write!(out, "]")
}

/// Writes the depths of a level, or the granted ones.
fn write_level(out: &mut String, run: &Run, level: u32, granted: bool) -> Result<(), AllocError>
    requires { level ≤ height run.now.board }
{
    for place in 0..run.world().board().nodes(level) {
        let depths = run.depths(Node { level, place });
        let depth = if granted {
            depths.granted
        } else {
            depths.depth
        };
        write!(out, "{}{depth}", before(place as usize))?;
    }
    Ok(())
}

/// Writes the depths of all levels, or the granted ones.
fn write_all(out: &mut String, run: &Run, granted: bool) -> Result<(), AllocError> {
    write!(out, "[")?;
    for level in 0..run.world().board().height() + 1 {
        write!(out, "{}[", before(level as usize))?;
        write_level(out, run, level, granted)?;
        write!(out, "]")?;
    }
    write!(out, "]")
}

/// Writes all depths, and the granted ones where the firmware has learned of the life.
fn write_depths(out: &mut String, run: &Run) -> Result<(), AllocError> {
    write!(out, ", \"depths\": ")?;
    write_all(out, run, false)?;
    write!(out, ", \"granted\": ")?;
    if is_told(run.world()) {
        write_all(out, run, true)
    } else {
        write!(out, "null")
    }
}

/// Writes the life, and whether the firmware is in it and not halting.
fn write_life(out: &mut String, run: &Run) -> Result<(), AllocError> {
    let live = truth(is_told(run.world()) && !run.world().firmware().halting());
    write!(out, ", \"life\": ")?;
    match run.world().controller().life() {
        Some(life) => write!(out, "{life}")?,
        None => write!(out, "null")?,
    }
    writeln!(out, ", \"live\": {live}}}")
}

/// Writes the members of the newest event behind its answer.
pub fn write_event(text: &mut String, run: &Run, item: &Record) -> Result<(), AllocError> {
    write_words(text, run, item)?;
    write_states(text, run)?;
    write_places(text, run)?;
    write_depths(text, run)?;
    write_messages(text, run, item)?;
    write_life(text, run)
}

// Power domains and their depths, in words.

/// Writes the name of a power domain.
pub fn write_node(out: &mut String, board: &Board, node: Node) -> Result<(), AllocError> {
    write!(out, "{}", level_name(board.height(), node.level))?;
    if node.level == 0 || board.nodes(node.level) > 1 {
        write!(out, " {}", node.place)?;
    }
    Ok(())
}

/// Writes the power domain that an affinity word names at a level, if it names one.
pub fn write_target(
    out: &mut String,
    board: &Board,
    word: u64,
    level: u32,
) -> Result<(), AllocError> {
    match board.node_of(word, level) {
        Some(node) => write_node(out, board, node),
        None => write!(out, "no domain (0x{word:x}, level {level})"),
    }
}

/// Writes what is said of a level: its depth, between those of the levels below and above it.
fn write_share(
    out: &mut String,
    level: &str,
    below: u8,
    depth: u8,
    above: u8,
) -> Result<(), AllocError> {
    if depth == 0 {
        return Ok(());
    }
    if depth == below {
        let joint = if depth == above { ", " } else { " and " };
        return write!(out, "{joint}{level}");
    }
    let joint = if below == 0 { "" } else { ", " };
    write!(out, "{joint}{} of {level}", depth_name(depth))
}

/// Writes the depths of the levels from 0 to 3, on a board of this height.
pub fn write_shares(out: &mut String, height: u32, depths: [u8; 4]) -> Result<(), AllocError> {
    let [core, first, second, third] = depths;
    write_share(out, level_name(height, 0), 0, core, first)?;
    write_share(out, level_name(height, 1), core, first, second)?;
    write_share(out, level_name(height, 2), first, second, third)?;
    write_share(out, level_name(height, 3), second, third, 0)
}

// A board as a JSON object, and the words that JSON has for states and kinds.

/// The word of a place.
pub fn place_word(place: Place) -> &'static str {
    match place {
        Place::Started => "started",
        Place::Running => "running",
        Place::Stopped => "stopped",
    }
}

/// The word of a kind of message.
pub fn kind_word(kind: Kind) -> &'static str {
    match kind {
        Kind::Down => "down",
        Kind::Start => "start",
        Kind::Off => "off",
        Kind::Reset => "reset",
    }
}

/// The word of a truth.
pub fn truth(holds: bool) -> &'static str {
    if holds { "true" } else { "false" }
}

/// What stands before the item of this number in a list.
pub fn before(number: usize) -> &'static str {
    if number == 0 { "" } else { ", " }
}

/// Writes the numbers of the cores below a power domain.
fn write_span(out: &mut String, board: &Board, node: Node) -> Result<(), AllocError> {
    let Some(span) = board.cores_below(node) else {
        return Ok(());
    };
    for number in 0..span.count {
        let between = before(number as usize);
        let core = u32::from(span.first) + u32::from(number);
        write!(out, "{between}{core}")?;
    }
    Ok(())
}

/// Writes a power domain.
fn write_domain(out: &mut String, board: &Board, node: Node) -> Result<(), AllocError> {
    write!(out, "{{\"name\": \"")?;
    write_node(out, board, node)?;
    write!(out, "\", \"cores\": [")?;
    write_span(out, board, node)?;
    write!(out, "]}}")
}

/// Writes the power domains of a level.
fn write_domains(out: &mut String, board: &Board, level: u32) -> Result<(), AllocError>
    requires { level ≤ height board.now }
{
    for place in 0..board.nodes(level) {
        write!(out, "{}", before(place as usize))?;
        write_domain(out, board, Node { level, place })?;
    }
    Ok(())
}

/// Writes the object of a board, behind its text.
pub fn write_board(text: &mut String, board: &Board) -> Result<(), AllocError> {
    let cores = board.cores();
    write!(text, "\", \"cores\": {cores}, \"domains\": [")?;
    for level in 0..board.height() + 1 {
        write!(text, "{}[", before(level as usize))?;
        write_domains(text, board, level)?;
        write!(text, "]")?;
    }
    writeln!(text, "]}}")
}

// What happened to messages and acknowledgements in an event, as members of its JSON object.

/// Writes what a message and its acknowledgement have in common.
fn write_name(
    out: &mut String,
    kind: Kind,
    core: Core,
    life: u32,
    number: u32,
) -> Result<(), AllocError> {
    let (kind, core) = (kind_word(kind), core.number);
    write!(
        out,
        ", \"kind\": \"{kind}\", \"core\": {core}, \"life\": {life}, \"number\": {number}"
    )
}

/// Writes the parts of a message: level, depth and generation of each.
fn write_parts(out: &mut String, parts: &[Part]) -> Result<(), AllocError> {
    for (place, part) in parts.iter().enumerate() {
        let Part {
            level,
            depth,
            generation,
        } = part;
        write!(out, "{}[{level}, {depth}, {generation}]", before(place))?;
    }
    Ok(())
}

/// Writes the message that was sent, if one was.
fn write_sent(out: &mut String, said: &Said) -> Result<(), AllocError> {
    match said {
        Said::Fw {
            sent: Some(sent),
            ..
        } => {
            write!(out, "{{\"index\": {}", sent.index)?;
            write_message(out, &sent.message)
        }
        _ => write!(out, "null"),
    }
}

/// Writes the members of a message, behind its number.
fn write_message(out: &mut String, message: &Message) -> Result<(), AllocError> {
    let (kind, core) = (message.kind, message.core);
    write_name(out, kind, core, message.life, message.number)?;
    write!(out, ", \"parts\": [")?;
    write_parts(out, message.parts.as_slice())?;
    write!(out, "]}}")
}

/// Writes the acknowledgement that was made, if one was.
fn write_made(out: &mut String, item: &Record) -> Result<(), AllocError> {
    let (Event::Deliver(message), Said::Acked { index, ack }) = (&item.event, &item.said) else {
        return write!(out, "null");
    };
    write!(out, "{{\"index\": {index}, \"message\": {message}")?;
    write_name(out, ack.kind, ack.core, ack.life, ack.number)?;
    let (applied, stale) = (ack.applied, truth(ack.stale));
    write!(out, ", \"applied\": {applied}, \"stale\": {stale}}}")
}

/// Writes the acknowledgement that was taken, if one was.
fn write_taken(out: &mut String, run: &Run, item: &Record) -> Result<(), AllocError> {
    match (&item.event, &item.said) {
        (Event::Take(index), Said::Taken(_)) => {
            let message = run.message_of(*index).unwrap_or(0);
            write!(out, "{{\"index\": {index}, \"message\": {message}}}")
        }
        _ => write!(out, "null"),
    }
}

/// Writes what happened to messages and acknowledgements.
pub fn write_messages(out: &mut String, run: &Run, item: &Record) -> Result<(), AllocError> {
    write!(out, ", \"sent\": ")?;
    write_sent(out, &item.said)?;
    write!(out, ", \"acknowledged\": ")?;
    write_made(out, item)?;
    write!(out, ", \"taken\": ")?;
    write_taken(out, run, item)
}
