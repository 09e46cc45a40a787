//! What a core does, as its column has it.

ghost use Rattle.std.specs.Prelude.{◌<◌, ◌≤◌};
ghost use Rattle.psci_world.specs.psci_board.Board.{cores, HasNode, height};

use crate::call::depth_name;
use crate::event_json::write_node;
use crate::run::Run;
use crate::words::Sleep;
use psci_state::POWER_DOWN;
use psci_world::{Core, Node, Place, Status, World};
use std::alloc::AllocError;
use std::fmt;

/// What a core does.
#[derive(Clone, Copy)]
pub enum Activity {
    /// It runs.
    Running,
    /// It was started, and has not entered.
    Started,
    /// It is suspended to standby.
    Standby,
    /// It is suspended to retention.
    Retention,
    /// It is suspended to power-down.
    PowerDown,
    /// It goes off, which is not acknowledged yet.
    GoingOff,
    /// It is off.
    Off,
    /// It is to be started by a CPU_ON.
    Pending,
}

impl Activity {
    /// The state of a core after the world's records, of which this is its sleep.
    pub fn of(world: &World, core: Core, sleep: Option<Sleep>) -> Activity
        requires { core.number < cores world.now.board }
    {
        match world.place(core) {
            Place::Started => Activity::Started,
            Place::Running => Activity::Running,
            Place::Stopped if is_told(world) => Activity::stopped(world, core, sleep),
            Place::Stopped => Activity::Off,
        }
    }

    /// The state of a core that stopped.
    fn stopped(world: &World, core: Core, sleep: Option<Sleep>) -> Activity
        requires { core.number < cores world.now.board }
    {
        let firmware = world.firmware();
        match sleep {
            Some(sleep) if firmware.life() == Some(sleep.life) => Activity::asleep(sleep.depth),
            _ => Activity::by(firmware.status(core.node())),
        }
    }

    /// The state of a core that suspended to this depth.
    fn asleep(depth: u8) -> Activity {
        match depth {
            1 => Activity::Standby,
            2 => Activity::Retention,
            _ => Activity::PowerDown,
        }
    }

    /// The state of a core that stopped and is not suspended, by its status.
    fn by(status: Option<Status>) -> Activity {
        match status {
            Some(Status::On) => Activity::GoingOff,
            Some(Status::Pending) => Activity::Pending,
            Some(Status::Off) | None => Activity::Off,
        }
    }

    /// What is told of it.
    pub fn told(self) -> Told {
        match self {
            Activity::Running => row("R", 32, "running", "runs"),
            Activity::Started => row("S", 36, "started", "was started, and has not entered"),
            Activity::Standby => row("b", 34, "standby", "is suspended to standby"),
            Activity::Retention => row("r", 34, "retention", "is suspended to retention"),
            Activity::PowerDown => row("d", 34, "power-down", "is suspended to power-down"),
            Activity::GoingOff => row(
                "g",
                33,
                "going off",
                "goes off, which is not acknowledged yet",
            ),
            Activity::Off => row(".", 90, "off", "is off"),
            Activity::Pending => row("P", 36, "pending", "is to be started by a CPU_ON"),
        }
    }
}

/// What is told of a state.
#[derive(Clone, Copy)]
pub struct Told {
    /// Its letter.
    pub letter: &'static str,
    /// Its color, as a terminal counts them.
    pub color: u8,
    /// Its word.
    pub word: &'static str,
    /// What a core does that is in it.
    pub meaning: &'static str,
}

/// A row of the table.
fn row(letter: &'static str, color: u8, word: &'static str, meaning: &'static str) -> Told {
    Told {
        letter,
        color,
        word,
        meaning,
    }
}

/// Whether the firmware has learned of the power controller's life, if there is one.
pub fn is_told(world: &World) -> bool {
    match (world.firmware().life(), world.controller().life()) {
        (Some(life), Some(present)) => life == present,
        _ => false,
    }
}

// How deep a power domain is, as its column has it.

/// How deep a power domain is, and how deep the firmware has granted it to be.
#[derive(Clone, Copy)]
pub struct Depths {
    /// The depth, as the power controller has it.
    pub depth: u8,
    /// The granted depth; the depth itself while the firmware has not learned of the life.
    pub granted: u8,
}

impl Depths {
    /// Those of a power domain after the world's records, if there is a life.
    pub fn of(world: &World, node: Node) -> Option<Depths>
        requires { HasNode world.now.board node }
    {
        world.controller().life()?;
        let depth = world.controller().depth(node);
        let granted = if is_told(world) {
            world.firmware().granted(node)
        } else {
            depth
        };
        Some(Depths { depth, granted })
    }
}

impl fmt::Display for Depths {
    fn fmt<W: fmt::Write>(&self, f: &mut fmt::Formatter<W>) -> fmt::Result {
        let mark = if self.depth == self.granted { " " } else { "!" };
        write!(f, "{}{mark}", self.depth)
    }
}

// The columns after an event, by the names of the power domains.

/// Writes the name of a core or power domain.
fn write_name(out: &mut String, run: &Run, node: Node) -> Result<(), AllocError> {
    write!(out, ";\n")?;
    write_node(out, run.world().board(), node)?;
    write!(out, ":")
}

/// Writes what is said of a core or power domain: the state of a core, unless it is off, and the
/// depth where another one was granted, or of a power domain where it is not powered down.
fn write_entry(out: &mut String, run: &Run, node: Node) -> Result<(), AllocError>
    requires { HasNode run.now.board node }
{
    let depths = run.depths(node);
    let state = state_of(run, node);
    let says_depth = is_said(node, depths);
    if state.is_none() && !says_depth {
        return Ok(());
    }
    write_name(out, run, node)?;
    if let Some(state) = state {
        write!(out, " {}", state.told().letter)?;
    }
    if says_depth {
        write_depth(out, depths)?;
    }
    Ok(())
}

/// Whether the depth of a core or power domain is said.
fn is_said(node: Node, depths: Depths) -> bool {
    let Depths { depth, granted } = depths;
    depth != granted || (node.level > 0 && depth != POWER_DOWN)
}

/// Writes a depth, with a mark behind it where another one was granted.
fn write_depth(out: &mut String, depths: Depths) -> Result<(), AllocError> {
    let Depths { depth, granted } = depths;
    let mark = if depth == granted { "" } else { "!" };
    write!(out, " {depth}{mark}")
}

/// The state of a core that is not off.
fn state_of(run: &Run, node: Node) -> Option<Activity>
    requires { HasNode run.now.board node }
{
    if node.level > 0 {
        return None;
    }
    match run.state(Core { number: node.place }) {
        Activity::Off => None,
        state => Some(state),
    }
}

/// Writes what is said of each power domain of a level.
fn write_level(out: &mut String, run: &Run, level: u32) -> Result<(), AllocError>
    requires { level ≤ height run.now.board }
{
    for place in 0..run.world().board().nodes(level) {
        write_entry(out, run, Node { level, place })?;
    }
    Ok(())
}

/// Writes what is said of the power domains of all levels, each behind a line feed.
pub fn write_entries(out: &mut String, run: &Run) -> Result<(), AllocError> {
    for level in 0..run.world().board().height() + 1 {
        write_level(out, run, level)?;
    }
    Ok(())
}

// What letters and depths mean.

/// The states, as their lines stand.
const STATES: [Activity; 8] = [
    Activity::Running,
    Activity::Started,
    Activity::Standby,
    Activity::Retention,
    Activity::PowerDown,
    Activity::GoingOff,
    Activity::Off,
    Activity::Pending,
];

/// Writes a line for each letter, each depth and the mark.
pub fn write_legend(out: &mut String) -> Result<(), AllocError> {
    for state in STATES {
        let told = state.told();
        writeln!(out, "  {}  the core {}", told.letter, told.meaning)?;
    }
    writeln!(out, "  0  the power domain is fully on")?;
    for depth in 1..4 {
        let name = depth_name(depth);
        writeln!(out, "  {depth}  the power domain is in {name}")?;
    }
    writeln!(
        out,
        "  !  after a depth: the firmware has granted another one"
    )
}
