//! How many of the cores below each power domain are ON, and how many ON_PENDING.

ghost use Rattle.std.specs.Prelude.{◌≡◌, ◌+◌, ◌<◌, ◌≤◌, length, map, replicate, slice_set, IfOk};
ghost use Rattle.psci_board.specs.Board.{IsBoard, cores};
ghost use Rattle.psci_fw_spec.specs.declared.status.Status.TheVariants.{Off};
ghost use Rattle.psci_fw_spec.specs.Values.{updated};
ghost use Rattle.psci_fw_state.specs.Counts.{AreCounted, AreCounts, counts_at, HasDomains};
ghost use Rattle.psci_fw_state.specs.Counts.{level_counts, MayRecount, no_cores, one_core};
ghost use Rattle.psci_fw_state.specs.Counts.{recounted, status_counted, with_counts};
ghost use Rattle.psci_fw_state.specs.Rows.{AreFirst, row_at, status_at};

use crate::row::CoreRow;
use psci_board::{Board, Core, MOST_ON_PATH, Memory, Node, law_paths};
use psci_fw_spec::Status;
use psci_tree::Tree;
use std::alloc::Global;

/// The core that a life begins with.
const BOOT_CORE: Core = Core { number: 0 };

/// How many of some cores are ON, and how many ON_PENDING.
#[derive(Clone, Copy)]
pub struct StatusCounts {
    /// How many are ON.
    pub on: u16,
    /// How many are ON_PENDING.
    pub pending: u16,
}

impl StatusCounts {
    /// What is counted of no core.
    pub const NONE: StatusCounts = StatusCounts { on: 0, pending: 0 };

    /// What is counted of one core of this status.
    pub fn of_core(status: Status) -> StatusCounts
        ensures { result ≡ one_core status }
    {
        StatusCounts {
            on: u16::from(status.is_on()),
            pending: u16::from(status.is_pending()),
        }
    }

    /// The status of these cores together: ON where one is ON, else ON_PENDING where one is, else
    /// OFF.
    pub fn status(self) -> Status
        ensures { result ≡ status_counted self }
    {
        if self.on > 0 {
            Status::On
        } else if self.pending > 0 {
            Status::Pending
        } else {
            Status::Off
        }
    }

    /// How many are ON or ON_PENDING.
    pub fn not_off(self) -> u32
        ensures { result ≡ self.on + self.pending }
    {
        u32::from(self.on) + u32::from(self.pending)
    }

    /// From now on `after` is counted of one of the cores, and no longer `before`. Each number is
    /// changed where it stands.
    fn recount(&mut self, before: StatusCounts, after: StatusCounts)
        requires { MayRecount self.old before after }
        ensures { self.new ≡ recounted self.old before after }
    {
        self.on = self.on + after.on - before.on;
        self.pending = self.pending + after.pending - before.pending;
    }
}

/// What is counted of the cores of a board for each of its power domains, while every core is OFF.
pub fn no_counts(alloc: Global, board: &Board) -> Result<Vec<Vec<StatusCounts>>, Memory>
    ensures { IfOk result (λ counts.
        AreCounts board.now.levels (λ c. Off) (map (λ v. v.items) counts.items)) }
{
    let mut counts = Vec::new(alloc);
    for level in 1..board.height() + 1 {
        counts.push(vec![in alloc; StatusCounts::NONE; board.nodes(level) as usize]?)?;
    }
    Ok(counts)
}

/// Forgets what is counted: every core is OFF.
fn clear_counts(counts: &mut [Vec<StatusCounts>])
    ensures { map (λ v. v.items) counts.new
        ≡ map (λ row. replicate (length row) no_cores) (map (λ v. v.items) counts.old) }
{
    for index in 0..counts.len() {
        let row = &mut counts[index];
        row.fill(StatusCounts::NONE);
    }
}

/// Counts the cores anew whose rows are as at the start of a life.
pub fn reset_counts(counts: &mut [Vec<StatusCounts>], rows: &[CoreRow], tree: &Tree, board: &Board)
    requires board { IsBoard board.now }
    requires levels { tree.now.levels ≡ board.now.levels }
    requires rows { AreFirst board.now rows.now }
    requires domains { HasDomains board.now.levels (map (λ v. v.items) counts.old) }
    ensures { AreCounts board.now.levels (status_at rows.now) (map (λ v. v.items) counts.new) }
{
    clear_counts(counts);
    recount(counts, rows, tree, board, BOOT_CORE, Status::Off);
}

/// Keeps this row of a core, and counts its status for the domains above it.
pub fn put_row(
    rows: &mut [CoreRow],
    counts: &mut [Vec<StatusCounts>],
    tree: &Tree,
    board: &Board,
    core: Core,
    row: CoreRow,
)
    requires levels { tree.now.levels ≡ board.now.levels }
    requires inside { core.number < cores board.now }
    requires counts { AreCounted board.now (status_at rows.old) rows.old
        (map (λ v. v.items) counts.old) }
    ensures rows { rows.new ≡ slice_set rows.old core.number row }
    ensures counts { AreCounts board.now.levels (status_at rows.new)
        (map (λ v. v.items) counts.new) }
{
    let number = core.number as usize;
    let before = rows[number].status;
    rows[number] = row;
    recount(counts, rows, tree, board, core, before);
}

/// A core has this status from now on, and its domains count it. Its opening stays.
pub fn put_status(
    rows: &mut [CoreRow],
    counts: &mut [Vec<StatusCounts>],
    tree: &Tree,
    board: &Board,
    core: Core,
    status: Status,
)
    requires levels { tree.now.levels ≡ board.now.levels }
    requires inside { core.number < cores board.now }
    requires counts { AreCounted board.now (status_at rows.old) rows.old
        (map (λ v. v.items) counts.old) }
    ensures rows { rows.new ≡ slice_set rows.old core.number
        (record (row_at rows.old core.number) { status = status }) }
    ensures counts { AreCounts board.now.levels (status_at rows.new)
        (map (λ v. v.items) counts.new) }
{
    let number = core.number as usize;
    let before = rows[number].status;
    rows[number].status = status;
    recount(counts, rows, tree, board, core, before);
}

/// A core had another status when the cores were counted: counts it anew for the domains above it.
fn recount(
    counts: &mut [Vec<StatusCounts>],
    rows: &[CoreRow],
    tree: &Tree,
    board: &Board,
    core: Core,
    before: Status,
)
    requires levels { tree.now.levels ≡ board.now.levels }
    requires inside { core.number < cores board.now }
    requires counts { AreCounted board.now (updated (status_at rows.now) core.number before)
        rows.now (map (λ v. v.items) counts.old) }
    ensures { AreCounts board.now.levels (status_at rows.now) (map (λ v. v.items) counts.new) }
{
    law_paths();
    let after = rows[core.number as usize].status;
    if before == after {
        return;
    }
    let had = StatusCounts::of_core(before);
    let has = StatusCounts::of_core(after);
    let places = tree.places(core);
    // so many turns at most, which a compiler lays out one after the other
    for level in 1..MOST_ON_PATH as u32 {
        if level > board.height() {
            break;
        }
        let node = Node {
            level,
            place: places[level as usize],
        };
        recount_domain(counts, node, had, has);
    }
}

/// Counts for a domain anew, once `after` is counted of one of the cores, and no longer `before`.
fn recount_domain(
    counts: &mut [Vec<StatusCounts>],
    node: Node,
    before: StatusCounts,
    after: StatusCounts,
)
    requires above { 0 < node.level }
    requires level { node.level ≤ length counts.old }
    requires place { node.place
        < length (level_counts (map (λ v. v.items) counts.old) node.level) }
    requires may { MayRecount
        (counts_at (map (λ v. v.items) counts.old) node.level node.place) before after }
    ensures { map (λ v. v.items) counts.new ≡ with_counts (map (λ v. v.items) counts.old) node
        (recounted (counts_at (map (λ v. v.items) counts.old) node.level node.place) before after) }
{
    let row = &mut counts[node.level as usize - 1];
    row[node.place as usize].recount(before, after);
}

/// The status of the cores below a domain together.
pub fn status_below(counts: &[Vec<StatusCounts>], node: Node) -> Status
    requires above { 0 < node.level }
    requires level { node.level ≤ length counts.now }
    requires place { node.place
        < length (level_counts (map (λ v. v.items) counts.now) node.level) }
    ensures { result
        ≡ status_counted (counts_at (map (λ v. v.items) counts.now) node.level node.place) }
{
    counted_below(counts, node).status()
}

/// What is counted of the cores below a domain.
pub fn counted_below(counts: &[Vec<StatusCounts>], node: Node) -> StatusCounts
    requires above { 0 < node.level }
    requires level { node.level ≤ length counts.now }
    requires place { node.place
        < length (level_counts (map (λ v. v.items) counts.now) node.level) }
    ensures { result ≡ counts_at (map (λ v. v.items) counts.now) node.level node.place }
{
    let row = &counts[node.level as usize - 1];
    row[node.place as usize]
}
