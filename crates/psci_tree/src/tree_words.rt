//! Whether words are those of the cores of a tree, or of the depths of its power domains.

ghost use Rattle.std.specs.Prelude.{◌≡◌, ◌<◌, nat_le, length};
ghost use Rattle.std.specs.List.{list_all};
ghost use Rattle.psci_board.specs.Board.{HasNodeIn, size_below};
ghost use Rattle.psci_state.specs.PowerState.{power_down};
ghost use Rattle.psci_tree.specs.Recount.{level_sizes};
ghost use Rattle.psci_tree.specs.Saved.{are_cores, are_depths, are_depths_by, are_nested};
ghost use Rattle.psci_tree.specs.Saved.{are_sure, depth_in, domain_count, is_core, is_nested};
ghost use Rattle.psci_tree.specs.Saved.{is_nested_at, rows_of};

use crate::loading::activity_of;
use crate::tree::Tree;
use psci_board::{Core, Node};
use psci_state::POWER_DOWN;

/// Known starts have 32 bits.
const MOST_STARTS: u64 = 1 << 32;

/// The depth of power-down.
const DEEPEST: u64 = POWER_DOWN as u64;

/// Whether these are the words of some cores.
pub fn are_cores(words: &[u64]) -> bool
    ensures { result ≡ are_cores words.now }
{
    let mut rest = words;
    for _ in 0..words.len() {
        let [word, known, others @ ..] = rest else {
            return rest.is_empty();
        };
        if !is_core(*word, *known) {
            return false;
        }
        rest = others;
    }
    rest.is_empty()
}

/// Whether these are the words of one core.
fn is_core(word: u64, known: u64) -> bool
    ensures { result ≡ is_core word known }
{
    activity_of(word).is_some() && known < MOST_STARTS
}

/// Whether these are the words of the depths of this tree's domains.
pub fn are_depths(tree: &Tree, words: &[u64]) -> bool
    ensures { result ≡ are_depths tree.now.levels words.now }
{
    let count = tree.domain_count();
    if words.len() != 2 * count {
        return false;
    }
    let (granted, confirmed) = words.split_at(count);
    are_low(granted) && are_sure(granted, confirmed) && are_nested(tree, granted)
}

/// Whether no depth is deeper than power-down.
fn are_low(depths: &[u64]) -> bool
    ensures { result ≡ list_all (λ d. nat_le d power_down) depths.now }
{
    depths.iter().all(|depth| *depth <= DEEPEST)
}

/// Whether no domain is confirmed at a depth above the granted one.
fn are_sure(granted: &[u64], confirmed: &[u64]) -> bool
    requires { length confirmed.now ≡ length granted.now }
    ensures { result ≡ are_sure granted.now confirmed.now }
{
    (0..granted.len()).all(|place| confirmed[place] <= granted[place])
}

/// Whether no domain on the path of a core is granted more than the one below it.
fn are_nested(tree: &Tree, granted: &[u64]) -> bool
    requires { length granted.now ≡ domain_count tree.now.levels }
    ensures { result ≡ are_nested tree.now.levels
        (rows_of (level_sizes tree.now.levels) granted.now) }
{
    (0..tree.core_count()).all(|number| is_nested(tree, granted, Core { number }))
}

/// The same of the path of one core.
fn is_nested(tree: &Tree, granted: &[u64], core: Core) -> bool
    requires count { length granted.now ≡ domain_count tree.now.levels }
    requires core { core.number < size_below tree.now.levels }
    ensures { result ≡ is_nested tree.now.levels
        (rows_of (level_sizes tree.now.levels) granted.now) core.number }
{
    (0..tree.height()).all(|level| is_nested_at(tree, granted, core, level))
}

/// Whether the domain above this level on the path of a core is granted no more than the one at it.
fn is_nested_at(tree: &Tree, granted: &[u64], core: Core, level: u32) -> bool
    requires count { length granted.now ≡ domain_count tree.now.levels }
    requires core { core.number < size_below tree.now.levels }
    requires level { level < length tree.now.levels }
    ensures { result ≡ is_nested_at tree.now.levels
        (rows_of (level_sizes tree.now.levels) granted.now) core.number level }
{
    let _height = tree.height();
    let above = depth_at(tree, granted, tree.on_path(core, level + 1));
    above <= depth_at(tree, granted, tree.on_path(core, level))
}

/// The depth of a domain among those of all.
fn depth_at(tree: &Tree, depths: &[u64], node: Node) -> u64
    requires count { length depths.now ≡ domain_count tree.now.levels }
    requires domain { HasNodeIn tree.now.levels node }
    ensures { result
        ≡ depth_in (rows_of (level_sizes tree.now.levels) depths.now) node.level node.place }
{
    depths[tree.domains_below(node.level) + node.place as usize]
}
