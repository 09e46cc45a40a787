//! One level of the tree of power domains: its nodes, and the children of each.

use crate::memory::Memory;
use std::alloc::Global;
use std::marker::Model;

/// The nodes of a level, from left to right, with the number of children of each. Where the
/// children of a node begin on the level below, and whose child a node of that level is, takes
/// one step to say.
#[derive(Drop)]
pub struct Level {
    counts: Vec<u16>,
    /// For each node, the place of its first child.
    firsts: Vec<u16>,
    /// For each child, the place of its parent.
    parents: Vec<u16>,
}

impl Model for Level {
    ghost use Rattle.std.specs.Prelude.{ℕ, List};
    ghost use Rattle.psci_board.specs.Level.{IsIndexed};

    ghost Value = { List ℕ };

    ghost view = { λ l. l.counts.items };

    ghost invariant = { λ l. IsIndexed l.counts.items l.firsts.items l.parents.items };
}

ghost use Rattle.std.specs.Prelude.{◌≡◌, ℕ, ◌<◌, ◌^◌, length, sum, take, slice_index, IfOk};
ghost use Rattle.psci_board.specs.Board.{group_of, index_in};
ghost use Rattle.psci_board.specs.Level.{child_in};

impl Level {
    /// A level whose nodes have so many children, from left to right.
    pub fn new(alloc: Global, counts: &[u16]) -> Result<Level, Memory>
        requires nodes { length counts.now < 2 ^ 16 }
        requires children { sum counts.now < 2 ^ 16 }
        ensures { IfOk result (λ level. level ≡ counts.now) }
    {
        Ok(Level {
            counts: Vec::from_slice(alloc, counts)?,
            firsts: firsts_of(alloc, counts)?,
            parents: parents_of(alloc, counts)?,
        })
    }

    /// The same level, in memory of its own.
    pub fn copy(&self, alloc: Global) -> Result<Level, Memory>
        ensures { IfOk result (λ level. level ≡ self.now) }
    {
        Ok(Level {
            counts: Vec::from_slice(alloc, &self.counts)?,
            firsts: Vec::from_slice(alloc, &self.firsts)?,
            parents: Vec::from_slice(alloc, &self.parents)?,
        })
    }

    /// How many children the node at `place` has: none where the level has no such node.
    pub fn children(&self, place: u16) -> u16
        ensures { result ≡ slice_index self.now place }
    {
        self.counts.get(place as usize).copied().unwrap_or(0)
    }

    /// How many children all nodes of the level have: the nodes of the level below.
    pub fn all_children(&self) -> u16
        ensures { result ≡ sum self.now }
    {
        self.parents.len() as u16
    }

    /// Where the children of the node at `place` begin, on the level below: after all children,
    /// where the level has no such node.
    pub fn first_child(&self, place: u16) -> u16
        ensures { result ≡ sum (take place self.now) }
    {
        match self.firsts.get(place as usize) {
            Some(first) => *first,
            None => self.all_children(),
        }
    }

    /// The place, on the level below, of the child of this number of the node at `place`, from
    /// left to right and from 0, if there is one.
    pub fn child(&self, place: u16, number: u32) -> Option<u16>
        ensures { result ≡ child_in self.now place number }
    {
        if place as usize >= self.counts.len() {
            return None;
        }
        self.own_child(place, number)
    }

    /// The same of a node that the level has.
    pub fn own_child(&self, place: u16, number: u32) -> Option<u16>
        requires { place < length self.now }
        ensures { result ≡ child_in self.now place number }
    {
        let place = place as usize;
        if number >= u32::from(self.counts[place]) {
            return None;
        }
        Some(self.firsts[place] + number as u16)
    }

    /// The place of the node whose child is at `place` on the level below.
    pub fn parent(&self, place: u16) -> u16
        requires { place < sum self.now }
        ensures { result ≡ group_of self.now place }
    {
        self.parents[place as usize]
    }

    /// The number, among its siblings, of the child at `place` on the level below.
    pub fn number(&self, place: u16) -> u16
        requires { place < sum self.now }
        ensures { result ≡ index_in self.now place }
    {
        place - self.firsts[self.parent(place) as usize]
    }
}

/// The same levels, in memory of their own.
pub fn copies(alloc: Global, levels: &[Level]) -> Result<Vec<Level>, Memory>
    ensures { IfOk result (λ copies. copies.items ≡ levels.now) }
{
    let mut copies = Vec::with_capacity(alloc, levels.len())?;
    for level in levels {
        copies.push(level.copy(alloc)?)?;
    }
    Ok(copies)
}

/// For each node, the place of its first child.
fn firsts_of(alloc: Global, counts: &[u16]) -> Result<Vec<u16>, Memory>
    requires { sum counts.now < 2 ^ 16 }
    ensures len { IfOk result (λ firsts. length firsts.items ≡ length counts.now) }
    ensures each { IfOk result (λ firsts.
        (k : ℕ) → k < length counts.now → slice_index firsts.items k ≡ sum (take k counts.now)) }
{
    let mut firsts = Vec::with_capacity(alloc, counts.len())?;
    let mut first: u16 = 0;
    for count in counts {
        firsts.push(first)?;
        first += *count;
    }
    Ok(firsts)
}

/// For each child, the place of its parent.
fn parents_of(alloc: Global, counts: &[u16]) -> Result<Vec<u16>, Memory>
    requires nodes { length counts.now < 2 ^ 16 }
    requires children { sum counts.now < 2 ^ 16 }
    ensures len { IfOk result (λ parents. length parents.items ≡ sum counts.now) }
    ensures each { IfOk result (λ parents.
        (i : ℕ) → i < sum counts.now → slice_index parents.items i ≡ group_of counts.now i) }
{
    let children: u16 = counts.iter().sum();
    let mut parents = Vec::with_capacity(alloc, children as usize)?;
    for (place, count) in counts.iter().enumerate() {
        for _child in 0..*count {
            parents.push(place as u16)?;
        }
    }
    Ok(parents)
}
