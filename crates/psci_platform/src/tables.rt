//! Making the names of a platform's cores and power domains, once.

ghost use Rattle.std.specs.Prelude.{◌≡◌, ◌<◌, ◌≤◌, ◌^◌, true, length, IfOk, IfSome};
ghost use Rattle.std.specs.List.{All};
ghost use Rattle.psci_board.specs.Board.{cores};
ghost use Rattle.psci_platform.specs.Names.{AreAmong, AreNames, HasNames, IsName, are_found};
ghost use Rattle.psci_platform.specs.Swaps.{is_symmetric};

use crate::class::LEVELS;
use crate::cores::affinity_word;
use crate::description::Description;
use crate::names::{Name, Table, name_in, put_names};
use psci_board::{Board, Core, Memory};
use std::alloc::Global;

/// The first factor. Its powers are the others.
const FACTOR: u64 = 0x9E37_79B9_7F4A_7C15;

/// How many factors are tried.
const ROUNDS: u32 = 64;

impl Description {
    /// The names of the levels of the board, from the cores up: as far as there is, for each, a
    /// factor with which no two names have one slot.
    #[inline(never)]
    pub(crate) fn tables(
        &self,
        alloc: Global,
        board: &Board,
        boot: Core,
    ) -> Result<Vec<Table>, Memory>
        requires count { length self.now.mpidrs ≡ cores board.now }
        requires boot { boot.number < cores board.now }
        requires symmetric { is_symmetric board.now boot.number ≡ true }
        ensures few { IfOk result (λ tables. length tables.items ≤ 4) }
        ensures names { IfOk result (λ tables.
            AreNames self.now board.now boot.number tables.items) }
    {
        let mut tables = Vec::with_capacity(alloc, LEVELS)?;
        for level in 0..LEVELS as u32 {
            let Some(table) = self.table(alloc, board, boot, level)? else {
                break;
            };
            tables.push(table)?;
        }
        Ok(tables)
    }

    /// The names of a level, if there is a factor for them.
    #[tactic(auto, using(crate::proofs::Swaps::has_names, crate::proofs::Swaps::one_in_all))]
    fn table(
        &self,
        alloc: Global,
        board: &Board,
        boot: Core,
        level: u32,
    ) -> Result<Option<Table>, Memory>
        requires count { length self.now.mpidrs ≡ cores board.now }
        requires boot { boot.number < cores board.now }
        requires symmetric { is_symmetric board.now boot.number ≡ true }
        requires level { level < 4 }
        ensures { IfOk result (λ table. IfSome table
            (HasNames self.now board.now boot.number level)) }
    {
        let names = self.names(alloc, board, boot, level)?;
        let Some(first) = names.first() else {
            return Ok(None);
        };
        let mask = mask_for(runs(&names));
        let mut slots = vec![in alloc; *first; mask as usize + 1]?;
        match factor_for(&self.mpidrs, level, &names, &mut slots, mask) {
            Some(factor) => Ok(Some(Table {
                slots,
                factor,
                mask,
            })),
            None => Ok(None),
        }
    }

    /// The names of a level, of each MPIDR one.
    fn names(
        &self,
        alloc: Global,
        board: &Board,
        boot: Core,
        level: u32,
    ) -> Result<Vec<Name>, Memory>
        requires count { length self.now.mpidrs ≡ cores board.now }
        requires boot { boot.number < cores board.now }
        requires symmetric { is_symmetric board.now boot.number ≡ true }
        requires level { level < 4 }
        ensures { IfOk result (λ names. All (IsName self.now board.now boot.number level)
            names.items) }
    {
        let mut names = Vec::with_capacity(alloc, self.mpidrs.len())?;
        for mpidr in &self.mpidrs {
            let Some(core) = self.number_named(board, boot, *mpidr, level) else {
                continue;
            };
            names.push(Name {
                fields: *mpidr >> (8 * level),
                word: affinity_word(board, core),
                core,
            })?;
        }
        Ok(names)
    }
}

/// A factor with which each MPIDR finds the name of its fields, once all names are in their slots.
fn factor_for(
    mpidrs: &[u64],
    level: u32,
    names: &[Name],
    slots: &mut [Name],
    mask: u64,
) -> Option<u64>
    requires level { level < 4 }
    requires among { AreAmong names.now slots.old }
    ensures among { AreAmong names.now slots.new }
    ensures found { IfSome result (λ factor. are_found mpidrs.now level slots.new factor mask
        ≡ true) }
{
    let mut factor = FACTOR;
    for _round in 0..ROUNDS {
        put_names(slots, names, factor, mask);
        if are_found(mpidrs, level, slots, factor, mask) {
            return Some(factor);
        }
        factor = factor.wrapping_mul(FACTOR);
    }
    None
}

/// Whether each MPIDR finds the name of its fields of this level and above.
#[tactic(auto, unfolding(crate::specs::Names::are_found))]
fn are_found(mpidrs: &[u64], level: u32, slots: &[Name], factor: u64, mask: u64) -> bool
    requires { level < 4 }
    ensures { result ≡ are_found mpidrs.now level slots.now factor mask }
{
    mpidrs.iter().all(|mpidr| name_in(slots, factor, mask, *mpidr >> (8 * level)).is_some())
}

/// How many names are not those of the one before.
fn runs(names: &[Name]) -> u16 {
    let mut runs: u16 = 0;
    let mut last = None;
    for name in names {
        if last != Some(name.fields) {
            runs = runs.saturating_add(1);
        }
        last = Some(name.fields);
    }
    runs
}

/// The numbers of four times as many slots as there are names, or some more.
fn mask_for(names: u16) -> u64
    ensures { result < 2 ^ 10 }
{
    match names {
        0..=4 => 15,
        5..=16 => 63,
        17..=64 => 255,
        _ => 1023,
    }
}
