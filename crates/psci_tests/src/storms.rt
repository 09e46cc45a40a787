//! Storms, and what they come to.

use crate::worlds::agrees;
use psci_board::Board;
use psci_storm::{Answer, Settled, TALLIES, Tally, blow, count};
use psci_world::World;
use std::process::Abort;
use std::test::Fail;

/// The board of a storm where none is given: two clusters of two cores.
const STANDARD: &str = "(2 2) exec 0x40000000-0x40100000 boot 0x40000000 starts 1000 lives 3";

/// Two groups of two clusters of a core.
const EVEN: &str = "((1 1) (1 1)) exec 0x40000000-0x40100000 boot 0x40000000 starts 1000 lives 3";

/// Two clusters of two cores, with lives enough for each function to be called in one that halts.
const BOARD: &str = "(2 2) exec 0x40000000-0x40100000 boot 0x40000000 starts 1000 lives 12";

/// Two groups of clusters, with power state words in the extended format.
const TALL: &str = "((1 2) (2 1)) exec 0x0-0x100000 boot 0x0 starts 1000 lives 3 format extended";

/// So many events are drawn.
const COUNT: u64 = 10_000;

/// The world of each of these seeds after its storm, which came to rest, or halts.
fn worlds(rt: &(impl Abort + AllocGlobal), text: &str, seeds: u64) -> Result<Vec<World>, Fail> {
    let board = Board::read(rt.alloc(), text)?;
    let mut worlds = Vec::new(rt.alloc());
    for number in 0..seeds {
        let seed = number + 1;
        let mut world = World::new(rt.alloc(), &board)?;
        let settled = blow(&mut world, seed, COUNT)?;
        if let Settled::Quiet(rounds) = settled {
            assert!(rt; rounds <= board.height().min(3) + 1, "seed {seed}");
            assert!(rt; agrees(&world), "seed {seed}");
        }
        worlds.push(world)?;
    }
    Ok(worlds)
}

/// How many records of these worlds are of this tally.
fn count_all(worlds: &[World], tally: Tally) -> u64 {
    let mut total: u64 = 0;
    for world in worlds {
        total = total.saturating_add(count(world.records(), tally));
    }
    total
}

/// Whether a board has to be of height 3, or to have the extended format, for a record of this
/// tally.
fn is_tall(tally: Tally) -> bool {
    match tally.answer {
        Answer::Return(3) => true,
        Answer::Acked { applied: 3, stale } => stale,
        Answer::Acked { applied, .. } => applied > 3,
        _ => false,
    }
}

/// All tallies. Named here alone, since the prover reads the whole table wherever it is named.
fn tallies() -> &'static [Tally] {
    &TALLIES
}

/// Whether there are records of this tally: in the low worlds unless it has to be tall, and in the
/// high ones where there is none in those.
fn has_tally(low: &[World], high: &[World], tally: Tally) -> bool {
    let some = count_all(low, tally);
    (some == 0) == is_tall(tally) && (some > 0 || count_all(high, tally) > 0)
}

/// How many records of these worlds are of some tally.
fn count_tallied(worlds: &[World]) -> u64 {
    let mut total: u64 = 0;
    for tally in tallies() {
        total = total.saturating_add(count_all(worlds, *tally));
    }
    total
}

/// How many records these worlds have.
fn count_records(worlds: &[World]) -> u64 {
    let mut total: u64 = 0;
    for world in worlds {
        total = total.saturating_add(world.records().len() as u64);
    }
    total
}

/// The first tally of which the worlds of the two boards do not have the records that they should.
fn first_missing(low: &[World], high: &[World]) -> Option<Tally> {
    for tally in tallies() {
        if !has_tally(low, high, *tally) {
            return Some(*tally);
        }
    }
    None
}

#[test]
fn storms_settle_and_have_all_tallies(rt: HostRuntime) -> Result<(), Fail> {
    assert_eq!(rt; worlds(&rt, STANDARD, 20)?.len(), 20);
    assert_eq!(rt; worlds(&rt, EVEN, 5)?.len(), 5);
    let low = worlds(&rt, BOARD, 20)?;
    let high = worlds(&rt, TALL, 5)?;
    let missing = first_missing(low.as_slice(), high.as_slice());
    assert!(rt; missing.is_none(), "{missing:?}");
    assert_eq!(rt;
        count_tallied(low.as_slice()),
        count_records(low.as_slice())
    );
    Ok(())
}
