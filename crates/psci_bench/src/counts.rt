//! What the firmware's book of a run has of each core.

ghost use Rattle.std.specs.Prelude.{◌≡◌};
ghost use Rattle.psci_bench.specs.Watches.{calls_of, entries_of, is_by, is_call_by};

use psci_audit::{FwCall, FwEntry};
use psci_shared::Core;

/// How many calls of a core there are.
pub fn calls_of(entries: &[FwEntry], core: Core) -> u64
    ensures { result ≡ calls_of entries.now core }
{
    entries
        .iter()
        .filter(|entry| is_call_by(entry, core))
        .count() as u64
}

/// How many entries a core has made: its calls, and as often as it entered.
pub fn entries_of(entries: &[FwEntry], core: Core) -> u64
    ensures { result ≡ entries_of entries.now core }
{
    entries.iter().filter(|entry| is_by(entry, core)).count() as u64
}

/// Whether it is a call of this core.
fn is_call_by(entry: &FwEntry, core: Core) -> bool
    ensures { result ≡ is_call_by core entry.now }
{
    match entry.call {
        FwCall::Smc(_) => entry.core.number == core.number,
        _ => false,
    }
}

/// Whether this core has made it. An acknowledgement is taken by none.
fn is_by(entry: &FwEntry, core: Core) -> bool
    ensures { result ≡ is_by core entry.now }
{
    match entry.call {
        FwCall::Take(_) => false,
        _ => entry.core.number == core.number,
    }
}
