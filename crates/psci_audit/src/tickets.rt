//! Whether the tickets of two books fit.

ghost use Rattle.std.specs.Prelude.{◌≡◌, ◌↔◌, IsTrue, None, option_map};
ghost use Rattle.psci_audit.specs.Merged.{AreApart, IsAfter, RiseAfter, TicketsFit, tickets_of};

use psci_shared::{CtlEntry, Entry, FwEntry};

/// Whether the tickets rise in each book, and none is in both.
pub(crate) fn tickets_fit(firmware: &[FwEntry], controller: &[CtlEntry]) -> bool
    ensures { IsTrue result ↔ TicketsFit firmware.now controller.now }
{
    if !rises(firmware) {
        return false;
    }
    if !rises(controller) {
        return false;
    }
    are_apart(firmware, controller)
}

fn is_after(last: Option<u64>, ticket: u64) -> bool
    ensures { IsTrue result ↔ IsAfter last ticket }
{
    match last {
        Some(last) => last < ticket,
        None => true,
    }
}

fn rises<W: Drop, C: Drop, R: Drop>(entries: &[Entry<W, C, R>]) -> bool
    ensures { IsTrue result ↔ RiseAfter None (tickets_of entries.now) }
{
    let mut last = None;
    for entry in entries {
        if !is_after(last, entry.ticket) {
            return false;
        }
        last = Some(entry.ticket);
    }
    true
}

/// Whether no ticket is in both, where they rise in each.
fn are_apart(firmware: &[FwEntry], controller: &[CtlEntry]) -> bool
    requires firmware { RiseAfter None (tickets_of firmware.now) }
    requires controller { RiseAfter None (tickets_of controller.now) }
    ensures { IsTrue result ↔ AreApart (tickets_of firmware.now) (tickets_of controller.now) }
{
    let (mut ones, mut others) = (firmware, controller);
    while let [one, after @ ..] = ones {
        let [other, rest @ ..] = others else {
            return true;
        };
        if one.ticket == other.ticket {
            return false;
        }
        if one.ticket < other.ticket {
            ones = after;
        } else {
            others = rest;
        }
    }
    true
}
