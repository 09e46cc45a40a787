//! The audit of a trace.

ghost use Rattle.std.specs.Prelude.{◌≡◌, ◌<◌, [], IfErr, IfOk, IsTrue, OnOk, length};
ghost use Rattle.psci_audit.specs.Merged.{history_of, is_asked_first, IsFault, IsFirstIllegal};
ghost use Rattle.psci_audit.specs.Merged.{IsFollowed, IsJudged, IsSound, merged};
ghost use Rattle.psci_audit.specs.Entries.{IsLegal};
ghost use Rattle.psci_audit.specs.Told.{IsListOfSafe, Tells};

use crate::fault::AuditFault;
use crate::following::{follow_controller, follow_firmware};
use crate::laws::law_told;
use crate::tickets::tickets_fit;
use crate::trace::Trace;
use psci_shared::{CtlEntry, FwEntry};
use psci_world::{Board, Memory, World};
use std::alloc::Global;

/// A trace that was found legal, told once more as a run of a world.
#[derive(Drop)]
pub struct Retold {
    /// The world, whose records tell the merged list.
    pub world: World,
    /// How many entries the trace has.
    pub audited: u64,
}

/// How many entries a trace has, if its tickets fit and the merged list is legal. Then that is the
/// list of a legal run of the world, which was safe at every moment.
pub fn audit(alloc: Global, board: &Board, trace: &Trace) -> Result<u64, AuditFault>
    ensures ok { IfOk result
        (λ n. IsSound board.now trace.now.firmware.items trace.now.controller.items n) }
    ensures safe { OnOk result (IsListOfSafe board.now
        (history_of trace.now.firmware.items trace.now.controller.items)) }
    ensures fault { IfErr result
        (λ f. IsFault board.now trace.now.firmware.items trace.now.controller.items f) }
{
    match retell(alloc, board, trace) {
        Ok(Retold { world: _, audited }) => Ok(audited),
        Err(fault) => Err(fault),
    }
}

/// The world in which a trace happened, if its tickets fit and the merged list is legal: a record
/// for each entry of that list, in order, with the same reply.
pub fn retell(alloc: Global, board: &Board, trace: &Trace) -> Result<Retold, AuditFault>
    ensures ok { IfOk result
        (λ r. IsSound board.now trace.now.firmware.items trace.now.controller.items r.audited) }
    ensures board { IfOk result (λ r. r.world.board ≡ board.now) }
    ensures told { IfOk result (λ r. Tells board.now r.world.past
        (history_of trace.now.firmware.items trace.now.controller.items)) }
    ensures safe { OnOk result (IsListOfSafe board.now
        (history_of trace.now.firmware.items trace.now.controller.items)) }
    ensures fault { IfErr result
        (λ f. IsFault board.now trace.now.firmware.items trace.now.controller.items f) }
{
    let firmware = trace.firmware.as_slice();
    let controller = trace.controller.as_slice();
    if !tickets_fit(firmware, controller) {
        return Err(AuditFault::Ticket);
    }
    law_told();
    let Ok(mut world) = World::new(alloc, board) else {
        return Err(AuditFault::Memory);
    };
    world.law();
    match follow_all(&mut world, firmware, controller) {
        Ok(audited) => Ok(Retold { world, audited }),
        Err(fault) => Err(fault),
    }
}

/// How many entries there are, if the merged list is legal in a world without records.
fn follow_all(
    world: &mut World,
    firmware: &[FwEntry],
    controller: &[CtlEntry],
) -> Result<u64, AuditFault>
    requires { world.old.past ≡ [] }
    ensures judged { IsJudged world.old.board (merged firmware.now controller.now) result }
    ensures board { OnOk result (world.new.board ≡ world.old.board) }
    ensures told { OnOk result (Tells world.old.board world.new.past
        (history_of firmware.now controller.now)) }
{
    let total = firmware.len() + controller.len();
    let mut asked = firmware;
    let mut controlled = controller;
    for place in 0..total {
        if is_asked_first(asked, controlled) {
            let [entry, rest @ ..] = asked else {
                return Ok(place as u64);
            };
            asked = rest;
            if let Some(fault) = fault_of(follow_firmware(world, entry), place as u64) {
                return Err(fault);
            }
        } else {
            let [entry, rest @ ..] = controlled else {
                return Ok(place as u64);
            };
            controlled = rest;
            if let Some(fault) = fault_of(follow_controller(world, entry), place as u64) {
                return Err(fault);
            }
        }
    }
    Ok(total as u64)
}

/// The fault of the entry at this place, if it may not follow or memory ran out.
fn fault_of(followed: Result<bool, Memory>, place: u64) -> Option<AuditFault>
    ensures { IsFollowed followed place result }
{
    match followed {
        Ok(true) => None,
        Ok(false) => Some(AuditFault::Illegal(place)),
        Err(Memory) => Some(AuditFault::Memory),
    }
}

/// Whether the next entry is one of the firmware's book.
fn is_asked_first(asked: &[FwEntry], controlled: &[CtlEntry]) -> bool
    ensures { result ≡ is_asked_first asked.now controlled.now }
{
    match (asked, controlled) {
        ([], _) => false,
        (_, []) => true,
        ([one, ..], [other, ..]) => one.ticket < other.ticket,
    }
}
