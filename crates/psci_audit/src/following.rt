//! Whether an entry may follow those that a world's records tell. If it may, one record more is
//! made, which tells it.

ghost use Rattle.std.specs.Prelude.{◌≡◌, ◌<◌, ◌↔◌, ℕ, IfOk, IsTrue, List, Some};
ghost use Rattle.psci_audit.specs.Merged.{asked_by, controlled_by};
ghost use Rattle.psci_world.specs.psci_board.Board.{cores};
ghost use Rattle.psci_audit.specs.Told.{asked, controlled, IsStep, Tells};
ghost use Rattle.psci_audit.specs.Entries.{Entry, Asked, Controlled};
ghost use Rattle.psci_world_spec.specs.psci_fw_spec.declared.call.FwCall.TheVariants as calls;
ghost use Rattle.psci_world_spec.specs.psci_ctl_spec.declared.call.CtlCall.TheVariants as asks;
ghost use Rattle.psci_world_spec.specs.psci_ctl_spec.Replies.{last_start};
ghost use Rattle.psci_world_spec.specs.declared.place.Place.TheVariants.{Stopped};
ghost use Rattle.psci_world_spec.specs.Legal.{controller_values, place};

use crate::finding::{find_ack, find_message};
use crate::said::{says_delivery, says_kick, says_outcome, says_taken};
use psci_ctl::{CtlCall, CtlReply};
use psci_fw::{FwCall, FwReply};
use psci_shared::{CtlEntry, FwEntry};
use psci_world::{Ack, Core, Event, Memory, Message, Place, Regs, Start, World};

/// Whether this call of the firmware may follow.
pub(crate) fn follow_firmware(world: &mut World, entry: &FwEntry) -> Result<bool, Memory>
    ensures board { world.new.board ≡ world.old.board }
    ensures step { IfOk result (λ may. IsStep world.old world.new (asked_by entry.now) may) }
{
    match &entry.call {
        FwCall::Smc(regs) => calls(world, entry.core, *regs, &entry.reply),
        FwCall::Enter(start) => enters(world, entry.core, *start, &entry.reply),
        FwCall::Take(ack) => takes(world, ack, &entry.reply),
    }
}

/// Whether this call of the power controller may follow.
pub(crate) fn follow_controller(world: &mut World, entry: &CtlEntry) -> Result<bool, Memory>
    ensures board { world.new.board ≡ world.old.board }
    ensures step { IfOk result (λ may. IsStep world.old world.new (controlled_by entry.now) may) }
{
    match &entry.call {
        CtlCall::Deliver(message) => delivers(world, message, &entry.reply),
        CtlCall::Wake(core, halted) => wakes(world, *core, *halted, &entry.reply),
        CtlCall::Reset(core) => resets(world, *core, &entry.reply),
    }
}

/// Whether a core may have called so.
fn calls(world: &mut World, core: Core, regs: Regs, reply: &FwReply) -> Result<bool, Memory>
    ensures board { world.new.board ≡ world.old.board }
    ensures step { IfOk result (λ may. IsStep world.old world.new
        (Asked (asked core.number (calls.Smc regs) reply.now)) may) }
{
    let record = world.step(Event::Call(u64::from(core.number), regs))?;
    Ok(says_outcome(&record.said, reply))
}

/// Whether a core may have entered by this start.
fn enters(world: &mut World, core: Core, start: Start, reply: &FwReply) -> Result<bool, Memory>
    ensures board { world.new.board ≡ world.old.board }
    ensures step { IfOk result (λ may. IsStep world.old world.new
        (Asked (asked core.number (calls.Enter start) reply.now)) may) }
{
    if !is_on_board(world, core) {
        return Ok(false);
    }
    if !is_last_start(world, core, start) {
        return Ok(false);
    }
    let record = world.step(Event::Enter(u64::from(core.number)))?;
    Ok(says_outcome(&record.said, reply))
}

/// Whether the firmware may have taken this acknowledgement.
fn takes(world: &mut World, ack: &Ack, reply: &FwReply) -> Result<bool, Memory>
    ensures board { world.new.board ≡ world.old.board }
    ensures step { IfOk result (λ may. IsStep world.old world.new
        (Asked (asked 0 (calls.Take ack.now) reply.now)) may) }
{
    let Some(number) = find_ack(world.acks(), ack) else {
        return Ok(false);
    };
    let record = world.step(Event::Take(number))?;
    Ok(says_taken(&record.said, reply))
}

/// Whether this message may have been delivered.
fn delivers(world: &mut World, message: &Message, reply: &CtlReply) -> Result<bool, Memory>
    ensures board { world.new.board ≡ world.old.board }
    ensures step { IfOk result (λ may. IsStep world.old world.new
        (Controlled (controlled (asks.Deliver message.now) reply.now)) may) }
{
    let Some(number) = find_message(world.messages(), message) else {
        return Ok(false);
    };
    let record = world.step(Event::Deliver(number))?;
    Ok(says_delivery(&record.said, reply))
}

/// Whether a core may have been woken that stopped in this start.
fn wakes(world: &mut World, core: Core, halted: u32, reply: &CtlReply) -> Result<bool, Memory>
    ensures board { world.new.board ≡ world.old.board }
    ensures step { IfOk result (λ may. IsStep world.old world.new
        (Controlled (controlled (asks.Wake core halted) reply.now)) may) }
{
    if !is_on_board(world, core) {
        return Ok(false);
    }
    if !may_wake(world, core, halted) {
        return Ok(false);
    }
    let record = world.step(Event::Wake(u64::from(core.number)))?;
    Ok(says_kick(&record.said, reply))
}

/// Whether a core may have been reset.
fn resets(world: &mut World, core: Core, reply: &CtlReply) -> Result<bool, Memory>
    ensures board { world.new.board ≡ world.old.board }
    ensures step { IfOk result (λ may. IsStep world.old world.new
        (Controlled (controlled (asks.Reset core) reply.now)) may) }
{
    let record = world.step(Event::Reset(u64::from(core.number)))?;
    Ok(says_kick(&record.said, reply))
}

/// Whether the board has this core.
fn is_on_board(world: &World, core: Core) -> bool
    ensures { IsTrue result ↔ core.number < cores world.now.board }
{
    core.number < world.board().cores()
}

/// Whether a core was last started so.
fn is_last_start(world: &World, core: Core, start: Start) -> bool
    requires { core.number < cores world.now.board }
    ensures { IsTrue result
        ↔ last_start (controller_values world.now.board world.now.past) core.number ≡ Some start }
{
    world.controller().started(core) == Some(start)
}

/// Whether this is the start in which a core stopped, if it is stopped.
fn may_wake(world: &World, core: Core, halted: u32) -> bool
    requires { core.number < cores world.now.board }
    ensures { IsTrue result ↔ (place world.now.board world.now.past core.number ≡ Stopped
        → halted ≡ (controller_values world.now.board world.now.past).starts core.number) }
{
    world.place(core) != Place::Stopped || world.controller().starts(core) == halted
}
