//! What a call has changed of the statuses is written, once the call is done.

ghost use Rattle.std.specs.Prelude.{◌≡◌, ◌≢◌, ℕ, ◌+◌, ◌<◌, ◌^◌, false, length, IfSome, Some};
ghost use Rattle.psci_board.specs.Board.{cores};
ghost use Rattle.psci_fw.specs.Reactions.{seen};
ghost use Rattle.psci_fw_spec.specs.Changes.{first_status};
ghost use Rattle.psci_fw_spec.specs.Statuses.{added};
ghost use Rattle.psci_status.specs.Lists.{asked_by, is_named, one_more, row, slot_beside, used_by};
ghost use Rattle.psci_status.specs.Lists.{written_then};
ghost use Rattle.psci_status.specs.Seats.{MayWrite, WritesBoard, table, table_of_writer, written};

use crate::seats::{StatusWords, Writer};
use psci_board::Core;
use psci_fw::{Act, Firmware, Outcome, Reaction, Status, Taken};

/// The target of a CPU_ON that was accepted.
pub fn asked_on(outcome: &Outcome) -> Option<Core>
    ensures { result ≡ asked_by outcome.now }
{
    match (outcome.act, &outcome.message) {
        (Act::Return(_), Some(message)) => Some(message.core),
        _ => None,
    }
}

/// The same by a reaction: a message beside a return code stands in the slot of its core.
pub(crate) fn asked_in(reaction: &Reaction) -> Option<Core>
    ensures { result ≡ slot_beside reaction.now.act reaction.now.slot }
{
    match (reaction.act, reaction.slot) {
        (Act::Return(_), Some(number)) => Some(Core { number }),
        _ => None,
    }
}

/// The core of an acknowledgement that was used. An old one has changed nothing.
pub(crate) fn used_in(taken: Taken, core: Core) -> Option<Core>
    ensures { result ≡ used_by taken core }
{
    match taken {
        Taken::Used => Some(core),
        Taken::Old => None,
    }
}

/// The firmware's life, 0 before any core has entered.
pub(crate) fn life_of(firmware: &Firmware) -> u32
    ensures { result ≡ (seen firmware.now).life }
{
    firmware.life().unwrap_or(0)
}

/// Writes the statuses after a call: of all cores where it began a life, else of the one core whose
/// status it may have changed.
#[inline(always)]
pub fn write_changed(
    words: &StatusWords,
    writer: &mut Writer,
    firmware: &Firmware,
    before: u32,
    changed: Option<Core>,
    count: u16,
)
    requires words { table_of_writer writer.old ≡ table words.now }
    requires cores { (count ≡ cores firmware.now.board) × ((table words.now).words ≡ count) }
    requires few { (core : ℕ) → core < count → length (row (written writer.old) core) < 2 ^ 60 }
    requires others { (core : ℕ) → core < count → is_named changed core ≡ false
        → (seen firmware.now).life ≡ before → (seen firmware.now).life ≢ 0
        → added ((seen firmware.now).status core) (row (written writer.old) core)
        ≡ row (written writer.old) core }
    ensures table { table_of_writer writer.new ≡ table_of_writer writer.old }
    ensures log { (core : ℕ) → core < count → row (written writer.new) core
        ≡ written_then before (seen firmware.now) core (row (written writer.old) core) }
{
    let life = life_of(firmware);
    if life != 0 && life != before {
        write_all(words, writer, firmware, count);
        return;
    }
    write_one(words, writer, firmware, changed, count);
}

/// Writes the status after a call that left the life: of the one core whose status it may have
/// changed. Compiled into its callers, so that a call that names no core does nothing here.
#[inline(always)]
pub fn write_one(
    words: &StatusWords,
    writer: &mut Writer,
    firmware: &Firmware,
    changed: Option<Core>,
    count: u16,
)
    requires board { WritesBoard words.now writer.old firmware.now.board count }
    requires few { (core : ℕ) → core < count → length (row (written writer.old) core) < 2 ^ 60 }
    requires others { (core : ℕ) → core < count → is_named changed core ≡ false
        → (seen firmware.now).life ≢ 0
        → added ((seen firmware.now).status core) (row (written writer.old) core)
        ≡ row (written writer.old) core }
    ensures table { table_of_writer writer.new ≡ table_of_writer writer.old }
    ensures log { (core : ℕ) → core < count → row (written writer.new) core
        ≡ written_then (seen firmware.now).life (seen firmware.now) core
        (row (written writer.old) core) }
{
    let Some(core) = changed else {
        return;
    };
    if life_of(firmware) != 0 && core.number < count {
        words.update(writer, core, firmware.core_status(core));
    }
}

/// The same where there is a life, and the core is of the board, if one is named. A call that was
/// not refused has told both, so nothing is asked again.
#[inline(always)]
pub(crate) fn write_known(
    words: &StatusWords,
    writer: &mut Writer,
    firmware: &Firmware,
    changed: Option<Core>,
    count: u16,
)
    requires board { WritesBoard words.now writer.old firmware.now.board count }
    requires known { IfSome changed (λ core.
        (core.number < count) × ((seen firmware.now).life ≢ 0)) }
    requires few { (core : ℕ) → core < count → length (row (written writer.old) core) < 2 ^ 60 }
    requires others { (core : ℕ) → core < count → is_named changed core ≡ false
        → (seen firmware.now).life ≢ 0
        → added ((seen firmware.now).status core) (row (written writer.old) core)
        ≡ row (written writer.old) core }
    ensures table { table_of_writer writer.new ≡ table_of_writer writer.old }
    ensures log { (core : ℕ) → core < count → row (written writer.new) core
        ≡ written_then (seen firmware.now).life (seen firmware.now) core
        (row (written writer.old) core) }
{
    let _count = count;
    if let Some(core) = changed {
        words.update(writer, core, firmware.core_status(core));
    }
}

/// Writes the statuses after a core of the board has entered by a start of this life: of all cores
/// where the start began it, else of the one core.
#[inline(always)]
pub(crate) fn write_entered(
    words: &StatusWords,
    writer: &mut Writer,
    firmware: &Firmware,
    before: u32,
    core: Core,
    life: u32,
    count: u16,
)
    requires board { WritesBoard words.now writer.old firmware.now.board count }
    requires entered { (core.number < count) × ((seen firmware.now).life ≡ life) × (life ≢ 0) }
    requires few { (core : ℕ) → core < count → length (row (written writer.old) core) < 2 ^ 60 }
    requires others { (other : ℕ) → other < count → is_named (Some core) other ≡ false
        → (seen firmware.now).life ≡ before → (seen firmware.now).life ≢ 0
        → added ((seen firmware.now).status other) (row (written writer.old) other)
        ≡ row (written writer.old) other }
    ensures table { table_of_writer writer.new ≡ table_of_writer writer.old }
    ensures log { (other : ℕ) → other < count → row (written writer.new) other
        ≡ written_then before (seen firmware.now) other (row (written writer.old) other) }
{
    if life == before {
        write_known(words, writer, firmware, Some(core), count);
    } else {
        write_all(words, writer, firmware, count);
    }
}

/// Writes the status of each core, and before it that of the start of the life that has begun. It
/// has a frame of its own, since few calls begin a life.
#[inline(never)]
fn write_all(words: &StatusWords, writer: &mut Writer, firmware: &Firmware, count: u16)
    requires board { WritesBoard words.now writer.old firmware.now.board count }
    requires begun { (seen firmware.now).life ≢ 0 }
    requires few { (core : ℕ) → core < count → length (row (written writer.old) core) < 2 ^ 60 }
    ensures table { table_of_writer writer.new ≡ table_of_writer writer.old }
    ensures log { (core : ℕ) → core < count → row (written writer.new) core
        ≡ added ((seen firmware.now).status core)
        (added (first_status core) (row (written writer.old) core)) }
{
    for number in 0..count {
        let core = Core { number };
        write_both(
            words,
            writer,
            core,
            first_status(core),
            firmware.core_status(core),
        );
    }
}

/// Writes the status of a core at the start of a life, and then the one that it has, if that is
/// another one: the word of a core that has not entered is loaded once.
#[inline(always)]
fn write_both(words: &StatusWords, writer: &mut Writer, core: Core, first: Status, status: Status)
    requires here { MayWrite words.now writer.old core.number }
    requires few { length (row (written writer.old) core.number) < 2 ^ 60 }
    ensures table { table_of_writer writer.new ≡ table_of_writer writer.old }
    ensures here { row (written writer.new) core.number
        ≡ added status (added first (row (written writer.old) core.number)) }
    ensures others { (other : ℕ) → other ≢ core.number
        → row (written writer.new) other ≡ row (written writer.old) other }
{
    words.update(writer, core, first);
    if status != first {
        words.update(writer, core, status);
    }
}

/// The status of a core at the start of a life.
fn first_status(core: Core) -> Status
    ensures { result ≡ first_status core.number }
{
    if core.number == 0 {
        Status::Pending
    } else {
        Status::Off
    }
}
