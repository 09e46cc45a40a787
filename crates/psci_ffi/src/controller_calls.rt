//! What reaches a power controller, messages, wake-ups and resets, and what C is answered.

ghost use Rattle.std.specs.Prelude.{◌<◌, ◌≡◌, ◌≤◌, length, slice_get, take, true};
ghost use Rattle.psci_board.specs.Board.{cores, domain_of, height, path};
ghost use Rattle.psci_ctl.specs.Seen.{seen};
ghost use Rattle.psci_ctl_spec.specs.declared.call.CtlCall.TheVariants.{Reset, Wake};
ghost use Rattle.psci_ctl_spec.specs.declared.call.CtlCall.TheVariants as calls;
ghost use Rattle.psci_ctl_spec.specs.Replies.{kick_effect, message_effect};
ghost use Rattle.psci_link.specs.declared.encoding.Frame.TheVariants as frames;
ghost use Rattle.psci_link.specs.Frame.{IsOf, is_within};
ghost use Rattle.psci_messages.specs.declared.start.Cause.{Cause};
ghost use Rattle.psci_messages.specs.Message.{AckValue, MessageValue};
ghost use Rattle.psci_ffi.specs.Controllers.{IsDelivered, IsFaulty, IsGivenTo, IsKicked, IsMade};
ghost use Rattle.psci_ffi.specs.Controllers.{IsMisplaced, ack_frame, cause_number, domain_shown};
ghost use Rattle.psci_ffi.specs.Controllers.{effect_shown, plain, refused, start_shown, started};
ghost use Rattle.psci_ffi.specs.Controllers.{switched};
ghost use Rattle.psci_ffi.specs.Shown.{no_frame};

use crate::answer::{SomeFrame, no_frame};
use crate::codes::{NO_FIRMWARE, NOT_A_MESSAGE, frame_code, refusal};
use crate::controller_place::ControllerPlace;
use psci_board::{Board, Core, Node, law_paths};
use psci_ctl::{Ack, Cause, Controller, Delivery, Kick, Kind, Message, Part, Start};
use psci_fw::FwFault;
use psci_link::{Heading, encode_ack, heading_on, message_in};
use std::mem::size_of;

/// A start of a core; zeros where there is none.
#[repr(C)]
#[derive(Clone, Copy)]
pub struct ControllerStart {
    /// The core.
    pub core: u16,
    /// The life.
    pub life: u32,
    /// The number of the start in this life, from 1.
    pub number: u32,
    /// 0 a boot, 1 CPU_ON, 2 a wake-up, 3 a reset of the core.
    pub cause: u32,
}

/// How deep a core's domain (level 0) or a power domain goes.
#[repr(C)]
#[derive(Clone, Copy)]
pub struct DomainDepth {
    /// The level.
    pub level: u32,
    /// Its index among those of its level, from left to right and from 0.
    pub index: u16,
    /// 1 standby, 2 retention, 3 power-down.
    pub depth: u8,
}

/// What came of a call: what the power hardware does next.
#[repr(C)]
#[derive(Clone, Copy)]
pub struct ControllerAnswer {
    /// 0 nothing is switched, 1 a core is started, 2 domains go to their depths, 3 the system goes
    /// off, 4 the next life begins and the boot core is started; from 16 on the call was refused,
    /// and nothing changed.
    pub what: u32,
    /// The start of 1 and 4.
    pub start: ControllerStart,
    /// How many domains 2 switches.
    pub many: u32,
    /// These domains, the lowest level first; zeros after them.
    pub domains: [DomainDepth; 4],
    /// The acknowledgement, which goes back to the firmware; none where a message was ignored.
    pub ack: SomeFrame,
}

// The sizes that psci_ctl.h gives these.
const _: () = prove!(size_of::<ControllerStart>() == 16);

const _: () = prove!(size_of::<DomainDepth>() == 8);

const _: () = prove!(size_of::<ControllerAnswer>() == 112);

/// No start.
pub const NO_START: ControllerStart = ControllerStart {
    core: 0,
    life: 0,
    number: 0,
    cause: 0,
};

/// No domain.
pub const NO_DOMAIN: DomainDepth = DomainDepth {
    level: 0,
    index: 0,
    depth: 0,
};

/// Nothing is switched.
pub const NOTHING: u32 = 0;

/// A core is started.
pub const START: u32 = 1;

/// Domains go to their depths.
pub const SWITCH: u32 = 2;

/// The system goes off.
pub const OFF: u32 = 3;

/// The next life begins.
pub const RESTART: u32 = 4;

/// Writes a refusal.
pub fn refuse(answer: &mut ControllerAnswer, what: u32)
    ensures { answer.new ≡ refused what }
{
    answer.ack = no_frame();
    write_plain(answer, what);
}

/// Writes this number, without a start and domains.
pub fn write_plain(answer: &mut ControllerAnswer, what: u32)
    ensures { answer.new ≡ plain what answer.old.ack }
{
    answer.what = what;
    answer.start = NO_START;
    answer.many = 0;
    answer.domains = [NO_DOMAIN; 4];
}

/// Writes that a core of this power controller was started.
pub fn write_started(answer: &mut ControllerAnswer, what: u32, controller: &Controller, core: Core)
    requires { core.number < cores controller.now.board }
    ensures { answer.new ≡ started what (seen controller.now) core.number answer.old.ack }
{
    answer.what = what;
    answer.start = start_of(core, controller.started(core));
    answer.many = 0;
    answer.domains = [NO_DOMAIN; 4];
}

/// The start of a core, if there is one.
pub fn start_of(core: Core, start: Option<Start>) -> ControllerStart
    ensures { result ≡ start_shown core.number start }
{
    match start {
        None => NO_START,
        Some(start) => ControllerStart {
            core: core.number,
            life: start.life,
            number: start.number,
            cause: cause_number(start.cause),
        },
    }
}

/// The number of a cause: 0 of a boot, 1 of CPU_ON, 2 of a wake-up, 3 of a reset.
pub fn cause_number(cause: Cause) -> u32
    ensures { result ≡ cause_number cause }
{
    match cause {
        Cause::Boot => 0,
        Cause::On => 1,
        Cause::Wake => 2,
        Cause::Reset => 3,
    }
}

/// Writes the frame of an acknowledgement.
pub fn write_ack(frame: &mut SomeFrame, ack: &Ack)
    ensures { frame.new ≡ ack_frame ack.now }
{
    frame.some = true;
    frame.bytes = encode_ack(ack);
}

/// Delivers the message whose frame these bytes are. From 16 on it was refused, and nothing
/// changed: 33 to 40 are the faults of frames, 42 says the frame of an acknowledgement.
#[unsafe(no_mangle)]
pub extern "C" fn psci_ctl_deliver(
    place: &mut ControllerPlace,
    frame: &[u8],
    answer: &mut ControllerAnswer,
)
    ensures { IsGivenTo place.old.slot.kept frame.now answer.new place.new.slot.kept }
{
    let controller = lent!(place.controller else refuse(answer, NO_FIRMWARE));
    give(controller, frame, answer);
}

/// A core has a wake-up event, after it stopped in its start of number `halted` (0 where it was not
/// started in this life): it is started, unless it was started since or can't be once more.
#[unsafe(no_mangle)]
pub extern "C" fn psci_ctl_wake(
    place: &mut ControllerPlace,
    core: u16,
    halted: u32,
    answer: &mut ControllerAnswer,
)
    ensures { IsKicked place.old.slot.kept core (Wake (record { number = core }) halted) answer.new
        place.new.slot.kept }
{
    let controller = lent!(place.controller else refuse(answer, NO_FIRMWARE));
    match controller.board().core(core) {
        Some(core) => wake(controller, core, halted, answer),
        None => refuse(answer, refusal(FwFault::NoCore)),
    }
}

/// A core is reset by itself: it is started, unless it can't be once more.
#[unsafe(no_mangle)]
pub extern "C" fn psci_ctl_reset(
    place: &mut ControllerPlace,
    core: u16,
    answer: &mut ControllerAnswer,
)
    ensures { IsKicked place.old.slot.kept core (Reset (record { number = core })) answer.new
        place.new.slot.kept }
{
    let controller = lent!(place.controller else refuse(answer, NO_FIRMWARE));
    match controller.board().core(core) {
        Some(core) => reset(controller, core, answer),
        None => refuse(answer, refusal(FwFault::NoCore)),
    }
}

/// Delivers the message whose frame these bytes are. What comes of it is written where it stays, so
/// that a call takes little stack.
pub fn give(controller: &mut Controller, bytes: &[u8], answer: &mut ControllerAnswer)
    ensures fault { IsFaulty controller.old bytes.now answer.new controller.new }
    ensures ack { (a : AckValue)
        → IsMisplaced a controller.old bytes.now answer.new controller.new }
    ensures message { (m : MessageValue)
        → IsDelivered m controller.old bytes.now answer.new controller.new }
{
    match heading_on(bytes, controller.board()) {
        Err(fault) => refuse(answer, frame_code(fault)),
        Ok(Heading::Ack(..)) => refuse(answer, NOT_A_MESSAGE),
        Ok(Heading::Message(kind)) => {
            let message = message_in(kind, bytes);
            deliver(controller, &message, answer);
        }
    }
}

/// `Controller::deliver`. It has a frame of its own, so that none is held while a frame is read.
#[inline(never)]
#[tactic(auto, using(crate::proofs::Making::of_board), unfolding(crate::proofs::Making::act))]
fn deliver(controller: &mut Controller, message: &Message, answer: &mut ControllerAnswer)
    requires { IsOf controller.old.board (frames.Message message.now) }
    ensures { IsMade controller.old (calls.Deliver message.now) answer.new controller.new }
{
    prove!(message.core.number < 256);
    match controller.deliver(message) {
        Delivery::Ignored => refuse(answer, NOTHING),
        Delivery::Applied(ack) => write_applied(answer, controller, message, &ack),
    }
}

/// A core has a wake-up event: `Controller::wake`.
#[tactic(auto, unfolding(psci_ctl_spec::specs::Replies::effect_of))]
pub fn wake(controller: &mut Controller, core: Core, halted: u32, answer: &mut ControllerAnswer)
    requires { core.number < cores controller.old.board }
    ensures { IsMade controller.old (calls.Wake core halted) answer.new controller.new }
{
    let kick = controller.wake(core, halted);
    write_kick(answer, controller, core, kick);
}

/// A core is reset by itself: `Controller::reset`.
#[tactic(auto, unfolding(psci_ctl_spec::specs::Replies::effect_of))]
pub fn reset(controller: &mut Controller, core: Core, answer: &mut ControllerAnswer)
    requires { core.number < cores controller.old.board }
    ensures { IsMade controller.old (calls.Reset core) answer.new controller.new }
{
    let kick = controller.reset(core);
    write_kick(answer, controller, core, kick);
}

/// Writes what a wake-up or a reset of a core comes down to.
fn write_kick(answer: &mut ControllerAnswer, controller: &Controller, core: Core, kick: Kick)
    requires { core.number < cores controller.now.board }
    ensures { (cause : Cause) → answer.new ≡ effect_shown controller.now.board (seen controller.now)
        (kick_effect core.number cause kick) no_frame }
{
    answer.ack = no_frame();
    match kick {
        Kick::Ignored => write_plain(answer, NOTHING),
        Kick::Started(_) => write_started(answer, START, controller, core),
    }
}

/// Writes what an acknowledged message comes down to.
#[tactic(auto, using(crate::proofs::Making::within_take))]
fn write_applied(
    answer: &mut ControllerAnswer,
    controller: &Controller,
    message: &Message,
    ack: &Ack,
)
    requires { IsOf controller.now.board (frames.Message message.now) }
    ensures { answer.new ≡ effect_shown controller.now.board (seen controller.now)
        (message_effect controller.now.board message.now ack.now message.now.kind)
        (ack_frame ack.now) }
{
    write_ack(&mut answer.ack, ack);
    match message.kind {
        Kind::Down => {
            let parts = first_of(message.parts.as_slice(), ack.applied);
            write_switched(answer, controller.board(), message.core, parts);
        }
        Kind::Start if ack.applied == 0 => write_plain(answer, NOTHING),
        Kind::Start => write_started(answer, START, controller, message.core),
        Kind::Reset if message.life < controller.board().life_limit() => {
            write_started(answer, RESTART, controller, Core { number: 0 });
        }
        Kind::Off | Kind::Reset => write_plain(answer, OFF),
    }
}

/// The first of some parts, so many where there are as many, where they stand.
fn first_of(parts: &[Part], many: u8) -> &[Part]
    ensures { result.now ≡ take many parts.now }
{
    &parts[..(many as usize).min(parts.len())]
}

/// Writes that the domains of these parts are switched.
fn write_switched(answer: &mut ControllerAnswer, board: &Board, core: Core, parts: &[Part])
    requires core { core.number < cores board.now }
    requires few { length parts.now ≤ 4 }
    requires levels { is_within (height board.now) parts.now ≡ true }
    ensures { answer.new ≡ switched board.now core.number parts.now answer.old.ack }
{
    let path = board.path(core);
    let on_path = path.as_slice();
    answer.what = SWITCH;
    answer.start = NO_START;
    answer.many = parts.len() as u32;
    answer.domains = [
        domain_of(board, core, on_path, parts, 0),
        domain_of(board, core, on_path, parts, 1),
        domain_of(board, core, on_path, parts, 2),
        domain_of(board, core, on_path, parts, 3),
    ];
}

/// The domain of the part of this number on the path of a core, with its depth, if there is such a
/// part.
#[tactic(auto, using(crate::proofs::Making::within_at))]
fn domain_of(
    board: &Board,
    core: Core,
    on_path: &[Node],
    parts: &[Part],
    number: usize,
) -> DomainDepth
    requires core { core.number < cores board.now }
    requires path { on_path.now ≡ path board.now core.number }
    requires levels { is_within (height board.now) parts.now ≡ true }
    ensures { result ≡ domain_shown board.now core.number (slice_get parts.now number) }
{
    let Some(part) = parts.get(number) else {
        return NO_DOMAIN;
    };
    DomainDepth {
        level: part.level,
        index: domain_on_path(board, core, on_path, part.level).place,
        depth: part.depth,
    }
}

/// The domain of a core at this level, of those on its path.
fn domain_on_path(board: &Board, core: Core, on_path: &[Node], level: u32) -> Node
    requires core { core.number < cores board.now }
    requires path { on_path.now ≡ path board.now core.number }
    requires level { level ≤ height board.now }
    ensures { result ≡ domain_of board.now core.number level }
{
    law_paths();
    let height = board.height();
    prove!(level <= height);
    let _core = core;
    on_path[level as usize]
}
