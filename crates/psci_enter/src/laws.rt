//! What the firmware's side of a port keeps: each law is the contract of a function that does
//! nothing.

ghost use Rattle.std.specs.Prelude.{◌<◌, ◌∷◌, ◌≡◌, ◌⊎◌, Bool, false, length, List, None, Some};
ghost use Rattle.std.specs.Prelude.{true, ℕ};
ghost use Rattle.psci_abi.specs.Calls.{request_of};
ghost use Rattle.psci_abi.specs.declared.registers.Regs.{Regs};
ghost use Rattle.psci_board.specs.Board.{BoardValue, IsBoard, cores};
ghost use Rattle.psci_board.specs.declared.draft.Core.{Core};
ghost use Rattle.psci_ctl_spec.specs.Replies.{effect_of, last_start, reply};
ghost use Rattle.psci_ctl_spec.specs.declared.call.CtlCall.TheVariants as asked;
ghost use Rattle.psci_enter.specs.Again.{outstanding_in};
ghost use Rattle.psci_enter.specs.Orders.{is_suspending};
ghost use Rattle.psci_enter.specs.Side.{at, found, fresh, heard, IsAsked, looked, may_look};
ghost use Rattle.psci_enter.specs.Side.{replied, reply_in};
ghost use Rattle.psci_enter.specs.SideOf.{core_of, is_apart, is_end, is_quiet, is_started, IsAnew};
ghost use Rattle.psci_enter.specs.SideOf.{IsDoor, IsFirmwareOf, IsRightly, IsSideOf};
ghost use Rattle.psci_enter.specs.declared.order.Look.TheVariants as look;
ghost use Rattle.psci_enter.specs.declared.post.Door.{Door};
ghost use Rattle.psci_enter.specs.declared.post.Post.TheVariants.{Armed, Entering, Leaving};
ghost use Rattle.psci_enter.specs.declared.post.Post.TheVariants.{Running, Waiting, Woken};
ghost use Rattle.psci_enter.specs.declared.side.FirmwareSide.{FirmwareSide};
ghost use Rattle.psci_fw.specs.Reactions.{FirmwareValue, seen};
ghost use Rattle.psci_fw_spec.specs.Changes.{start_of_life};
ghost use Rattle.psci_fw_spec.specs.declared.call.FwCall.TheVariants as calls;
ghost use Rattle.psci_fw_spec.specs.declared.fault.FwFault.{FwFault};
ghost use Rattle.psci_fw_spec.specs.declared.reply.FwReply.TheVariants as replies;
ghost use Rattle.psci_messages.specs.Message.{AckValue, MessageValue};
ghost use Rattle.psci_messages.specs.declared.start.Start.{Start};
ghost use Rattle.psci_port.specs.Port.{Act, Arms, Calls, cold, Delivers, Enters, Finishes, Port};
ghost use Rattle.psci_port.specs.Port.{Reboots, Resets, Restarts, Rises, Rouses, Sleeps, stage_at};
ghost use Rattle.psci_port.specs.Port.{Stands, state, Takes, TakesUp, Turns, Wakes, words};
ghost use Rattle.psci_port.specs.Rules.{AreTrue, HasLock, IsPortRun, IsTrue, LacksLock, May};
ghost use Rattle.psci_port.specs.Stages as stages;
ghost use Rattle.psci_port.specs.Waiting.{waits};
ghost use Rattle.psci_world_spec.specs.Legal.{acks, indexed, said_of, sent};
ghost use Rattle.psci_world_spec.specs.declared.event.Event.TheVariants as events;
ghost use Rattle.psci_world_spec.specs.declared.said.Record.{Record};

use psci_board::law_sizes;
use psci_ctl_spec::law_values;
use psci_fw_laws::law_new_life;
use psci_headline::{law_agreement, law_never_refused, law_sent};
use psci_port::law_port;

/// What a core's monitor asks of the firmware keeps the rules of a port and is true, whether the
/// firmware was kept over a reset or made anew; and it is never refused. So what holds of each true
/// run of a port (`law_port`) holds with this side. Others may act between the two steps of a call.
pub fn law_firmware()
    ensures calls { (b : BoardValue) (acts : List Act) (f : FirmwareValue) (s : FirmwareSide)
        (regs : Regs) → IsPortRun b acts → IsFirmwareOf b f (state b acts)
        → IsSideOf b s (state b acts) → s.post ≡ Running → HasLock (state b acts) (core_of s)
        → IsRightly b acts s (Calls (core_of s) regs (said_of (length (sent (state b acts).past))
        (reply_in f (core_of s) (calls.Smc regs)))) }
    ensures enters { (b : BoardValue) (acts : List Act) (f : FirmwareValue) (s : FirmwareSide)
        (start : Start) → IsPortRun b acts → IsFirmwareOf b f (state b acts)
        → IsSideOf b s (state b acts) → s.post ≡ Entering start
        → HasLock (state b acts) (core_of s)
        → IsRightly b acts s (Enters (core_of s) (said_of (length (sent (state b acts).past))
        (reply_in f (core_of s) (calls.Enter start)))) }
    ensures takes { (b : BoardValue) (acts : List Act) (f : FirmwareValue) (s : FirmwareSide)
        (k : ℕ) (a : AckValue) → IsFirmwareOf b f (state b acts)
        → (IsAnew b f (state b acts) → ⊥) → IsSideOf b s (state b acts)
        → HasLock (state b acts) (core_of s) → indexed (acks (state b acts).past) k ≡ Some a
        → IsRightly b acts s (Takes (core_of s) k (said_of (length (sent (state b acts).past))
        (reply_in f (core_of s) (calls.Take a)))) }
    ensures called { (b : BoardValue) (acts : List Act) (f g : FirmwareValue) (s : FirmwareSide)
        (regs : Regs) (r : Record) → IsBoard b → IsPortRun b acts → AreTrue b acts
        → IsFirmwareOf b f (state b acts) → IsSideOf b s (state b acts)
        → ((state b acts).row (core_of s)).begun ≡ Some r
        → r.event ≡ events.Call (core_of s) regs → IsAsked (core_of s) (calls.Smc regs) f g
        → IsFirmwareOf b g (state b (Finishes (core_of s) ∷ acts))
        × IsRightly b acts (replied (is_suspending (request_of regs))
        (reply_in f (core_of s) (calls.Smc regs)) s) (Finishes (core_of s)) }
    ensures entered { (b : BoardValue) (acts : List Act) (f g : FirmwareValue) (s : FirmwareSide)
        (start : Start) (r : Record) → IsBoard b → IsPortRun b acts → AreTrue b acts
        → IsFirmwareOf b f (state b acts) → IsSideOf b s (state b acts) → s.post ≡ Entering start
        → ((state b acts).row (core_of s)).begun ≡ Some r → r.event ≡ events.Enter (core_of s)
        → IsAsked (core_of s) (calls.Enter start) f g
        → IsFirmwareOf b g (state b (Finishes (core_of s) ∷ acts))
        × IsRightly b acts (replied false (reply_in f (core_of s) (calls.Enter start)) s)
        (Finishes (core_of s)) }
    ensures taken { (b : BoardValue) (acts : List Act) (f g : FirmwareValue) (s : FirmwareSide)
        (k : ℕ) (a : AckValue) (r : Record) → IsBoard b → IsPortRun b acts → AreTrue b acts
        → IsFirmwareOf b f (state b acts) → (IsAnew b f (state b acts) → ⊥)
        → IsSideOf b s (state b acts) → ((state b acts).row (core_of s)).begun ≡ Some r
        → r.event ≡ events.Take k → indexed (acks (state b acts).past) k ≡ Some a
        → IsAsked (core_of s) (calls.Take a) f g
        → IsFirmwareOf b g (state b (Finishes (core_of s) ∷ acts))
        × IsRightly b acts s (Finishes (core_of s)) }
    // A firmware that was made anew takes no acknowledgement, as if that had been lost.
    ensures lost { (b : BoardValue) (p : Port) (f g : FirmwareValue) (c : ℕ) (a : AckValue)
        → f.board ≡ b → IsAnew b f p → IsAsked c (calls.Take a) f g → IsFirmwareOf b g p }
    // What is sent once more was sent: the mailbox invents nothing by it.
    ensures again { (b : BoardValue) (acts : List Act) (f : FirmwareValue) (number : ℕ)
        (m : MessageValue) → IsBoard b → IsPortRun b acts → AreTrue b acts
        → IsFirmwareOf b f (state b acts) → outstanding_in f number ≡ Some m
        → (k : ℕ) × IsTrue b (state b acts) (Delivers k m) }
    // So each act makes the run longer.
    ensures runs { (b : BoardValue) (acts : List Act) (s : FirmwareSide) (act : Act)
        → IsPortRun b acts → AreTrue b acts → IsRightly b acts s act
        → IsPortRun b (act ∷ acts) × AreTrue b (act ∷ acts) }
    ensures never_refused { (b : BoardValue) (acts : List Act) (f : FirmwareValue)
        (s : FirmwareSide) (fault : FwFault) → IsBoard b → IsPortRun b acts → AreTrue b acts
        → IsFirmwareOf b f (state b acts) → IsSideOf b s (state b acts)
        → ((regs : Regs) → s.post ≡ Running
        → reply_in f (core_of s) (calls.Smc regs) ≡ replies.Fault fault → ⊥)
        × ((start : Start) → s.post ≡ Entering start
        → reply_in f (core_of s) (calls.Enter start) ≡ replies.Fault fault → ⊥) }
{
    law_values();
    psci_fw_spec::law_values();
    law_sizes();
    law_new_life();
    law_never_refused();
    law_sent();
}

/// What a core's monitor does without the firmware keeps the rules of a port: it takes up each
/// start at most once, and only its last one; it stands without the lock; and no wake-up is lost
/// between its last look and its WFI.
pub fn law_stands()
    ensures takes_up { (b : BoardValue) (acts : List Act) (s : FirmwareSide) (door : Door)
        (pending : Bool) → IsPortRun b acts → IsSideOf b s (state b acts)
        → IsDoor (state b acts) (core_of s) door → ((state b acts).row (core_of s)).held ≡ false
        → may_look s.post ≡ true → (s.post ≡ Armed → LacksLock (state b acts) (core_of s))
        → found s door pending ≡ look.Enter
        → IsRightly b acts (looked look.Enter door s) (TakesUp (core_of s))
        × (door.start ≡ last_start (state b acts).values (core_of s))
        × (door.opened ≡ (state b acts).values.starts (core_of s)) × (s.used < door.opened) }
    // A core that takes up nothing is started already, and its door to be opened yet, or it stands
    // by its word and its wake-up may be carried out at once.
    ensures rests { (b : BoardValue) (acts : List Act) (s : FirmwareSide) → IsPortRun b acts
        → IsSideOf b s (state b acts) → s.post ≡ Waiting
        → (stage_at (state b acts) (core_of s) ≡ stages.AtDoor)
        ⊎ ((s.used ≡ (state b acts).values.starts (core_of s))
        × May b (state b acts) (Wakes (core_of s))) }
    ensures armed { (b : BoardValue) (acts : List Act) (s : FirmwareSide) → IsPortRun b acts
        → IsSideOf b s (state b acts) → s.post ≡ Armed
        → (stage_at (state b acts) (core_of s) ≡ stages.Woken)
        ⊎ ((s.used ≡ (state b acts).values.starts (core_of s))
        × (HasLock (state b acts) (core_of s) → May b (state b acts) (Rises (core_of s)))) }
    // It holds no lock where it looks at its door, unless it is armed.
    ensures free { (b : BoardValue) (acts : List Act) (s : FirmwareSide) → IsPortRun b acts
        → IsSideOf b s (state b acts) → s.post ≡ Waiting → LacksLock (state b acts) (core_of s) }
    ensures stands { (b : BoardValue) (acts : List Act) (s : FirmwareSide)
        → IsSideOf b s (state b acts) → s.post ≡ Leaving → LacksLock (state b acts) (core_of s)
        → IsRightly b acts (at Waiting s) (Stands (core_of s)) }
    ensures arms { (b : BoardValue) (acts : List Act) (s : FirmwareSide)
        → IsSideOf b s (state b acts) → s.post ≡ Leaving
        → ((state b acts).row (core_of s)).begun ≡ None
        → IsRightly b acts (at Armed s) (Arms (core_of s)) }
    ensures sleeps { (b : BoardValue) (acts : List Act) (s : FirmwareSide)
        → IsSideOf b s (state b acts) → s.post ≡ Armed
        → (stage_at (state b acts) (core_of s) ≡ stages.Woken → LacksLock (state b acts) (core_of s)
        → IsRightly b acts (at Waiting s) (Turns (core_of s)))
        × (stage_at (state b acts) (core_of s) ≡ stages.Armed → LacksLock (state b acts) (core_of s)
        → IsRightly b acts (at Waiting s) (Sleeps (core_of s))) }
    ensures rouses { (b : BoardValue) (acts : List Act) (s : FirmwareSide)
        → IsSideOf b s (state b acts) → s.post ≡ Waiting
        → IsRightly b acts (at Armed s) (Rouses (core_of s)) }
    // One that was started by others hears of no wake-up, which waits: it is armed as before.
    ensures hears { (b : BoardValue) (acts : List Act) (s : FirmwareSide) → IsPortRun b acts
        → IsSideOf b s (state b acts) → s.post ≡ Armed
        → stage_at (state b acts) (core_of s) ≡ stages.Woken
        → let call = asked.Wake s.core (words (state b acts) (core_of s)) in
        (waits b (state b acts).values (words (state b acts)) call ≡ true)
        × IsSideOf b (at (heard false) s) (state b acts) }
    ensures rises { (b : BoardValue) (acts : List Act) (s : FirmwareSide)
        → IsSideOf b s (state b acts) → s.post ≡ Armed
        → stage_at (state b acts) (core_of s) ≡ stages.Armed → HasLock (state b acts) (core_of s)
        → let call = asked.Wake s.core (words (state b acts) (core_of s)) in
        IsRightly b acts (at (heard (is_started (reply b (state b acts).values call))) s)
        (Rises (core_of s)) }
    ensures turns { (b : BoardValue) (acts : List Act) (s : FirmwareSide)
        → IsSideOf b s (state b acts) → s.post ≡ Woken → LacksLock (state b acts) (core_of s)
        → IsRightly b acts (at Waiting s) (Turns (core_of s)) }
{}

/// What others do leaves a core's side as it is, or starts its core; and once a life ends, each
/// side is a new one, and the firmware is kept or made anew.
pub fn law_others()
    ensures begins { (b : BoardValue) (before : List (List Record)) (core : Core)
        → core.number < cores b → IsSideOf b (fresh core) (cold b before) }
    ensures opens { (b : BoardValue) (before : List (List Record)) (f : FirmwareValue)
        → f.board ≡ b → seen f ≡ start_of_life b 0 → IsFirmwareOf b f (cold b before) }
    ensures apart { (b : BoardValue) (acts : List Act) (s : FirmwareSide) (act : Act)
        → IsPortRun b acts → IsSideOf b s (state b acts) → May b (state b acts) act
        → is_apart (core_of s) act ≡ true → IsSideOf b s (state b (act ∷ acts)) }
    ensures quiet { (b : BoardValue) (acts : List Act) (f : FirmwareValue) (act : Act)
        → IsPortRun b acts → IsFirmwareOf b f (state b acts) → May b (state b acts) act
        → is_quiet act ≡ true → IsFirmwareOf b f (state b (act ∷ acts)) }
    ensures resets { (b : BoardValue) (acts : List Act) (s : FirmwareSide)
        → IsPortRun b acts → IsSideOf b s (state b acts)
        → May b (state b acts) (Resets (core_of s))
        → IsSideOf b (at Waiting s) (state b (Resets (core_of s) ∷ acts))
        ⊎ IsSideOf b s (state b (Resets (core_of s) ∷ acts)) }
    ensures delivers { (b : BoardValue) (acts : List Act) (s : FirmwareSide) (f : FirmwareValue)
        (k : ℕ) (m : MessageValue) → IsPortRun b acts → May b (state b acts) (Delivers k m)
        → is_end (effect_of b (asked.Deliver m)
        (reply b (state b acts).values (asked.Deliver m))) ≡ false
        → (IsSideOf b s (state b acts) → IsSideOf b s (state b (Delivers k m ∷ acts)))
        × (IsFirmwareOf b f (state b acts) → IsFirmwareOf b f (state b (Delivers k m ∷ acts))) }
    ensures ends { (b : BoardValue) (acts : List Act) (core : Core) (k : ℕ) (m : MessageValue)
        → core.number < cores b
        → is_end (effect_of b (asked.Deliver m)
        (reply b (state b acts).values (asked.Deliver m))) ≡ true
        → IsSideOf b (fresh core) (state b (Delivers k m ∷ acts)) }
    ensures restarts { (b : BoardValue) (acts : List Act) (core : Core) → core.number < cores b
        → IsSideOf b (fresh core) (state b (Restarts ∷ acts))
        × IsSideOf b (fresh core) (state b (Reboots ∷ acts)) }
    // A firmware that is made anew as a life ends is the firmware of the next one.
    ensures anew { (b : BoardValue) (acts : List Act) (f : FirmwareValue) → IsBoard b
        → IsPortRun b acts → AreTrue b acts → f.board ≡ b → seen f ≡ start_of_life b 0
        → ((k : ℕ) (m : MessageValue) → May b (state b acts) (Delivers k m)
        → indexed (sent (state b acts).past) k ≡ Some m
        → is_end (effect_of b (asked.Deliver m)
        (reply b (state b acts).values (asked.Deliver m))) ≡ true
        → IsFirmwareOf b f (state b (Delivers k m ∷ acts)))
        × IsFirmwareOf b f (state b (Restarts ∷ acts))
        × (May b (state b acts) Reboots → IsFirmwareOf b f (state b (Reboots ∷ acts))) }
{
    law_values();
    psci_fw_spec::law_values();
    law_sizes();
    law_agreement();
    law_port();
}
