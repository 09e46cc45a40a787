//! What the two sides of a port keep: each law is the contract of a function that does nothing.

ghost use Rattle.std.specs.Prelude.{◌≡◌, ◌<◌, ◌≤◌, ℕ, ◌∷◌, false, true, List, None, Some};
ghost use Rattle.psci_board.specs.Board.{BoardValue, IsBoard, cores};
ghost use Rattle.psci_control.specs.ControlSide.{ControlValue, door_due, gate_in, heard, IsAsked};
ghost use Rattle.psci_control.specs.ControlSide.{IsControlSide, ordered, telling, values_of};
ghost use Rattle.psci_control.specs.ControlSide.{waits_in, with_gate};
ghost use Rattle.psci_control.specs.Orders.{ending_of, orders_of};
ghost use Rattle.psci_control.specs.Powered.{powered};
ghost use Rattle.psci_control.specs.SideOf.{ArmedLacks, IsNew, IsRightly, IsSideOf, is_apart};
ghost use Rattle.psci_control.specs.declared.door.DoorOrder.TheVariants as orders;
ghost use Rattle.psci_ctl_spec.specs.Replies.{change, effect_of, reply};
ghost use Rattle.psci_ctl_spec.specs.History.{IsCall, IsSendable};
ghost use Rattle.psci_ctl_spec.specs.Values.{Values};
ghost use Rattle.psci_ctl_spec.specs.declared.call.CtlCall.{CtlCall};
ghost use Rattle.psci_ctl_spec.specs.declared.call.CtlCall.TheVariants as calls;
ghost use Rattle.psci_messages.specs.Message.{MessageValue};
ghost use Rattle.psci_messages.specs.declared.kind.Kind.TheVariants as kinds;
ghost use Rattle.psci_messages.specs.declared.start.Start.{Start};
ghost use Rattle.psci_port.specs.Port.{Act, cold, Delivers, Opens, Port, Resets, Rises, state};
ghost use Rattle.psci_port.specs.Port.{step, Wakes, words, Writes};
ghost use Rattle.psci_port.specs.Rules.{IsPortRun, LacksLock, May};
ghost use Rattle.psci_world_spec.specs.declared.said.Record.{Record};

use psci_ctl_spec::law_replies;

/// What the power controller's side does keeps the rules of a port, and the side has after it what
/// it has of the port: so the rules hold of all that it decides. What is left to the machine stands
/// as a premise: that an armed core which is started by another has not the lock (`ArmedLacks`),
/// that a core which is reset by itself has it not, and that an armed core hears its own wake-up
/// with the lock in hand.
pub fn law_control()
    ensures begins { (b : BoardValue) (s : ControlValue) (before : List (List Record))
        → IsNew b s → IsSideOf b s (cold b before) }
    ensures delivers { (b : BoardValue) (acts : List Act) (s t : ControlValue) (k : ℕ)
        (m : MessageValue) → IsPortRun b acts → IsSideOf b s (state b acts)
        → IsSendable b m → waits_in s (calls.Deliver m) ≡ false
        → (m.kind ≡ kinds.Start → ArmedLacks (state b acts) m.core.number)
        → IsAsked (calls.Deliver m) s t → IsRightly b t (state b acts) (Delivers k m) }
    ensures wakes { (b : BoardValue) (acts : List Act) (s t : ControlValue) (c : ℕ)
        → IsPortRun b acts → IsSideOf b s (state b acts) → c < cores b
        → waits_in s (calls.Wake (record { number = c }) (heard s c)) ≡ false
        → IsAsked (calls.Wake (record { number = c }) (heard s c)) s t
        → (ArmedLacks (state b acts) c → IsRightly b t (state b acts) (Wakes c))
        × (May b (state b acts) (Rises c) → IsRightly b t (state b acts) (Rises c)) }
    ensures resets { (b : BoardValue) (acts : List Act) (s t : ControlValue) (c : ℕ)
        → IsSideOf b s (state b acts) → c < cores b → LacksLock (state b acts) c
        → IsAsked (calls.Reset (record { number = c })) s t
        → IsRightly b t (state b acts) (Resets c) }
    ensures writes { (b : BoardValue) (p : Port) (s : ControlValue) (c : ℕ) (start : Start)
        → IsControlSide s → IsSideOf b s p → c < cores b
        → door_due (values_of s) c (gate_in s.gates c) ≡ Some (orders.Write start)
        → IsRightly b (with_gate s c (ordered (Some (orders.Write start)) (gate_in s.gates c))) p
        (Writes c) }
    ensures opens { (b : BoardValue) (p : Port) (s : ControlValue) (c number : ℕ)
        → IsControlSide s → IsSideOf b s p → c < cores b
        → door_due (values_of s) c (gate_in s.gates c) ≡ Some (orders.Open number)
        → IsRightly b (with_gate s c (ordered (Some (orders.Open number)) (gate_in s.gates c))) p
        (Opens c) }
    ensures hears { (b : BoardValue) (p : Port) (s : ControlValue) (c word : ℕ)
        → IsControlSide s → IsSideOf b s p → c < cores b → word ≤ words p c
        → IsSideOf b (with_gate s c (telling word (gate_in s.gates c))) p }
    ensures apart { (b : BoardValue) (acts : List Act) (s : ControlValue) (act : Act)
        → IsPortRun b acts → IsSideOf b s (state b acts) → is_apart act ≡ true
        → IsSideOf b s (state b (act ∷ acts)) }
    ensures powers { (b : BoardValue) (v : Values) (call : CtlCall) (level place : ℕ)
        → IsBoard b → IsCall b call → ending_of (effect_of b call (reply b v call)) ≡ None
        → powered b (orders_of (effect_of b call (reply b v call)) (reply b v call)) v.depth level
        place ≡ (change b (effect_of b call (reply b v call)) v).depth level place }
{
    law_replies();
}
