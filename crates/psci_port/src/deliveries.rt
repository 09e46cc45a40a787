//! What a delivery leaves to be done: the law is the contract of a function that does nothing.

ghost use Rattle.std.specs.Prelude.{◌≡◌, ℕ, List, Some};
ghost use Rattle.psci_board.specs.Board.{BoardValue, IsBoard};
ghost use Rattle.psci_ctl_spec.specs.psci_messages.Message.{MessageValue};
ghost use Rattle.psci_ctl_spec.specs.psci_messages.Slots.{Slot};
ghost use Rattle.psci_port.specs.Port.{Act, state};
ghost use Rattle.psci_port.specs.Rules.{AreTrue, IsPortRun};
ghost use Rattle.psci_port.specs.Undone.{IsListed, LeavesLess};
ghost use Rattle.psci_world_spec.specs.Legal.{firmware_values, indexed, sent};

/// A delivery that brings something about ends its message, or leaves fewer of its parts to be
/// carried out; and it leaves no more of any other message of its life. So a Down of so many parts
/// brings something about at most once for each part, and once more as it ends. What is outstanding
/// was sent, and stands in the slot of its kind and core.
pub fn law_undone()
    ensures leaves { (b : BoardValue) (acts : List Act) (k : ℕ) (m : MessageValue) → IsBoard b
        → IsPortRun b acts → AreTrue b acts → indexed (sent (state b acts).past) k ≡ Some m
        → LeavesLess b (state b acts).values (sent (state b acts).past) m }
    ensures listed { (b : BoardValue) (acts : List Act) (slot : Slot) (m : MessageValue)
        → IsBoard b → IsPortRun b acts → AreTrue b acts
        → (firmware_values b (state b acts).past).outstanding slot ≡ Some m
        → IsListed b (sent (state b acts).past) slot m }
{}
