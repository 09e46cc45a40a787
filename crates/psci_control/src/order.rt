//! What the power controller's side of a port orders.

use psci_board::Core;
use psci_ctl::{Ack, Parts};
use std::marker::Model;

/// How a life ends.
#[derive(Clone, Copy, Debug, PartialEq, Eq)]
pub enum Ending {
    /// The system goes off.
    Off,
    /// All is reset, and the next life begins.
    Restart,
}

/// One thing to do.
#[derive(Debug, PartialEq, Eq, Drop)]
pub enum Order {
    /// The power of the domain at this level of this core's path goes to this depth, which is
    /// counted as the power controller does: 3 is powered down.
    Switch(Core, u32, u8),
    /// Each domain on this core's path has its power.
    Raise(Core),
    /// This goes back to the firmware.
    Acknowledge(Ack),
    /// The life ends.
    End(Ending),
}

/// What one call orders, to be done in its order: power is switched before anything is
/// acknowledged.
#[derive(Drop)]
pub struct Orders {
    pub(crate) core: Core,
    /// The domains of the core's path that go down.
    pub(crate) parts: Parts,
    /// How many of them were handed out.
    pub(crate) given: usize,
    pub(crate) raises: bool,
    pub(crate) ack: Option<Ack>,
    pub(crate) ending: Option<Ending>,
}

impl Model for Orders {
    ghost use Rattle.std.specs.Prelude.{List};
    ghost use Rattle.psci_control.specs.declared.order.Order.{Order};
    ghost use Rattle.psci_control.specs.Orders.{left_of};

    ghost Value = { List Order };

    ghost view = { λ o. left_of o.core o.parts o.given o.raises o.ack o.ending };
}

ghost use Rattle.std.specs.Prelude.{◌≡◌, [], drop, slice_get};
ghost use Rattle.psci_control.specs.Orders.{left_of};

impl Orders {
    /// The first parts of a Down take effect on the path of its core, or this path gets its power
    /// back; then the acknowledgement goes back, and the life ends.
    pub(crate) fn of(
        core: Core,
        parts: Parts,
        raises: bool,
        ack: Option<Ack>,
        ending: Option<Ending>,
    ) -> Orders
        ensures { result ≡ left_of core parts 0 raises ack ending }
    {
        Orders {
            core,
            parts,
            given: 0,
            raises,
            ack,
            ending,
        }
    }

    /// Nothing is to be done.
    pub(crate) fn none(core: Core) -> Orders
        ensures { result ≡ [] }
    {
        Orders::of(core, Parts::new(), false, None, None)
    }

    /// The next one, if one is left.
    pub fn next(&mut self) -> Option<Order>
        ensures first { result ≡ slice_get self.old 0 }
        ensures rest { self.new ≡ drop 1 self.old }
    {
        if let Some(part) = self.parts.as_slice().get(self.given) {
            let order = Order::Switch(self.core, part.level, part.depth);
            self.given += 1;
            return Some(order);
        }
        if self.raises {
            self.raises = false;
            return Some(Order::Raise(self.core));
        }
        if let Some(ack) = self.ack.take() {
            return Some(Order::Acknowledge(ack));
        }
        let ending = self.ending.take()?;
        Some(Order::End(ending))
    }
}
