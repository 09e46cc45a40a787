//! A call of the power controller, as a history records it.

ghost use Rattle.std.specs.Prelude.{◌≡◌};

use psci_board::Core;
use psci_messages::Message;

/// What is asked of the power controller.
#[derive(Drop)]
pub enum CtlCall {
    /// A message of the firmware arrives.
    Deliver(Message),
    /// A core has a wake-up event. The number is that of the start in which it stopped, 0 if it was
    /// not started in this life.
    Wake(Core, u32),
    /// A core is reset by itself.
    Reset(Core),
}

impl CtlCall {
    /// An equal value, without memory.
    pub fn copy(&self) -> CtlCall
        ensures { result ≡ self.now }
    {
        match self {
            CtlCall::Deliver(message) => CtlCall::Deliver(message.copy()),
            CtlCall::Wake(core, halted) => CtlCall::Wake(*core, *halted),
            CtlCall::Reset(core) => CtlCall::Reset(*core),
        }
    }
}
