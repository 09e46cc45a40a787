//! How a call ends.

ghost use Rattle.std.specs.Prelude.{◌≡◌};
ghost use Rattle.psci_fw_spec.specs.PowerCalls.{returns, stops, stops_with};

use psci_abi::Code;
use psci_messages::Message;

/// What the calling core does next.
#[derive(Clone, Copy, Debug, PartialEq)]
pub enum Act {
    /// It goes on after its call, with this return code.
    Return(Code),
    /// It executes nothing more in this start.
    Stop,
    /// It executes from this entry point on.
    Enter {
        /// The entry point: the address of the first instruction.
        address: u64,
        /// The context id, which the core finds in x0.
        context: u64,
    },
    /// It goes on after the CPU_SUSPEND that it stopped in, which answers SUCCESS.
    Resume,
}

/// What the firmware answers to a call that it does not refuse.
#[derive(Drop, Debug, PartialEq)]
pub struct Outcome {
    /// What the calling core does next.
    pub act: Act,
    /// What the firmware sends to the power controller, if it sends something.
    pub message: Option<Message>,
}

impl Outcome {
    /// The caller goes on with this code, and nothing is sent.
    pub fn returns(code: Code) -> Outcome
        ensures { result ≡ returns code }
    {
        Outcome {
            act: Act::Return(code),
            message: None,
        }
    }

    /// The core stops, and nothing is sent.
    pub fn stops() -> Outcome
        ensures { result ≡ stops }
    {
        Outcome {
            act: Act::Stop,
            message: None,
        }
    }

    /// The core stops, and this is sent.
    pub fn stops_with(message: Message) -> Outcome
        ensures { result ≡ stops_with message }
    {
        Outcome {
            act: Act::Stop,
            message: Some(message),
        }
    }

    /// An equal value, without memory.
    pub fn copy(&self) -> Outcome
        ensures { result ≡ self.now }
    {
        Outcome {
            act: self.act,
            message: self.message.as_ref().map(Message::copy),
        }
    }
}
