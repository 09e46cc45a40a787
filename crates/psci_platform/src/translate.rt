//! The call of the firmware for a call of a platform.

ghost use Rattle.std.specs.Prelude.{◌≡◌, if◌then◌else◌};
ghost use Rattle.psci_abi.specs.Calls.{function_of};
ghost use Rattle.psci_platform.specs.declared.asked.Asked.TheVariants as asks;
ghost use Rattle.psci_platform.specs.Arguments.{regs_by, told_by};
ghost use Rattle.psci_platform.specs.Calls.{asked_for, asks_states, feature_word, is_vendors};
ghost use Rattle.psci_platform.specs.Calls.{no_function, regs_for, reset_word};

use crate::argument::Argument;
use crate::asked::Asked;
use crate::class::LEVELS;
use crate::description::Description;
use crate::platform::Platform;
use psci_abi::{Regs, Request, low, read};
use psci_fw_spec::SuspendMode;

/// A function word that no function has.
const NO_FUNCTION: u32 = 0;

/// A call as the firmware is asked, and what the platform is asked beside it.
#[derive(Clone, Copy, Debug, PartialEq, Eq)]
pub struct Call {
    /// The registers that the firmware is called with.
    pub regs: Regs,
    /// Which of the platform's states or resets the caller named.
    pub asked: Asked,
}

impl Platform {
    /// The call of the firmware for a call of the platform, in this mode of the firmware.
    ///
    /// What the platform does not have becomes a word that the firmware does not have, so that the
    /// firmware refuses it, and in its place among the refusals: a function NOT_SUPPORTED, a core
    /// or a power state INVALID_PARAMETERS.
    #[inline(always)]
    pub fn translate(&self, mode: SuspendMode, regs: Regs) -> Call
        ensures regs { result.regs
            ≡ regs_for self.now.description self.now.board self.now.place mode regs }
        ensures asked { result.asked ≡ asked_for self.now.description mode regs }
    {
        let argument = self.description.functions.first_argument(low(regs.x0));
        self.call_by(mode, regs, argument)
    }

    /// The call of the firmware, where this is what the first argument names.
    #[inline(always)]
    fn call_by(&self, mode: SuspendMode, regs: Regs, argument: Argument) -> Call
        ensures regs { result.regs
            ≡ regs_by self.now.description self.now.board self.now.place mode regs argument }
        ensures asked { result.asked ≡ told_by self.now.description mode regs argument }
    {
        let first = regs.argument(regs.x1);
        match argument {
            Argument::Missing => beside(missing(regs), Asked::Nothing),
            Argument::State => {
                let (word, states) = self.state(mode, low(first));
                with_first(regs, u64::from(word), asks_states(states))
            }
            Argument::Core => with_first(regs, self.word_at(first, 0), Asked::Nothing),
            Argument::Node => {
                let word = self.word_at(first, low(regs.argument(regs.x2)));
                with_first(regs, word, Asked::Nothing)
            }
            Argument::Function => {
                let word = self.description.feature_word(low(first));
                with_first(regs, u64::from(word), Asked::Nothing)
            }
            Argument::Reset => {
                let (word, asked) = self.description.reset(low(first));
                with_first(regs, word, asked)
            }
            Argument::System => beside(regs, Asked::States(self.description.system)),
            Argument::Other => beside(regs, Asked::Nothing),
        }
    }
}

impl Description {
    /// The function word that the firmware is asked about.
    fn feature_word(&self, word: u32) -> u32
        ensures { result ≡ feature_word self.now word }
    {
        if self.functions.has(function(word)) {
            word
        } else {
            NO_FUNCTION
        }
    }

    /// The reset type that the firmware is asked for, and what the platform is asked.
    fn reset(&self, reset_type: u32) -> (u64, Asked)
        ensures word { result.0 ≡ reset_word self.now reset_type }
        ensures asked { result.1
            ≡ (if is_vendors self.now reset_type then asks.Reset reset_type else asks.Nothing) }
    {
        if self.resets.contains(&reset_type) {
            (0, Asked::Reset(reset_type))
        } else {
            (u64::from(reset_type), Asked::Nothing)
        }
    }
}

/// The registers of a call of no function.
#[inline(always)]
fn missing(regs: Regs) -> Regs
    ensures { result ≡ record regs { x0 = no_function } }
{
    Regs {
        x0: u64::from(NO_FUNCTION),
        ..regs
    }
}

/// The call with these registers, and what is asked beside.
#[inline(always)]
fn beside(regs: Regs, asked: Asked) -> Call
    ensures { result ≡ record { regs = regs; asked = asked } }
{
    Call { regs, asked }
}

/// The call with these registers but for this first argument.
fn with_first(regs: Regs, x1: u64, asked: Asked) -> Call
    ensures regs { result.regs ≡ record regs { x1 = x1 } }
    ensures asked { result.asked ≡ asked }
{
    Call {
        regs: Regs { x1, ..regs },
        asked,
    }
}

/// The function of a word, whatever its arguments.
fn function(word: u32) -> Request
    ensures { result ≡ function_of word 0 0 0 }
{
    read(Regs {
        x0: u64::from(word),
        x1: 0,
        x2: 0,
        x3: 0,
    })
}

/// States that are asked for, if there are some.
fn asks_states(states: Option<[u8; LEVELS]>) -> Asked
    ensures { result ≡ asks_states states }
{
    match states {
        Some(states) => Asked::States(states),
        None => Asked::Nothing,
    }
}
