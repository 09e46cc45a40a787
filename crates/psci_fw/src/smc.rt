//! The functions that a running core calls.

ghost use Rattle.std.specs.Prelude.{◌≡◌};
ghost use Rattle.psci_abi.specs.Calls.{features_of, request_of};
ghost use Rattle.psci_fw_spec.specs.Effects.{change, function_effect};
ghost use Rattle.psci_fw_spec.specs.Answer.{outcome_of};
ghost use Rattle.psci_fw.specs.Reactions.{FunctionAnswered, IsCaller, IsReaction, MayCall};
ghost use Rattle.psci_fw.specs.Reactions.{outcome_in};
ghost use Rattle.psci_fw_state.specs.Seen.{values_in};

use crate::affinity::affinity_info;
use crate::hw::node_hw_state;
use crate::mode::set_suspend_mode;
use crate::off::cpu_off;
use crate::on::cpu_on;
use crate::reaction::Reaction;
use crate::suspend::cpu_suspend;
use crate::system::{system_off, system_reset, system_reset2, system_suspend};
use psci_abi::{Code, Regs, Request, features, read};
use psci_board::{Board, Core};
use psci_fw_spec::Opening;
use psci_fw_state::State;

/// PSCI 1.1: the major version in bits 31:16, the minor one in bits 15:0.
const VERSION: Code = Code(0x0001_0001);

/// MIGRATE_INFO_TYPE: the Trusted OS needs no migration, or there is none.
const NO_MIGRATION: Code = Code(2);

/// What a running core is answered to its call: in a halting life it stops, whatever it asks. `A`
/// is for the compiler, as it is below: this is compiled once for each.
#[tactic(auto, unfolding(psci_fw_spec::specs::Answer::outcome_of))]
pub fn dispatch<A>(state: &mut State, caller: Core, regs: Regs) -> Reaction
    requires { IsCaller state.old caller.number }
    ensures answer { outcome_in state.new.board (values_in state.new) result
        ≡ outcome_of state.old.board (values_in state.old) caller.number (request_of regs) }
    ensures reaction { IsReaction state.old state.new result }
    ensures after { let outcome = outcome_in state.new.board (values_in state.new) result in
        values_in state.new ≡ change state.old.board (function_effect state.old.board caller.number
        (request_of regs) outcome.act outcome.message) (values_in state.old) }
{
    if state.halting() {
        state.set_away(caller);
        return Reaction::stops();
    }
    function::<A>(state, caller, read(regs))
}

/// What a function answers.
fn function<A>(state: &mut State, caller: Core, request: Request) -> Reaction
    requires { MayCall state.old caller.number }
    ensures answer { FunctionAnswered state.old.board (values_in state.old) caller.number request
        (outcome_in state.new.board (values_in state.new) result) (values_in state.new) }
    ensures reaction { IsReaction state.old state.new result }
{
    match request {
        Request::CpuSuspend {
            state: word,
            entry,
            context,
        } => cpu_suspend::<A>(state, caller, word, opening(entry, context)),
        Request::CpuOff => cpu_off(state, caller),
        Request::CpuOn {
            target,
            entry,
            context,
        } => cpu_on::<A>(state, caller, target, opening(entry, context)),
        Request::SystemOff => system_off(state, caller),
        Request::SystemReset => system_reset(state, caller),
        Request::SystemSuspend { entry, context } => {
            system_suspend::<A>(state, caller, opening(entry, context))
        }
        Request::SetSuspendMode { mode } => set_suspend_mode(state, caller, mode),
        Request::SystemReset2 { reset_type, .. } => { system_reset2(state, caller, reset_type) }
        Request::Version => Reaction::returns(VERSION),
        Request::AffinityInfo { target, level } => {
            Reaction::returns(affinity_info(state, target, level))
        }
        Request::NodeHwState { target, level } => {
            Reaction::returns(node_hw_state(state, target, level))
        }
        Request::MigrateInfoType => Reaction::returns(NO_MIGRATION),
        Request::Features { word } => Reaction::returns(feature_code(state.board(), word)),
        Request::Unknown => Reaction::returns(Code::NOT_SUPPORTED),
    }
}

/// PSCI_FEATURES (DEN0022D): the feature flags of a function word, or NOT_SUPPORTED.
fn feature_code(board: &Board, word: u32) -> Code
    ensures { result ≡ record { 0 = features_of board.now.format word } }
{
    Code(features(word, board.format()))
}

/// Where a core goes on: entry point and context id.
fn opening(address: u64, context: u64) -> Opening
    ensures { result ≡ record { address = address; context = context } }
{
    Opening { address, context }
}
