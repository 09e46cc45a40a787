//! What holds of the definitions alone.

ghost use Rattle.psci_answers.specs.ScriptRun.{AllSafe};

use psci_machine::{law_runs, law_safe};
use psci_script::law_boards;

/// The answer text of every script is that of the legal run of its events, up to the first fault,
/// and this run is safe at every moment.
pub fn law_safe_scripts()
    ensures { AllSafe }
{
    law_boards();
    law_runs();
    law_safe();
}
