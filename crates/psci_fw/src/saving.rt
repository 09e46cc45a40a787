//! A firmware as words, and words as a firmware.

ghost use Rattle.std.specs.Prelude.{◌≡◌, ◌≤◌, ◌+◌, ◌^◌, MatchResult, None, length, true};
ghost use Rattle.psci_fw_state.specs.Saved.{IsSavable, part_count, saved, saved_fault};
ghost use Rattle.psci_fw_state.specs.Seen.{IsState};
ghost use Rattle.psci_fw.specs.declared.fault.OpenFault.TheVariants.{Memory};
ghost use Rattle.psci_fw.specs.Saved.{IsOpened, IsRefused};
ghost use Rattle.psci_fw.specs.Reactions.{FirmwareValue, IsFirmware};

use crate::fault::OpenFault;
use crate::firmware::Firmware;
use psci_board::Board;
use psci_fw_state::{State, law_new, law_saved_state, law_sound};
use std::alloc::Global;

impl Firmware {
    /// How many words are saved.
    pub fn saved_count(&self) -> usize
        ensures count { result ≡ length (saved self.now) }
        ensures few { result ≤ 2 ^ 25 }
        ensures state { IsState self.now }
    {
        self.state.saved_count()
    }

    /// Writes all that is kept into words, of which there are as many as `saved_count` says.
    pub fn save(&self, words: &mut [u64])
        requires { length words.old ≡ length (saved self.now) }
        ensures words { words.new ≡ saved self.now }
        ensures savable { IsSavable self.now }
        ensures state { IsState self.now }
        ensures firmware { IsFirmware self.now }
    {
        self.state.save(words);
    }

    /// The firmware of this board that was saved as these words, which goes on as that one would
    /// have, as `law_alike` says. Like `new` it takes the memory of all its calls here.
    ///
    /// Refused with Memory where there is none, Words where the words have a fault, and Values
    /// where they have none and no firmware of this board is saved as them. What was saved is
    /// refused with Memory alone, as `law_saved` says.
    pub fn open(alloc: Global, board: &Board, words: &[u64]) -> Result<Firmware, OpenFault>
        ensures { MatchResult result (λ f. IsOpened board.now words.now f)
            (λ fault. IsRefused board.now words.now fault) }
    {
        law_saved_state();
        let mut state = State::new(alloc, board)?;
        state.load(words)?;
        if !is_firmware(&state) {
            return Err(OpenFault::Values);
        }
        Ok(Firmware { state })
    }
}

/// Whether a state in a life of its board is that of a firmware: its values are such as one keeps,
/// and before any core has entered they are those of a new one.
fn is_firmware(state: &State) -> bool
    requires state { IsState state.now }
    requires life { state.now.life ≤ state.now.board.lives }
    ensures kept { result ≡ true → IsFirmware state.now }
    ensures only { IsFirmware state.now → result ≡ true }
{
    law_sound();
    law_new();
    state.is_sound() && (state.life() != 0 || state.is_new())
}

/// Two firmwares of one board that are saved as the same words are the same, so that each later
/// call of one is answered as that of the other.
pub fn law_alike()
    ensures { (f g : FirmwareValue) → IsState f → IsState g → IsSavable f → IsSavable g
        → f.board ≡ g.board → saved f ≡ saved g → f ≡ g }
{
    law_saved_state();
}

/// What was saved of a firmware is always opened again, but for memory.
pub fn law_saved()
    ensures count { (f : FirmwareValue) → IsState f
        → length (saved f) ≡ 5 + part_count f.board }
    ensures whole { (f : FirmwareValue) → IsFirmware f → IsState f → IsSavable f
        → saved_fault f.board (saved f) ≡ None }
    ensures opens { (f : FirmwareValue) (fault : OpenFault) → IsFirmware f → IsState f
        → IsSavable f → IsRefused f.board (saved f) fault → fault ≡ Memory }
{
    law_saved_state();
}
