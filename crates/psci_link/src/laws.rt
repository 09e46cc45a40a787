//! What holds of frames.

ghost use Rattle.std.specs.Prelude.{◌≡◌, ℕ, List, None, Some, length};
ghost use Rattle.psci_board.specs.declared.draft.TheConstants.{MOST_CORES};
ghost use Rattle.psci_board.specs.Board.{BoardValue, cores};
ghost use Rattle.psci_link.specs.declared.parts.FrameFault.TheVariants.{Core};
ghost use Rattle.psci_link.specs.declared.encoding.Frame.{Frame};
ghost use Rattle.psci_link.specs.Frame.{AreBytes, IsFrame, IsOf, frame_bytes, first_fault};

/// Bytes are a frame of the board exactly where they have no fault, and no other frame.
#[tactic(auto, using(crate::proofs::Frames::frame_laws, crate::proofs::Headings::core_law))]
pub fn law_frames()
    ensures length { (f : Frame) → IsFrame f → length (frame_bytes f) ≡ 53 }
    ensures one { (f g : Frame) → IsFrame f → IsFrame g → frame_bytes f ≡ frame_bytes g → f ≡ g }
    ensures spelled { (b : BoardValue) (f : Frame) → IsFrame f → IsOf b f
        → first_fault b (frame_bytes f) ≡ None }
    ensures read { (b : BoardValue) (bytes : List ℕ) → AreBytes bytes → first_fault b bytes ≡ None
        → (f : Frame) × IsFrame f × IsOf b f × (frame_bytes f ≡ bytes) }
    // On a board of 256 cores there is one for each value of the core byte.
    ensures core { (b : BoardValue) (bytes : List ℕ) → AreBytes bytes → cores b ≡ MOST_CORES
        → first_fault b bytes ≡ Some Core → ⊥ }
{}
