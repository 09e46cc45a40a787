//! What holds of lines.

ghost use Rattle.std.specs.Prelude.{◌≡◌, ℕ, ◌<◌, ◌≤◌, ◌^◌, Some, false, length};
ghost use Rattle.std.specs.Fmt.{digits};
ghost use Rattle.psci_record.specs.declared.digits.Radix.{Radix};
ghost use Rattle.psci_record.specs.Reading.{Event, IsEvent, line, read};
ghost use Rattle.psci_record.specs.Texts.{base, places};

/// Each line is read back as its event, whatever numbers and bytes the event has.
#[tactic(auto, using(crate::proofs::Lines::read_laws))]
pub fn law_lines()
    ensures read { (event : Event) → IsEvent event → read (line event) ≡ Some event }
    ensures places { (radix : Radix) (n : ℕ) → n < 2 ^ 64
        → length (digits (base radix) false n) ≤ places radix }
{}
