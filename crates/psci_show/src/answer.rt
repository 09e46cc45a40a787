//! The answer to an event, as its answer line has it.

ghost use Rattle.std.specs.Prelude.{◌≡◌, ◌++◌, OnOk};
ghost use Rattle.psci_script.specs.Text.{said_text};

use psci_script::{LONGEST_ANSWER, write_answer};
use psci_world::Said;
use std::alloc::AllocError;

/// Adds what the answer line of an event says behind its number.
pub fn put_answer(out: &mut Vec<u8>, said: &Said) -> Result<(), AllocError>
    ensures { OnOk result (out.new.items ≡ out.old.items ++ said_text said.now) }
{
    let mut room = [0; LONGEST_ANSWER];
    let start = write_answer(0, said, &mut room);
    out.extend_from_slice(&room[start + 2..LONGEST_ANSWER - 1])
}
