//! The name of a core, before what stands behind it.

ghost use Rattle.std.specs.Prelude.{◌≡◌, ◌+◌, ◌≤◌, ◌++◌, codes, drop, length};
ghost use Rattle.std.specs.Fmt.{decimal};
ghost use Rattle.psci_record.specs.Texts.{core_text, hexadecimal};

use crate::digits::{write_hexadecimal, write_number, write_word};
use crate::line::Named;

/// Writes the name of a core; answers where it begins.
#[inline(never)]
pub fn write_core(core: Named, room: &mut [u8], end: usize) -> usize
    requires least { 20 ≤ end }
    requires within { end ≤ length room.old }
    ensures most { end ≤ result + 20 }
    ensures within { result ≤ end }
    ensures written { drop result room.new ≡ core_text core ++ drop end room.old }
{
    match core {
        Named::Mpidr(word) => write_hexadecimal(word, room, end),
        Named::Number(number) => write_number(number, room, end),
    }
}

/// Writes a register after a space; answers where that begins.
#[inline(never)]
pub fn write_register(register: u64, room: &mut [u8], end: usize) -> usize
    requires least { 19 ≤ end }
    requires within { end ≤ length room.old }
    ensures most { end ≤ result + 19 }
    ensures within { result ≤ end }
    ensures written { drop result room.new
        ≡ codes " " ++ (hexadecimal register ++ drop end room.old) }
{
    let start = write_hexadecimal(register, room, end);
    write_word(b" ", room, start)
}

/// Writes a number of 32 bits after a space; answers where that begins.
#[inline(never)]
pub fn write_counted(number: u32, room: &mut [u8], end: usize) -> usize
    requires least { 21 ≤ end }
    requires within { end ≤ length room.old }
    ensures most { end ≤ result + 21 }
    ensures within { result ≤ end }
    ensures written { drop result room.new
        ≡ codes " " ++ (decimal number ++ drop end room.old) }
{
    let start = write_number(u64::from(number), room, end);
    write_word(b" ", room, start)
}
