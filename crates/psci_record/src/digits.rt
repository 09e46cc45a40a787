//! Words and numbers, written before what stands behind them.

ghost use Rattle.std.specs.Prelude.{◌≡◌, ◌+◌, ◌<◌, ◌≤◌, ◌++◌, drop, false, length};
ghost use Rattle.std.specs.Fmt.{decimal, digit_glyph, digits, signed_decimal};
ghost use Rattle.psci_record.specs.Texts.{base, hexadecimal, places};

/// Writes a word before what begins here; answers where it begins.
#[inline(never)]
pub fn write_word(word: &[u8], room: &mut [u8], end: usize) -> usize
    requires least { length word.now ≤ end }
    requires within { end ≤ length room.old }
    ensures start { result + length word.now ≡ end }
    ensures written { drop result room.new ≡ word.now ++ drop end room.old }
{
    let start = end - word.len();
    room[start..end].copy_from_slice(word);
    start
}

/// How a number is written.
#[derive(Clone, Copy)]
enum Radix {
    /// To the base 10.
    Decimal,
    /// To the base 16, with lower-case letters.
    Hexadecimal,
}

impl Radix {
    /// The base.
    fn base(self) -> u64
        ensures base { result ≡ base self }
        ensures range { (2 ≤ result) × (result ≤ 16) }
    {
        match self {
            Radix::Decimal => 10,
            Radix::Hexadecimal => 16,
        }
    }

    /// How many digits a number of 64 bits has at most.
    fn places(self) -> usize
        ensures places { result ≡ places self }
        ensures most { result ≤ 20 }
    {
        match self {
            Radix::Decimal => 20,
            Radix::Hexadecimal => 16,
        }
    }
}

/// Writes a number in decimal.
#[inline(never)]
pub fn write_number(number: u64, room: &mut [u8], end: usize) -> usize
    requires least { 20 ≤ end }
    requires within { end ≤ length room.old }
    ensures most { end ≤ result + 20 }
    ensures within { result ≤ end }
    ensures written { drop result room.new ≡ decimal number ++ drop end room.old }
{
    write_digits(number, Radix::Decimal, room, end)
}

/// Writes a signed number in decimal.
#[inline(never)]
pub fn write_code(code: i32, room: &mut [u8], end: usize) -> usize
    requires least { 21 ≤ end }
    requires within { end ≤ length room.old }
    ensures most { end ≤ result + 21 }
    ensures within { result ≤ end }
    ensures written { drop result room.new ≡ signed_decimal code ++ drop end room.old }
{
    let start = write_number(u64::from(code.unsigned_abs()), room, end);
    if code >= 0 {
        return start;
    }
    write_word(b"-", room, start)
}

/// Writes a number in hexadecimal, lower-case and after `0x`.
#[inline(never)]
pub fn write_hexadecimal(number: u64, room: &mut [u8], end: usize) -> usize
    requires least { 18 ≤ end }
    requires within { end ≤ length room.old }
    ensures most { end ≤ result + 18 }
    ensures within { result ≤ end }
    ensures written { drop result room.new ≡ hexadecimal number ++ drop end room.old }
{
    let start = write_digits(number, Radix::Hexadecimal, room, end);
    write_word(b"0x", room, start)
}

/// Writes the digits of a number.
#[inline(never)]
fn write_digits(number: u64, radix: Radix, room: &mut [u8], end: usize) -> usize
    requires least { places radix ≤ end }
    requires within { end ≤ length room.old }
    ensures most { end ≤ result + places radix }
    ensures within { result ≤ end }
    ensures written { drop result room.new
        ≡ digits (base radix) false number ++ drop end room.old }
{
    let base = radix.base();
    let places = radix.places();
    let mut left = places;
    let mut rest = number;
    while left > 0 {
        left -= 1;
        let start = end - places + left;
        room[start] = digit(rest % base);
        rest /= base;
        if rest == 0 {
            return start;
        }
    }
    unreachable!()
}

/// The hexadecimal digit of a number below 16.
pub fn digit(number: u64) -> u8
    ensures { number < 16 → result ≡ digit_glyph false number }
{
    let low = (number % 16) as u8;
    if low < 10 {
        b'0' + low
    } else {
        b'a' + (low - 10)
    }
}
