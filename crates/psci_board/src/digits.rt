//! Digits at the front of a text, in one pass: their value, and how many they are.

ghost use Rattle.std.specs.Prelude.{◌≡◌, ◌^◌, ◌<◌, nat_lt, nat_le, if◌then◌else◌, Some, None};
ghost use Rattle.std.specs.Option.{SomeIff};
ghost use Rattle.std.specs.Char.{is_ascii_digit, is_ascii_hexdigit, digit_value};
ghost use Rattle.psci_board.specs.Grammar.{value_and_count};

/// The value of the decimal digits and their number, where the value is below 2 to the 64.
pub fn decimal(text: &[u8]) -> Option<(u64, usize)>
    ensures { result ≡ (if nat_lt (value_and_count 10 is_ascii_digit text.now).0 (2 ^ 64)
        then Some (value_and_count 10 is_ascii_digit text.now) else None) }
{
    let mut value: u64 = 0;
    let mut count: usize = 0;
    for byte in text {
        if !byte.is_ascii_digit() {
            break;
        }
        value = value.checked_mul(10)?.checked_add(u64::from(*byte - b'0'))?;
        count += 1;
    }
    Some((value, count))
}

/// The value of the hexadecimal digits and their number, where they are 16 at most.
pub fn hexadecimal(text: &[u8]) -> Option<(u64, usize)>
    ensures { result ≡ (if nat_le (value_and_count 16 is_ascii_hexdigit text.now).1 16
        then Some (value_and_count 16 is_ascii_hexdigit text.now) else None) }
{
    let mut value: u64 = 0;
    let mut count: usize = 0;
    for byte in text {
        let Some(digit) = hexadecimal_digit(*byte) else {
            break;
        };
        if count == 16 {
            return None;
        }
        value = value * 16 + u64::from(digit);
        count += 1;
    }
    Some((value, count))
}

/// The value of a hexadecimal digit, in upper or lower case.
fn hexadecimal_digit(byte: u8) -> Option<u8>
    ensures { SomeIff result (digit_value byte < 16) (digit_value byte) }
{
    match byte {
        b'0'..=b'9' => Some(byte - b'0'),
        b'a'..=b'f' => Some(byte - b'a' + 10),
        b'A'..=b'F' => Some(byte - b'A' + 10),
        _ => None,
    }
}
