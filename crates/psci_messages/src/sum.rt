//! The sum of words that are saved.

ghost use Rattle.std.specs.Prelude.{◌≡◌};
ghost use Rattle.psci_messages.specs.Sum.{sum_from};

/// What the sum so far is multiplied by, odd: so no other word in one place leaves the sum as it
/// is.
pub const FACTOR: u64 = 0x100_0000_01b3;

/// The sum of words, in which each counts by its place.
pub fn sum_of(words: &[u64]) -> u64
    ensures { result ≡ sum_from 0 words.now }
{
    let mut sum: u64 = 0;
    for word in words {
        sum = sum.wrapping_mul(FACTOR).wrapping_add(*word);
    }
    sum
}
