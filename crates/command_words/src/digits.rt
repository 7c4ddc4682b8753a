//! Numbers, as they are spelled in words.
ghost use Rattle.std.specs.Prelude.{◌≡◌, ◌≤◌, IfSome};
ghost use Rattle.command_words.specs.Words.{is_number, number_in};

use mss_base::{are_digits, number_of};

/// The most digits of a number.
const DIGIT_LIMIT: usize = 20;

/// Whether a text is one to twenty digits. Leading zeros count as digits.
fn is_number(text: &[u8]) -> bool
    ensures { result ≡ is_number text.now }
{
    1 <= text.len() && text.len() <= DIGIT_LIMIT && are_digits(text)
}

/// The number of a text of one to twenty digits, where it lies within a range.
pub fn number_in(least: u64, most: u64, text: &str) -> Option<u64>
    ensures value { result ≡ number_in least most text.now }
    ensures within { IfSome result (λ n. (least ≤ n) × (n ≤ most)) }
{
    if !is_number(text.as_bytes()) {
        return None;
    }
    let number = number_of(text.as_bytes());
    if least as u128 <= number && number <= most as u128 {
        Some(number as u64)
    } else {
        None
    }
}
