// Numbers as decimal digits.
ghost use Rattle.std.specs.Prelude.{◌≡◌, ◌≤◌, ◌<◌, ◌^◌, true, length};
ghost use Rattle.std.specs.List.{list_all};
ghost use Rattle.mss_base.specs.Decimal.{is_digit, number_of};

fn is_digit(byte: u8) -> bool
    ensures { result ≡ is_digit byte }
{
    b'0' <= byte && byte <= b'9'
}

/// Whether a text is digits alone.
pub fn are_digits(text: &[u8]) -> bool
    ensures { result ≡ list_all is_digit text.now }
{
    text.iter().all(|byte| is_digit(*byte))
}

/// The number that digits write. Twenty of them may be more than 64 bits hold.
pub fn number_of(text: &[u8]) -> u128
    requires digits { list_all is_digit text.now ≡ true }
    requires few { length text.now ≤ 20 }
    ensures value { result ≡ number_of text.now }
    ensures below { result < 10 ^ length text.now }
{
    let mut number = 0u128;
    for byte in text {
        number = 10 * number + u128::from(*byte - b'0');
    }
    number
}
