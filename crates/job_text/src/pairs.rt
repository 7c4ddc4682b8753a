// Bytes as pairs of hexadecimal digits.
ghost use Rattle.std.specs.Prelude.{◌≡◌, ◌++◌, ◌<◌, ◌≤◌, ◌*◌, true, OnErr, OnOk, length, take};
ghost use Rattle.std.specs.Fmt.{digit_glyph};
ghost use Rattle.mss_base.specs.Puts.{PutsFront};
ghost use Rattle.job_text.specs.Canonical.{hex, hex_byte};

use mss_base::{Bytes, NoMemory};

/// A hexadecimal digit.
fn digit(value: u8) -> u8
    requires { value < 16 }
    ensures { result ≡ digit_glyph true value }
{
    if value < 10 {
        b'0' + value
    } else {
        b'A' + (value - 10)
    }
}

/// How many bytes are spelled at once.
const PIECE_BYTES: usize = 32;

/// Spells bytes at the start of a buffer, two digits each.
fn spell(bytes: &[u8], digits: &mut [u8])
    requires { 2 * length bytes.now ≤ length digits.old }
    ensures kept { length digits.new ≡ length digits.old }
    ensures spelled { take (2 * length bytes.now) digits.new ≡ hex bytes.now }
{
    for i in 0..bytes.len() {
        digits[2 * i] = digit(bytes[i] / 16);
        digits[2 * i + 1] = digit(bytes[i] % 16);
    }
}

/// Puts at most 32 bytes.
fn push_piece(out: &mut Bytes, bytes: &[u8]) -> Result<(), NoMemory>
    requires { length bytes.now ≤ 32 }
    ensures ok { OnOk result (out.new.items ≡ out.old.items ++ hex bytes.now) }
    ensures err { OnErr result (out.new.items ≡ out.old.items) }
{
    let mut digits = [0; 2 * PIECE_BYTES];
    spell(bytes, &mut digits);
    out.append(&digits[..2 * bytes.len()])
}

/// Puts bytes as hexadecimal digits in upper case, two each.
///
/// After want of memory a front of them is put. Room for all digits is made once, since a track has thousands. They are
/// spelled piece by piece in a small buffer, which costs far less than to push each.
pub fn push_hex(out: &mut Bytes, bytes: &[u8]) -> Result<(), NoMemory>
    ensures ok { OnOk result (out.new.items ≡ out.old.items ++ hex bytes.now) }
    ensures memory { OnErr result (PutsFront out.old.items out.new.items (hex bytes.now)) }
{
    out.reserve(2 * bytes.len())?;
    let mut rest = bytes;
    while !rest.is_empty() {
        let (piece, after) = rest.split_at(rest.len().min(PIECE_BYTES));
        push_piece(out, piece)?;
        rest = after;
    }
    Ok(())
}

/// Puts a byte as two hexadecimal digits in upper case.
pub fn push_hex_byte(out: &mut Bytes, byte: u8) -> Result<(), NoMemory>
    ensures { OnOk result (out.new.items ≡ out.old.items ++ hex_byte byte) }
{
    out.append(&[digit(byte / 16), digit(byte % 16)])
}
