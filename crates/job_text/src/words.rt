//! The words of a line, and how they are spelled.
ghost use Rattle.std.specs.Prelude.{◌≡◌, ℕ, ◌<◌, ◌≤◌, ◌*◌, ◌==◌, ◌++◌, [], ◌∷◌, true, false, Option, Some, None, length, map};
ghost use Rattle.std.specs.Prelude.{replicate, IfOk, IfSome, OnOk, MatchOption};
ghost use Rattle.std.specs.List.{list_all, slice_split};
ghost use Rattle.std.specs.Str.{bytes_eq};
ghost use Rattle.hex.specs.Hex.{hex_digit_value};
ghost use Rattle.channel_commands.specs.Views.{argument_bytes};
ghost use Rattle.job_text.specs.Words.{words_of, is_skipped, is_printable, is_number, number_word, is_hex, bytes_of, is_hex_byte, byte_of, byte_word, is_serial};

use arrayvec::ArrayVec;
use channel_commands::{Argument, INLINE_BYTES};
use mss_base::{Bytes, NoMemory, Serial, are_digits, number_of};
use std::alloc::{AllocError, Global};

/// Cuts a line into its words, in place of what the list holds.
///
/// The list is lent, so that a text of many lines takes memory for it once.
pub fn cut_words<'t>(words: &mut Vec<&'t [u8]>, line: &'t [u8]) -> Result<(), AllocError>
    ensures { OnOk result (map (λ w. w.now) words.new.items ≡ words_of line.now) }
{
    words.clear();
    for word in line.split(|b| *b == b' ') {
        words.push(word)?;
    }
    Ok(())
}

/// Whether a line is empty or begins with `#`.
pub fn is_skipped(line: &[u8]) -> bool
    ensures { result ≡ is_skipped line.now }
{
    line.is_empty() || line[0] == b'#'
}

pub fn is_printable(b: u8) -> bool
    ensures { result ≡ is_printable b }
{
    0x20 <= b && b <= 0x7e
}

pub fn are_printable(line: &[u8]) -> bool
    ensures { result ≡ list_all is_printable line.now }
{
    line.iter().all(|b| is_printable(*b))
}

/// Whether a word is this text.
pub fn is_word(word: &[u8], text: &str) -> bool
    ensures { result ≡ bytes_eq text.now word.now }
{
    text.as_bytes() == word
}

fn is_number(word: &[u8]) -> bool
    ensures { result ≡ is_number word.now }
{
    1 <= word.len() && word.len() <= 5 && are_digits(word) && (word.len() == 1 || word[0] != b'0')
}

/// The number that a word says.
pub fn number(word: &[u8]) -> Option<u32>
    ensures { result ≡ number_word word.now }
{
    if is_number(word) {
        Some(number_of(word) as u32)
    } else {
        None
    }
}

/// What the table of digits has for a byte that is none.
const NO_DIGIT: u8 = 255;

/// The value of each byte as a hexadecimal digit. It is looked up, since a branch on data is guessed wrongly.
const DIGIT_VALUES: [u8; 256] = [
    255, 255, 255, 255, 255, 255, 255, 255, 255, 255, 255, 255, 255, 255, 255, 255, 255, 255, 255,
    255, 255, 255, 255, 255, 255, 255, 255, 255, 255, 255, 255, 255, 255, 255, 255, 255, 255, 255,
    255, 255, 255, 255, 255, 255, 255, 255, 255, 255, 0, 1, 2, 3, 4, 5, 6, 7, 8, 9, 255, 255, 255,
    255, 255, 255, 255, 10, 11, 12, 13, 14, 15, 255, 255, 255, 255, 255, 255, 255, 255, 255, 255,
    255, 255, 255, 255, 255, 255, 255, 255, 255, 255, 255, 255, 255, 255, 255, 255, 10, 11, 12, 13,
    14, 15, 255, 255, 255, 255, 255, 255, 255, 255, 255, 255, 255, 255, 255, 255, 255, 255, 255,
    255, 255, 255, 255, 255, 255, 255, 255, 255, 255, 255, 255, 255, 255, 255, 255, 255, 255, 255,
    255, 255, 255, 255, 255, 255, 255, 255, 255, 255, 255, 255, 255, 255, 255, 255, 255, 255, 255,
    255, 255, 255, 255, 255, 255, 255, 255, 255, 255, 255, 255, 255, 255, 255, 255, 255, 255, 255,
    255, 255, 255, 255, 255, 255, 255, 255, 255, 255, 255, 255, 255, 255, 255, 255, 255, 255, 255,
    255, 255, 255, 255, 255, 255, 255, 255, 255, 255, 255, 255, 255, 255, 255, 255, 255, 255, 255,
    255, 255, 255, 255, 255, 255, 255, 255, 255, 255, 255, 255, 255, 255, 255, 255, 255, 255, 255,
    255, 255, 255, 255, 255, 255, 255, 255, 255, 255, 255, 255, 255, 255, 255, 255, 255, 255, 255,
    255, 255, 255,
];

fn digit_value(b: u8) -> Option<u8>
    ensures value { result ≡ hex_digit_value b }
    ensures small { IfSome result (λ v. v < 16) }
{
    let value = DIGIT_VALUES[usize::from(b)];
    if value == NO_DIGIT { None } else { Some(value) }
}

/// The byte that two digits say.
pub fn pair_value(high: u8, low: u8) -> Option<u8>
    ensures { result ≡ byte_word (high ∷ low ∷ []) }
{
    let high = digit_value(high)?;
    let low = digit_value(low)?;
    Some(high * 16 + low)
}

/// The bytes that the pairs of a word say, if it is pairs of hexadecimal digits, and no more than an argument keeps in
/// itself.
fn few_bytes_of(word: &[u8]) -> Option<ArrayVec<u8, INLINE_BYTES>>
    requires { length word.now ≤ 2 * INLINE_BYTES }
    ensures { MatchOption result (is_hex word.now ≡ false)
        (λ bytes. (is_hex word.now ≡ true) × (bytes.items ≡ bytes_of word.now)) }
{
    if word.is_empty() || word.len() % 2 != 0 {
        return None;
    }
    let mut bytes = ArrayVec::new();
    let mut rest = word;
    while let [high, low, after @ ..] = rest {
        let Some(byte) = pair_value(*high, *low) else {
            return None;
        };
        bytes.push(byte);
        rest = after;
    }
    Some(bytes)
}

/// The bytes that the pairs of a word say, if it is pairs of hexadecimal digits. They are read by pieces.
pub fn bytes_of(alloc: Global, word: &[u8]) -> Result<Option<Bytes>, NoMemory>
    ensures { IfOk result (λ read. MatchOption read (is_hex word.now ≡ false)
        (λ bytes. (is_hex word.now ≡ true) × (bytes.items ≡ bytes_of word.now))) }
{
    let mut bytes = Bytes::new(alloc);
    bytes.reserve(word.len() / 2)?;
    let mut rest = word;
    while rest.len() > 2 * INLINE_BYTES {
        let (piece, after) = rest.split_at(2 * INLINE_BYTES);
        let Some(few) = few_bytes_of(piece) else {
            return Ok(None);
        };
        bytes.append(few.as_slice())?;
        rest = after;
    }
    let Some(few) = few_bytes_of(rest) else {
        return Ok(None);
    };
    bytes.append(few.as_slice())?;
    Ok(Some(bytes))
}

/// The argument that the pairs of a word say, if it is pairs of hexadecimal digits. A short one takes no memory.
pub fn argument_of(alloc: Global, word: &[u8]) -> Result<Option<Argument>, NoMemory>
    ensures { IfOk result (λ read. MatchOption read (is_hex word.now ≡ false)
        (λ argument. (is_hex word.now ≡ true) × (argument_bytes argument ≡ bytes_of word.now))) }
{
    if word.len() <= 2 * INLINE_BYTES {
        return Ok(match few_bytes_of(word) {
            Some(bytes) => Some(Argument::Inline(bytes)),
            None => None,
        });
    }
    Ok(match bytes_of(alloc, word)? {
        Some(bytes) => Some(Argument::keep(alloc, bytes)?),
        None => None,
    })
}

/// The byte that a word of one pair says.
pub fn byte(word: &[u8]) -> Option<u8>
    ensures { result ≡ byte_word word.now }
{
    match word {
        [high, low] => pair_value(*high, *low),
        _ => None,
    }
}

/// The serial that a word says.
pub fn serial(word: &[u8]) -> Option<Serial>
    ensures { MatchOption result (is_serial word.now ≡ false)
        (λ serial. (is_serial word.now ≡ true) × (serial ≡ word.now)) }
{
    if word.len() != 6 {
        return None;
    }
    let mut bytes = [0; 6];
    bytes.copy_from_slice(word);
    Serial::of(bytes)
}

/// How many copies are put at once.
const PIECE_BYTES: usize = 256;

/// Puts a byte behind the others, this many times. It goes by pieces, which costs far less than to push each copy.
pub fn append_copies(bytes: &mut Bytes, byte: u8, count: usize) -> Result<(), NoMemory>
    ensures { OnOk result (bytes.new.items ≡ bytes.old.items ++ replicate count byte) }
{
    bytes.reserve(count)?;
    let piece = [byte; PIECE_BYTES];
    for _ in 0..count / PIECE_BYTES {
        bytes.append(&piece)?;
    }
    bytes.append(&piece[..count % PIECE_BYTES])
}
