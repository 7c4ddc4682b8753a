//! Words of the tests' lines, read by their place. No function holds what it has to let go over several exits,
//! since a plan of borrows costs most where one does.
ghost use Rattle.std.specs.Prelude.{◌<◌, IfSome};

use std::alloc::Global;

/// The word at a place of a line.
pub fn word(line: &str, at: usize) -> Option<&str> {
    line.split(" ").nth(at)
}

fn digit_value(digit: u8) -> Option<u8>
    ensures { IfSome result (λ value. value < 16) }
{
    match digit {
        b'0'..=b'9' => Some(digit - b'0'),
        b'A'..=b'F' => Some(digit - b'A' + 10),
        _ => None,
    }
}

fn byte_of(pair: &[u8]) -> Option<u8> {
    let &[high, low] = pair else { return None };
    Some(digit_value(high)? * 16 + digit_value(low)?)
}

/// The byte of a word.
pub fn byte(word: &str) -> Option<u8> {
    byte_of(word.as_bytes())
}

pub fn byte_at(line: &str, at: usize) -> Option<u8> {
    byte(word(line, at)?)
}

/// The number of a word.
pub fn number(word: &str) -> Option<u32> {
    word.parse::<u32>().ok()
}

pub fn number_at(line: &str, at: usize) -> Option<u32> {
    number(word(line, at)?)
}

fn repeated(alloc: Global, pair: &str, count: &str) -> Option<Vec<u8>> {
    let (byte, count) = (byte(pair)?, number(count)?);
    vec![in alloc; byte; count as usize].ok()
}

fn push_pair(bytes: &mut Vec<u8>, pair: &[u8]) -> Option<()> {
    bytes.push(byte_of(pair)?).ok()
}

fn push_pairs(bytes: &mut Vec<u8>, digits: &[u8]) -> Option<()> {
    for pair in digits.chunks(2) {
        push_pair(bytes, pair)?;
    }
    Some(())
}

fn pairs(alloc: Global, digits: &str) -> Option<Vec<u8>> {
    let mut bytes = Vec::new(alloc);
    push_pairs(&mut bytes, digits.as_bytes())?;
    Some(bytes)
}

/// The bytes of a word: pairs of hexadecimal digits, `-` for none, or as `C1*8` a pair and how often it stands.
pub fn bytes(alloc: Global, word: &str) -> Option<Vec<u8>> {
    if word == "-" {
        return Some(Vec::new(alloc));
    }
    match word.split_once("*") {
        Some((pair, count)) => repeated(alloc, pair, count),
        None => pairs(alloc, word),
    }
}

pub fn bytes_at(alloc: Global, line: &str, at: usize) -> Option<Vec<u8>> {
    bytes(alloc, word(line, at)?)
}
