// Lines of words, as numbers.
use std::alloc::Global;

/// Letters as one number, of more than eight the last eight.
pub fn letters(letters: &[u8]) -> u64 {
    let mut value = 0u64;
    for letter in letters {
        value = value.wrapping_mul(256).wrapping_add(u64::from(*letter));
    }
    value
}

/// What a word of letters stands for.
pub fn code(word: &str) -> u64 {
    letters(word.as_bytes())
}

fn digit_value(digit: u8) -> Option<u64> {
    match digit {
        b'0'..=b'9' => Some(u64::from(digit) - 48),
        b'A'..=b'F' => Some(u64::from(digit) - 55),
        _ => None,
    }
}

fn number_of(digits: &[u8], base: u64) -> Option<u64> {
    let mut value = 0u64;
    for digit in digits {
        value = value.checked_mul(base)?.checked_add(digit_value(*digit)?)?;
    }
    Some(value)
}

// A number, also in hexadecimal digits behind an x; the number of the turn as N, or so much less as N-1; any other
// word stands for its letters.
fn value_of(word: &str, turn: u64) -> Option<u64> {
    match word.as_bytes() {
        [b'0'..=b'9', ..] => number_of(word.as_bytes(), 10),
        [b'x', digits @ ..] => number_of(digits, 16),
        [b'N'] => Some(turn),
        [b'N', b'-', digits @ ..] => turn.checked_sub(number_of(digits, 10)?),
        _ => Some(code(word)),
    }
}

fn push_words(words: &mut Vec<u64>, line: &str, turn: u64) -> Option<()> {
    for word in line.split(" ") {
        push_word(words, word, turn)?;
    }
    Some(())
}

fn push_word(words: &mut Vec<u64>, word: &str, turn: u64) -> Option<()> {
    words.push(value_of(word, turn)?).ok()
}

/// The words of a line, in the turn of this number.
pub fn words_of(alloc: Global, line: &str, turn: u64) -> Option<Vec<u64>> {
    let mut words = Vec::new(alloc);
    push_words(&mut words, line, turn)?;
    Some(words)
}
