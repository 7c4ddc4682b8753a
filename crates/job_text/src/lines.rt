//! The lines of a text, and its parts.
ghost use Rattle.std.specs.Prelude.{◌≡◌, ◌<◌, ◌∷◌, ◌+◌, length, take, drop};
ghost use Rattle.std.specs.List.{list_all};
ghost use Rattle.job_text.specs.Words.{lines_of, is_printable};

use crate::words::{are_printable, is_printable};

/// What stands before the line feed at this place, and behind it.
pub fn parted_at(text: &[u8], feed: usize) -> (&[u8], &[u8])
    requires { feed < length text.now }
    ensures front { result.0.now ≡ take feed text.now }
    ensures back { result.1.now ≡ drop (feed + 1) text.now }
{
    let (line, _) = text.split_at(feed);
    let (_, after) = text.split_at(feed + 1);
    (line, after)
}

/// The first line of a text, and what stands behind it.
fn line_of_any_bytes(text: &[u8]) -> (&[u8], &[u8])
    requires { 0 < length text.now }
    ensures lines { lines_of text.now ≡ result.0.now ∷ lines_of result.1.now }
    ensures less { length result.1.now < length text.now }
{
    match text.iter().position(|b| *b == b'\n') {
        Some(feed) => parted_at(text, feed),
        None => text.split_at(text.len()),
    }
}

/// The first line of a text, whether its bytes are all printable, and what stands behind it.
///
/// The first byte that isn't printable is mostly the line feed, so that each byte is looked at once.
pub fn first_line(text: &[u8]) -> (&[u8], bool, &[u8])
    requires { 0 < length text.now }
    ensures lines { lines_of text.now ≡ result.0.now ∷ lines_of result.2.now }
    ensures printable { result.1 ≡ list_all is_printable result.0.now }
    ensures less { length result.2.now < length text.now }
{
    if text[0] == b'\n' {
        let (line, after) = parted_at(text, 0);
        return (line, true, after);
    }
    if let Some(at) = text.iter().position(|b| !is_printable(*b)) {
        if text[at] == b'\n' {
            let (line, after) = parted_at(text, at);
            return (line, true, after);
        }
    }
    let (line, after) = line_of_any_bytes(text);
    (line, are_printable(line), after)
}
