// Lines that want no memory: each is put piece by piece, with its numbers spelled on the stack.
ghost use Rattle.std.specs.Prelude.{◌++◌, codes, decimal};
ghost use Rattle.std.specs.List.{flat_map};
ghost use Rattle.mss_base.specs.Counts.{HasCause};
ghost use Rattle.mss_base.specs.Puts.{Puts};
ghost use Rattle.report_text.specs.Texts.{place_text};

use mss_base::{Cylinder, Failed, Head, Sink, VolumeNo};

/// Puts a text, by one call.
pub fn put_text<O: Sink>(output: &mut O, text: &str) -> Result<(), Failed>
    ensures bytes { O.tells → Puts result (O.told output.old) (O.told output.new) text.now }
    ensures cause { HasCause (O.faults output.old) (O.faults output.new) result }
{
    output.put(text.as_bytes())
}

/// Puts the pieces of a line one behind the other, each by a call of its own.
pub fn put_pieces<O: Sink>(output: &mut O, pieces: &[&str]) -> Result<(), Failed>
    ensures bytes { O.tells → Puts result (O.told output.old) (O.told output.new)
        (flat_map (λ piece. piece.now) pieces.now) }
    ensures cause { HasCause (O.faults output.old) (O.faults output.new) result }
{
    for piece in pieces {
        put_text(output, piece)?;
    }
    Ok(())
}

/// Puts the pieces of a line, as bytes, one behind the other.
pub fn put_byte_pieces<O: Sink>(output: &mut O, pieces: &[&[u8]]) -> Result<(), Failed>
    ensures bytes { O.tells → Puts result (O.told output.old) (O.told output.new)
        (flat_map (λ piece. piece.now) pieces.now) }
    ensures cause { HasCause (O.faults output.old) (O.faults output.new) result }
{
    for piece in pieces {
        output.put(piece)?;
    }
    Ok(())
}

/// Puts a line that ends in a number.
pub fn put_numbered<O: Sink>(output: &mut O, text: &str, number: u64) -> Result<(), Failed>
    ensures bytes { O.tells → Puts result (O.told output.old) (O.told output.new)
        (text.now ++ decimal number ++ codes "\n") }
    ensures cause { HasCause (O.faults output.old) (O.faults output.new) result }
{
    let mut digits = itoa::Buffer::new();
    put_pieces(output, &[text, digits.format(number), "\n"])
}

/// Puts a line that ends in a number and a word.
pub fn put_numbered_word<O: Sink>(
    output: &mut O,
    text: &str,
    number: u32,
    word: &str,
) -> Result<(), Failed>
    ensures bytes { O.tells → Puts result (O.told output.old) (O.told output.new)
        (text.now ++ decimal number ++ codes " " ++ word.now ++ codes "\n") }
    ensures cause { HasCause (O.faults output.old) (O.faults output.new) result }
{
    let mut digits = itoa::Buffer::new();
    put_pieces(output, &[text, digits.format(number), " ", word, "\n"])
}

/// Puts a line that ends in a track, by volume, cylinder and head.
pub fn put_place<O: Sink>(
    output: &mut O,
    text: &str,
    volume: VolumeNo,
    cylinder: Cylinder,
    head: Head,
) -> Result<(), Failed>
    ensures bytes { O.tells → Puts result (O.told output.old) (O.told output.new)
        (text.now ++ place_text volume cylinder head ++ codes "\n") }
    ensures cause { HasCause (O.faults output.old) (O.faults output.new) result }
{
    let mut volume_digits = itoa::Buffer::new();
    let mut cylinder_digits = itoa::Buffer::new();
    let mut head_digits = itoa::Buffer::new();
    let pieces = [
        text,
        volume_digits.format(volume.get()),
        " cylinder ",
        cylinder_digits.format(cylinder.get()),
        " head ",
        head_digits.format(head.get()),
        "\n",
    ];
    put_pieces(output, &pieces)
}
