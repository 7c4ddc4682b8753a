// What the numbers of a line stand for.
use crate::lines::words::code;
use mss_base::{CartridgeNo, Cylinder, FrameNo, Serial, UnitNo, VolumeNo};

/// The word at a place of a line.
pub fn word(words: &[u64], at: usize) -> Option<u64> {
    Some(*words.get(at)?)
}

pub fn is_word(words: &[u64], at: usize, text: &str) -> bool {
    word(words, at) == Some(code(text))
}

pub fn byte(words: &[u64], at: usize) -> Option<u8> {
    u8::try_from(word(words, at)?).ok()
}

pub fn short(words: &[u64], at: usize) -> Option<u16> {
    u16::try_from(word(words, at)?).ok()
}

pub fn block(words: &[u64], at: usize) -> Option<u32> {
    u32::try_from(word(words, at)?).ok()
}

pub fn volume(words: &[u64], at: usize) -> Option<VolumeNo> {
    VolumeNo::of(byte(words, at)?)
}

pub fn cartridge(words: &[u64], at: usize) -> Option<CartridgeNo> {
    CartridgeNo::of(short(words, at)?)
}

pub fn frame(words: &[u64], at: usize) -> Option<FrameNo> {
    FrameNo::of(byte(words, at)?)
}

pub fn cylinder(words: &[u64], at: usize) -> Option<Cylinder> {
    Cylinder::of(short(words, at)?)
}

/// The six letters of a serial.
pub fn serial(words: &[u64], at: usize) -> Option<Serial> {
    let [_, _, a, b, c, d, e, f] = word(words, at)?.to_be_bytes();
    Serial::of([a, b, c, d, e, f])
}

/// A unit, in two words: `table A`, `table B`, `disk 0`, `cartridge 258`.
pub fn unit(words: &[u64], at: usize) -> Option<UnitNo> {
    let number = at.checked_add(1)?;
    if is_word(words, at, "disk") {
        return Some(UnitNo::Staging(byte(words, number)?));
    }
    if is_word(words, at, "cartridge") {
        return Some(UnitNo::Cartridge(cartridge(words, number)?));
    }
    if is_word(words, number, "A") {
        return Some(UnitNo::TableA);
    }
    Some(UnitNo::TableB)
}
