//! The words behind the program's name.
use mss_base::NoMemory;
use std::alloc::Global;
use std::env::FillError;
use std::rt::Env;

/// Room for an argument, in bytes. It is doubled until the argument fits.
const ROOM: usize = 256;

/// The bytes of an argument, of which 0 is the program's name. There is none behind the last.
fn argument(rt: &impl Env, alloc: Global, number: usize) -> Result<Option<Vec<u8>>, NoMemory> {
    let mut bytes = vec![in alloc; 0u8; ROOM]?;
    for _ in 0..usize::BITS {
        match rt.arg(number, &mut bytes) {
            Ok(length) => {
                bytes.truncate(length);
                return Ok(Some(bytes));
            }
            Err(FillError::NotPresent) => return Ok(None),
            Err(FillError::TooLong) => bytes.resize(bytes.len().saturating_mul(2), 0)?,
        }
    }
    Err(NoMemory)
}

/// The words behind the program's name, which itself need not be text. There are none where one of them isn't text,
/// since no command has such a word.
pub fn words(rt: &impl Env, alloc: Global) -> Result<Vec<String>, NoMemory> {
    let mut words = Vec::new(alloc);
    for number in 1..usize::MAX {
        let Some(bytes) = argument(rt, alloc, number)? else {
            return Ok(words);
        };
        let Ok(word) = String::from_utf8(bytes) else {
            return Ok(Vec::new(alloc));
        };
        words.push(word)?;
    }
    Ok(words)
}
