// What surveys and openings are asked for: three volumes, with eight frames.
ghost use Rattle.std.specs.Prelude.{◌≡◌, ◌<◌, IfSome, [], ◌∷◌};

use mss_base::{Config, NoMemory, Serial, VolumeList, VolumeNo};
use std::alloc::Global;

fn volume_at(number: u8) -> VolumeNo
    requires { number < 32 }
    ensures { result ≡ number }
{
    let Some(volume) = VolumeNo::of(number) else {
        unreachable!()
    };
    volume
}

// VOL001 to VOL009.
fn serial_with(digit: u8) -> Option<Serial>
    ensures { IfSome result (λ serial. serial ≡ 86 ∷ 79 ∷ 76 ∷ 48 ∷ 48 ∷ digit ∷ []) }
{
    Serial::of([b'V', b'O', b'L', b'0', b'0', digit])
}

fn three_of(
    alloc: Global,
    one: Serial,
    four: Serial,
    six: Serial,
    read_only: bool,
) -> Result<Config, NoMemory>
    requires one { one ≡ 86 ∷ 79 ∷ 76 ∷ 48 ∷ 48 ∷ 49 ∷ [] }
    requires four { four ≡ 86 ∷ 79 ∷ 76 ∷ 48 ∷ 48 ∷ 52 ∷ [] }
    requires six { six ≡ 86 ∷ 79 ∷ 76 ∷ 48 ∷ 48 ∷ 54 ∷ [] }
{
    let mut volumes = VolumeList::new(alloc);
    volumes.reserve(3)?;
    volumes.push((volume_at(0), one, false));
    volumes.push((volume_at(3), four, read_only));
    volumes.push((volume_at(5), six, false));
    Ok(Config {
        frames: 8,
        recorders: 1,
        volumes,
    })
}

/// The volumes 0, 3 and 5, as VOL001, VOL004 and VOL006. Volume 3 may be a read-only one.
pub fn three_with(alloc: Global, read_only: bool) -> Option<Config> {
    let one = serial_with(49)?;
    let four = serial_with(52)?;
    let six = serial_with(54)?;
    three_of(alloc, one, four, six, read_only).ok()
}

/// These volumes, all of which can be written.
pub fn three(alloc: Global) -> Option<Config> {
    three_with(alloc, false)
}
