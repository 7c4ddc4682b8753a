// The volumes of a configuration, by their numbers.
ghost use Rattle.std.specs.Prelude.{◌≡◌, ◌==◌};
ghost use Rattle.std.specs.List.{find};

use mss_base::{Serial, VolumeNo};

/// The volume with a number, if there is one.
pub fn volume_with(
    volumes: &[(VolumeNo, Serial, bool)],
    number: u8,
) -> Option<(VolumeNo, Serial, bool)>
    ensures { result ≡ find (λ v. v.0 == number) volumes.now }
{
    volumes.iter().copied().find(|v| v.0.get() == number)
}
