// Which units' files stand in a folder, by their names.
ghost use Rattle.std.specs.Prelude.{◌≡◌, ◌<◌, ◌≤◌, ◌++◌, ◌∷◌, ℕ, Some, IfSome, length, take, codes, decimal};
ghost use Rattle.mss_base.specs.declared.place.UnitNo.{UnitNo};
ghost use Rattle.mss_base.specs.declared.place.UnitNo.TheVariants.{Staging, Cartridge};
ghost use Rattle.mss_files.specs.Paths.{unit_name, IsUnit};

use mss_base::{CartridgeNo, UnitNo};

/// The first of the names that a look at a folder brings, and what is behind it. Each ends with a
/// zero.
pub fn first_name(names: &[u8]) -> Option<(&[u8], &[u8])>
    ensures parts { IfSome result (λ r. names.now ≡ r.0.now ++ (0 ∷ r.1.now)) }
    ensures shorter { IfSome result (λ r. length r.1.now < length names.now) }
{
    let end = names.iter().position(|byte| *byte == 0)?;
    let (name, rest) = names.split_at(end);
    let (_, behind) = rest.split_first()?;
    Some((name, behind))
}

/// The number that stands behind a word, if one does.
fn number_behind(word: &str, name: &str) -> Option<u16>
    ensures number { (n : ℕ) → n < 65536 → name.now ≡ word.now ++ decimal n
        → result ≡ Some n }
    ensures word { IfSome result (λ _. take (length word.now) name.now ≡ word.now) }
{
    let digits = name.strip_prefix(word)?;
    digits.parse::<u16>().ok()
}

/// The unit whose kind and number this name spells.
fn unit_numbered(name: &str) -> Option<UnitNo>
    ensures staging { (n : ℕ) → n < 256 → name.now ≡ codes "staging_" ++ decimal n
        → result ≡ Some (Staging n) }
    ensures cartridge { (n : ℕ) → n ≤ 2047 → name.now ≡ codes "cartridge_" ++ decimal n
        → result ≡ Some (Cartridge n) }
{
    if let Some(number) = number_behind("staging_", name) {
        return Some(UnitNo::Staging(u8::try_from(number).ok()?));
    }
    let number = number_behind("cartridge_", name)?;
    Some(UnitNo::Cartridge(CartridgeNo::of(number)?))
}

/// The unit whose file has this name, if there is one.
pub fn unit_named(name: &[u8]) -> Option<UnitNo>
    ensures { (unit : UnitNo) → IsUnit unit → name.now ≡ unit_name unit → result ≡ Some unit }
{
    let Ok(name) = std::str::from_utf8(name) else {
        return None;
    };
    if name == "table_a" {
        return Some(UnitNo::TableA);
    }
    if name == "table_b" {
        return Some(UnitNo::TableB);
    }
    unit_numbered(name)
}
