// Cartridges that no row names.
ghost use Rattle.std.specs.Prelude.{◌≡◌, ◌<◌};
ghost use Rattle.volume_table.specs.Listed.{row_in_list};
ghost use Rattle.mss_restart.specs.Cartridges.{is_named, IsLowestFree};

use crate::halves::half_among;
use mss_base::CartridgeNo;
use volume_table::Rows;

/// Whether a row names a cartridge.
fn is_named(rows: &Rows, cartridge: CartridgeNo) -> bool
    ensures { result ≡ is_named (row_in_list rows.now) cartridge }
{
    half_among(rows, cartridge, 32).is_some()
}

fn cartridge_at(number: u16) -> CartridgeNo
    requires { number < 2048 }
    ensures { result ≡ number }
{
    let Some(cartridge) = CartridgeNo::of(number) else {
        unreachable!()
    };
    cartridge
}

/// The lowest cartridge that no row names and that isn't taken. It is one of the first 66, since 64 halves name a
/// cartridge each at most.
pub fn lowest_free(rows: &Rows, taken: Option<CartridgeNo>) -> CartridgeNo
    ensures { IsLowestFree (row_in_list rows.now) taken result }
{
    for number in 0..66 {
        let cartridge = cartridge_at(number);
        if !is_named(rows, cartridge) && taken != Some(cartridge) {
            return cartridge;
        }
    }
    unreachable!()
}
