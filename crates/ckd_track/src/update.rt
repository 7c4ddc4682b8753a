// Updating a record: one write and a sync, such that a stop at any moment changes that record's bytes alone.
ghost use Rattle.std.specs.Prelude.{◌≡◌, ◌≤◌, ◌<◌, ◌+◌, ◌-◌, [], length, OnOk};
ghost use Rattle.mss_base.specs.Blocks.{WritesBlock, block_of};
ghost use Rattle.mss_base.specs.Content.{Settles};
ghost use Rattle.mss_base.specs.Sites.{WritesAtMost};
ghost use Rattle.mss_base.specs.Geometry.{block_bytes, update_items};
ghost use Rattle.ckd_track.specs.Track.{reading, record_length};
ghost use Rattle.ckd_track.specs.Updating.{IsUpdating, MayUpdate, updated_records, bytes_place};

use crate::layout::key_length;
use mss_base::{BlockPlace, Failed, Site, write_firm};

/// The place of the data, or of the key and data, of the record at a place.
fn bytes_place(block: &[u8], place: u16, key_too: bool) -> u16
    requires whole { length block.now ≡ block_bytes }
    requires inside { place + record_length place block.now ≤ length block.now }
    ensures { result ≡ bytes_place key_too place block.now }
{
    let key_place = place + 8;
    if key_too {
        return key_place;
    }
    key_place + key_length(block, place as usize) as u16
}

/// Updates record `number` with bytes for its data, or with `key_too` for its key and data.
///
/// The block at the place is the one that was brought last, `place` is where the record begins in it (`find_place`),
/// and `bytes` are as many as the record has. It makes one write and a sync, or nothing of no bytes, and at Ok what it
/// wrote is firm. At any moment the track is the old one with some bytes of that length in the record. Where it fails,
/// the site's count of faults has risen.
pub fn update_record<S: Site>(
    site: &mut S,
    at: &BlockPlace,
    number: u8,
    place: u16,
    key_too: bool,
    bytes: &[u8],
) -> Result<(), Failed>
    requires brought { S.tells → block_of (S.told site.old) at.now ≡ S.brought site.old }
    requires found { MayUpdate number place key_too bytes.now (S.brought site.old) }
    requires room { update_items ≤ S.spare site.old }

    ensures moments { S.tells → WritesBlock at.now
        (λ b. IsUpdating key_too (number - 1) (reading (S.brought site.old)) (reading b))
        (S.told site.old) (S.told site.new) }
    ensures done { S.tells → OnOk result (reading (block_of (S.told site.new) at.now)
        ≡ record (reading (S.brought site.old)) {
          records = updated_records key_too (number - 1) bytes.now
              (reading (S.brought site.old)).records;
        }) }
    ensures untouched { bytes.now ≡ [] → site.new ≡ site.old }
    ensures firm { S.tells → OnOk result (Settles (S.told site.old) (S.told site.new)) }
    ensures site_ { WritesAtMost S.Site update_items site.old site.new result }
{
    let offset = bytes_place(site.brought(), place, key_too);
    if bytes.is_empty() {
        return Ok(());
    }
    write_firm(site, at, offset, bytes)
}
