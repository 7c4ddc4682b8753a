// The track that a row shows, as it is taken.
ghost use Rattle.std.specs.Prelude.{◌≡◌, ◌↔◌, ℕ, [], Some, IsSome, IsTrue, IfOk, IfErr, OnOk};
ghost use Rattle.std.specs.Option.{option_and_then};
ghost use Rattle.mss_base.specs.Content.{content};
ghost use Rattle.mss_base.specs.Sites.{OnlyReads};
ghost use Rattle.ckd_track.specs.Track.{reading};
ghost use Rattle.shown_volumes.specs.Shown.{source, track_at};
ghost use Rattle.volume_copy.specs.Copies.{records_of};
ghost use Rattle.volume_copy.specs.Reads.{FailsAsTold};

use crate::taken::Taken;
use ckd_track::stored_records;
use mss_base::{Block, BlockPlace, Cylinder, Head, NoMemory, Site};
use shown_volumes::shown_place;
use std::alloc::Global;
use volume_table::VolumeRow;

/// Why a track wasn't taken.
#[derive(Clone, Copy)]
pub enum TakeFault {
    /// Its read failed; the site's count of faults behind it.
    Read { fault: u64 },
    /// Memory ran out, and nothing was read.
    Memory,
}

impl From<NoMemory> for TakeFault {
    ghost use Rattle.std.specs.Prelude.{◌≡◌};
    ghost use Rattle.volume_copy.specs.declared.reading.TakeFault.TheVariants.{Memory};

    ghost from_gives = { λ _ told. told ≡ Memory };

    fn from(_: NoMemory) -> Self {
        TakeFault::Memory
    }
}

/// Where a row shows a track, if there is a row and the track isn't blank.
fn place_in(row: &Option<VolumeRow>, cylinder: Cylinder, head: Head) -> Option<BlockPlace>
    ensures { result ≡ option_and_then (λ r. source r cylinder head) row.now }
{
    match row {
        Some(row) => shown_place(row, cylinder, head),
        None => None,
    }
}

/// Whether the track of a block has no record.
pub fn has_no_record(block: &Block) -> bool
    ensures { IsTrue result ↔ ((reading block.now).records ≡ []) }
{
    stored_records(block.as_slice()).next().is_none()
}

/// The track that a row shows: blank where there is no row.
pub fn read_shown<S: Site>(
    alloc: Global,
    site: &mut S,
    row: &Option<VolumeRow>,
    cylinder: Cylinder,
    head: Head,
) -> Result<Taken, TakeFault>
    ensures something { IfOk result (λ taken. IsSome (records_of taken)) }
    ensures track { S.tells → IfOk result (λ taken. records_of taken
        ≡ Some (track_at (content (S.told site.old))
        (option_and_then (λ r. source r cylinder head) row.now))) }
    ensures fault { FailsAsTold S.Site site.old site.new result }
    ensures site { OnlyReads S.Site site.old site.new }
{
    let Some(place) = place_in(row, cylinder, head) else {
        return Ok(Taken::Blank);
    };
    let mut block = Block::zeros(alloc)?;
    if block.read(site, &place).is_err() {
        return Err(TakeFault::Read {
            fault: site.faults(),
        });
    }
    if has_no_record(&block) {
        return Ok(Taken::Blank);
    }
    Ok(Taken::Track(block))
}
