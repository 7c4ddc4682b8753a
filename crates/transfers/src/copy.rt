// The copy of one track.
ghost use Rattle.std.specs.Prelude.{◌≡◌, ◌≤◌, ◌<◌, ◌+◌, Bool, false, length, IsSome, IsOk, OnOk, OnErr};
ghost use Rattle.std.specs.Option.{ForSome};
ghost use Rattle.mss_base.specs.Content.{content, Adds};
ghost use Rattle.mss_base.specs.Counts.{HasCause, Rises};
ghost use Rattle.mss_base.specs.Sites.{OnlyReads, MayWrite};
ghost use Rattle.mss_base.specs.declared.place.UnitNo.{UnitNo};
ghost use Rattle.transfers.specs.Copies.{source, source_place, copy_of, moved_on, AddsAtMost, CopiesTrack};
ghost use Rattle.mss_base.specs.Geometry.{block_bytes, cylinder_heads};

use crate::transfer::Transfer;
use mss_base::{BlockPlace, Failed, Head, Site, clear_block, read_whole};

/// Puts into the buffer what the track of a head is copied from.
fn read_source<S: Site>(
    site: &mut S,
    transfer: &Transfer,
    head: Head,
    buffer: &mut [u8],
) -> Result<(), Failed>
    requires { length buffer.old ≡ block_bytes }
    ensures bytes { S.tells →
        OnOk result (buffer.new ≡ source transfer.now head (content (S.told site.old))) }
    ensures reads { OnlyReads S.Site site.old site.new }
    ensures asked { OnErr result (IsSome (source_place transfer.now head)) }
    ensures cause { HasCause (S.faults site.old) (S.faults site.new) result }
    ensures works { (but : UnitNo → Bool) → S.never_fails_but site.old but
        → ForSome (source_place transfer.now head) (λ place. but place.unit ≡ false)
        → IsOk result }
{
    match transfer.source(head) {
        Some(from) => read_whole(site, &from, buffer),
        None => {
            clear_block(buffer);
            Ok(())
        }
    }
}

/// Writes a whole block.
fn write_block<S: Site>(site: &mut S, to: &BlockPlace, block: &[u8]) -> Result<(), Failed>
    requires whole { length block.now ≡ block_bytes }
    requires room { 1 ≤ S.spare site.old }
    ensures written { S.tells →
        OnOk result (Adds (copy_of to.now block.now) (S.told site.old) (S.told site.new)) }
    ensures logged { S.tells → AddsAtMost to.now (S.told site.old) (S.told site.new) }
    ensures devices { MayWrite S.Site 1 site.old site.new }
    ensures wrote { Rises (S.writes site.old) (S.writes site.new) }
    ensures cause { HasCause (S.faults site.old) (S.faults site.new) result }
    ensures works { (but : UnitNo → Bool) → S.never_fails_but site.old but → IsOk result }
{
    site.write(to.unit, to.block, 0, block)
}

/// Copies the next track of a transfer: one whole block, which then equals its source, or is zeros where blank tracks are
/// staged. `buffer` is room for one block, and may hold anything afterwards.
///
/// It reads once at most and writes once at most, and takes no memory. It fails only where that read or that write
/// failed. The transfer is then as it was, and the block copied to may hold anything where the write failed.
pub fn copy_track<S: Site>(
    site: &mut S,
    transfer: &mut Transfer,
    buffer: &mut [u8],
) -> Result<(), Failed>
    requires more { transfer.old.next < cylinder_heads }
    requires buffer { length buffer.old ≡ block_bytes }
    requires room { 1 ≤ S.spare site.old }
    ensures copies { CopiesTrack S.Site transfer.old site.old site.new result }
    ensures done { OnOk result (transfer.new ≡ moved_on transfer.old) }
    ensures failed { OnErr result (transfer.new ≡ transfer.old) }
{
    let Some(head) = Head::of(transfer.next) else {
        unreachable!()
    };
    read_source(site, transfer, head, buffer)?;
    write_block(site, &transfer.target(head), buffer)?;
    transfer.next += 1;
    Ok(())
}
