// Formatting a record: at most four writes and three syncs, such that a stop at any moment leaves a track.
ghost use Rattle.std.specs.Prelude.{◌≡◌, ◌⊎◌, ◌↔◌, ◌≤◌, ◌<◌, ℕ, ◌+◌, ◌-◌};
ghost use Rattle.std.specs.Prelude.{List, length, slice_index, IsTrue, OnOk};
ghost use Rattle.mss_base.specs.Blocks.{WritesBlock, block_of};
ghost use Rattle.mss_base.specs.Content.{Settles};
ghost use Rattle.mss_base.specs.Sites.{WritesAtMost};
ghost use Rattle.mss_base.specs.Geometry.{block_bytes, track_records_at, format_items};
ghost use Rattle.ckd_track.specs.Data.{IsTrack};
ghost use Rattle.ckd_track.specs.Track.{reading, reading_of, record_at, place_after, AreBytes};
ghost use Rattle.ckd_track.specs.Formatting.{formatted_records, FitsBehind, IsFormatting, IsPlaceIn, MayFormat};
ghost use Rattle.ckd_track.specs.Formatting.{EndsAfter, EndsBefore, StandsShut, WritesBehind};
ghost use Rattle.ckd_track.specs.Formatting.{HasLaterOpen, LaterGates};

use crate::layout::{FIRST_PLACE, GATES, GATES_END, record_length};
use mss_base::{BLOCK_BYTES, BlockPlace, FIRM_ITEMS, Failed, OPEN, Site, write_firm};

/// How many items of the log the closing of the later gates and the writing of a record make at most: two writes, and
/// one sync behind both.
const BEHIND_ITEMS: u32 = 3;

/// How many items of the log a format makes at most: four writes, and three syncs.
pub const FORMAT_ITEMS: u32 = FIRM_ITEMS + BEHIND_ITEMS + FIRM_ITEMS;

/// What a format has to know of the block that it changes, so that the block need not stay at hand: how many records
/// stay, where the next one begins, and whether its gate is open, or one of the later gates.
#[derive(Clone, Copy)]
pub struct FormatPlace {
    pub before: u8,
    pub begins_at: u16,
    pub gate_open: bool,
    pub later_open: bool,
}

/// Closes the gate of the record behind the ones that stay, where it is open.
fn close_gate<S: Site>(site: &mut S, at: &BlockPlace, place: &FormatPlace) -> Result<(), Failed>
    ghost block: { List ℕ }
    requires looked { IsPlaceIn block place.now }
    requires told { S.tells → block_of (S.told site.old) at.now ≡ block }
    requires room { FIRM_ITEMS ≤ S.spare site.old }
    ensures moments { S.tells → WritesBlock at.now
        (λ b. (b ≡ block) ⊎ EndsAfter place.now.before block b)
        (S.told site.old) (S.told site.new) }
    ensures closed { S.tells →
        OnOk result (EndsBefore place.now.before block (block_of (S.told site.new) at.now)) }
    ensures firm { S.tells → OnOk result (Settles (S.told site.old) (S.told site.new)) }
    ensures site_ { WritesAtMost S.Site FIRM_ITEMS site.old site.new result }
{
    if place.gate_open {
        return write_firm(site, at, GATES + 1 + place.before as u16, &[0]);
    }
    Ok(())
}

static CLOSED: [u8; 97] = [0; 97];

fn closed_gates(count: usize) -> &'static [u8]
    requires few { count ≤ 97 }
    ensures count { length result.now ≡ count }
    ensures closed { (i : ℕ) → i < count → slice_index result.now i ≡ 0 }
{
    &CLOSED[..count]
}

/// Whether a gate behind the one of record `number` is open.
fn any_later_open(block: &[u8], number: u8) -> bool
    requires { length block.now ≡ block_bytes }
    ensures { IsTrue result ↔ HasLaterOpen number block.now }
{
    for place in GATES + 1 + number as u16..GATES_END {
        if block[place as usize] == OPEN {
            return true;
        }
    }
    false
}

/// Closes the later gates, where one of them is open. That is loose then.
fn close_later<S: Site>(site: &mut S, at: &BlockPlace, place: &FormatPlace) -> Result<(), Failed>
    ghost block: { List ℕ }
    requires looked { IsPlaceIn block place.now }
    requires closed { S.tells →
        EndsBefore place.now.before block (block_of (S.told site.old) at.now) }
    requires room { 1 ≤ S.spare site.old }
    ensures behind { S.tells → WritesBehind place.now.before block at.now
        (S.told site.old) (S.told site.new) }
    ensures later { S.tells → OnOk result
        (LaterGates (place.now.before + 1) block (block_of (S.told site.new) at.now)) }
    ensures site_ { WritesAtMost S.Site 1 site.old site.new result }
{
    if place.later_open {
        let next = GATES + 2 + place.before as u16;
        return site.write(
            at.unit,
            at.block,
            next,
            closed_gates(97 - place.before as usize),
        );
    }
    Ok(())
}

/// Closes the later gates, and writes the record's count, key and data behind its closed gate. Both are loose then.
fn write_behind<S: Site>(
    site: &mut S,
    at: &BlockPlace,
    place: &FormatPlace,
    bytes: &[u8],
) -> Result<(), Failed>
    ghost block: { List ℕ }
    requires looked { IsPlaceIn block place.now }
    requires closed { S.tells →
        EndsBefore place.now.before block (block_of (S.told site.old) at.now) }
    requires some { 1 ≤ length bytes.now }
    requires inside { place.now.begins_at + length bytes.now ≤ block_bytes }
    requires room { 2 ≤ S.spare site.old }
    ensures behind { S.tells → WritesBehind place.now.before block at.now
        (S.told site.old) (S.told site.new) }
    ensures stands { S.tells → OnOk result
        (StandsShut place.now.before bytes.now block (block_of (S.told site.new) at.now)) }
    ensures site_ { WritesAtMost S.Site 2 site.old site.new result }
{
    close_later(site, at, place)?;
    site.write(at.unit, at.block, place.begins_at, bytes)
}

/// Closes the later gates, and writes the record behind its closed gate: at Ok that is firm.
#[tactic(auto, using(crate::proofs::BehindLemmas::behind_firm))]
fn put_behind<S: Site>(
    site: &mut S,
    at: &BlockPlace,
    place: &FormatPlace,
    bytes: &[u8],
) -> Result<(), Failed>
    ghost block: { List ℕ }
    requires looked { IsPlaceIn block place.now }
    requires closed { S.tells →
        EndsBefore place.now.before block (block_of (S.told site.old) at.now) }
    requires some { 1 ≤ length bytes.now }
    requires inside { place.now.begins_at + length bytes.now ≤ block_bytes }
    requires room { BEHIND_ITEMS ≤ S.spare site.old }
    ensures moments { S.tells → WritesBlock at.now (EndsAfter place.now.before block)
        (S.told site.old) (S.told site.new) }
    ensures stands { S.tells → OnOk result
        (StandsShut place.now.before bytes.now block (block_of (S.told site.new) at.now)) }
    ensures firm { S.tells → OnOk result (Settles (S.told site.old) (S.told site.new)) }
    ensures site_ { WritesAtMost S.Site BEHIND_ITEMS site.old site.new result }
{
    write_behind(site, at, place, bytes)?;
    site.sync(at.unit)
}

/// Opens the gate of the record that stands in its place.
fn open_gate<S: Site>(
    site: &mut S,
    at: &BlockPlace,
    place: &FormatPlace,
    bytes: &[u8],
) -> Result<(), Failed>
    ghost block: { List ℕ }
    requires looked { IsPlaceIn block place.now }
    requires stands { S.tells →
        StandsShut place.now.before bytes.now block (block_of (S.told site.old) at.now) }
    requires fits { FitsBehind place.now.before bytes.now block }
    requires room { FIRM_ITEMS ≤ S.spare site.old }
    ensures moments { S.tells → WritesBlock at.now
        (λ b. EndsAfter place.now.before block b ⊎ (reading b ≡ reading_of
        (formatted_records place.now.before (record_at 0 bytes.now) (reading block).records)))
        (S.told site.old) (S.told site.new) }
    ensures done { S.tells → OnOk result (reading (block_of (S.told site.new) at.now)
        ≡ reading_of (formatted_records place.now.before (record_at 0 bytes.now)
        (reading block).records)) }
    ensures later { S.tells → OnOk result
        (LaterGates (place.now.before + 1) block (block_of (S.told site.new) at.now)) }
    ensures firm { S.tells → OnOk result (Settles (S.told site.old) (S.told site.new)) }
    ensures site_ { WritesAtMost S.Site FIRM_ITEMS site.old site.new result }
{
    write_firm(site, at, GATES + 1 + place.before as u16, &[OPEN])
}

/// Formats a record at a place that a look at the block gave.
fn format_at<S: Site>(
    site: &mut S,
    at: &BlockPlace,
    place: &FormatPlace,
    bytes: &[u8],
) -> Result<(), Failed>
    ghost block: { List ℕ }
    requires looked { IsPlaceIn block place.now }
    requires told { S.tells → block_of (S.told site.old) at.now ≡ block }
    requires fits { FitsBehind place.now.before bytes.now block }
    requires room { format_items ≤ S.spare site.old }
    ensures moments { S.tells → WritesBlock at.now
        (λ b. IsFormatting place.now.before (record_at 0 bytes.now) (reading block) (reading b))
        (S.told site.old) (S.told site.new) }
    ensures done { S.tells → OnOk result (reading (block_of (S.told site.new) at.now)
        ≡ reading_of (formatted_records place.now.before (record_at 0 bytes.now)
        (reading block).records)) }
    ensures later { S.tells → OnOk result
        (LaterGates (place.now.before + 1) block (block_of (S.told site.new) at.now)) }
    ensures firm { S.tells → OnOk result (Settles (S.told site.old) (S.told site.new)) }
    ensures site_ { WritesAtMost S.Site format_items site.old site.new result }
{
    prove!(place.begins_at as usize + bytes.len() <= BLOCK_BYTES);
    close_gate(site, at, place)?;
    put_behind(site, at, place, bytes)?;
    open_gate(site, at, place, bytes)
}

/// The place of the record behind `before` others.
fn record_place(block: &[u8], before: u8) -> u16
    requires whole { length block.now ≡ block_bytes }
    requires there { before ≤ length (reading block.now).records }
    ensures { result ≡ place_after before track_records_at block.now }
{
    let mut place = FIRST_PLACE;
    for i in 0..before {
        place += record_length(block, place);
    }
    place as u16
}

/// Looks where a record behind `before` others goes.
fn format_place(block: &[u8], before: u8) -> FormatPlace
    requires whole { length block.now ≡ block_bytes }
    requires few { before ≤ 96 }
    requires there { before ≤ length (reading block.now).records }
    ensures place { IsPlaceIn block.now result }
    ensures before { result.before ≡ before }
    ensures bytes { AreBytes block.now }
{
    let gate_open = block[GATES as usize + 1 + before as usize] == OPEN;
    let later_open = any_later_open(block, before + 1);
    let begins_at = record_place(block, before);
    FormatPlace {
        before,
        begins_at,
        gate_open,
        later_open,
    }
}

/// Formats record `number`: it becomes the last of its track, behind the records before it.
///
/// The block at the place is the one that was brought last, and `count_key_data` a count of eight bytes
/// (CC HH R KL DL DL), KL bytes of key and DL bytes of data. It makes at most four writes and three syncs, and at Ok
/// what it wrote is firm, and no later gate is open: all are closed where one of them was. A stop at any moment leaves
/// the old track, the track ended before the record, or the new track. Where it fails, the site's count of faults has
/// risen.
pub fn format_record<S: Site>(
    site: &mut S,
    at: &BlockPlace,
    number: u8,
    count_key_data: &[u8],
) -> Result<(), Failed>
    requires brought { S.tells → block_of (S.told site.old) at.now ≡ S.brought site.old }
    requires fits { MayFormat number count_key_data.now (S.brought site.old) }
    requires room { format_items ≤ S.spare site.old }

    ensures moments { S.tells → WritesBlock at.now
        (λ b. IsFormatting (number - 1) (record_at 0 count_key_data.now)
        (reading (S.brought site.old)) (reading b)) (S.told site.old) (S.told site.new) }
    ensures done { S.tells → OnOk result (reading (block_of (S.told site.new) at.now)
        ≡ reading_of (formatted_records (number - 1) (record_at 0 count_key_data.now)
        (reading (S.brought site.old)).records)) }
    ensures later { S.tells → OnOk result (LaterGates number (S.brought site.old)
        (block_of (S.told site.new) at.now)) }
    ensures track { OnOk result (IsTrack (formatted_records (number - 1)
        (record_at 0 count_key_data.now) (reading (S.brought site.old)).records)) }
    ensures firm { S.tells → OnOk result (Settles (S.told site.old) (S.told site.new)) }
    ensures site_ { WritesAtMost S.Site format_items site.old site.new result }
{
    let before = number - 1;
    prove!(before <= 96);
    let place = format_place(site.brought(), before);
    format_at(site, at, &place, count_key_data)
}
