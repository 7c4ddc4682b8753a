// Reading a row.
ghost use Rattle.std.specs.Prelude.{◌≡◌, ◌≤◌, ◌<◌, ℕ, ◌*◌, ◌+◌, ◌||◌, ◌==◌, nat_lt, None, length, map, IfOk, slice_index};
ghost use Rattle.mss_base.specs.Geometry.{volume_cylinders, row_body_bytes, row_mark_at, volume_pages, row_spares};
ghost use Rattle.volume_table.specs.Grammar.{◌then◌, pages_part, states_part, spares_part};
ghost use Rattle.volume_table.specs.Grammar.{body, decode, row_at, first_fault, first_in, unless, two_at, cartridge_fault, serial_fault, is_page_byte, page_fault, is_state, state_fault, spare_fault, mark_fault, is_old, Finds, Gives};

use crate::fault::{DecodeFault, RowFault, RowField};
use crate::layout::{
    BODY, BODY_BYTES, BODY_END, FIRST_AT, MARK_AT, OLD_VERSION, PAGES, PAGES_AT, ROW_BYTES,
    SECOND_AT, SERIAL_AT, SPARES, SPARES_AT, STATES, STATES_AT, VERSION, VERSION_AT,
};
use crate::lists::{pages_of, states_of};
use crate::row::VolumeRow;
use mss_base::{CartridgeNo, NoMemory, Serial, is_serial_byte};
use std::alloc::Global;

fn check(good: bool, field: RowField, value: u16) -> Result<(), RowFault>
    ensures { Finds result (unless good field value) }
{
    if good {
        Ok(())
    } else {
        Err(RowFault { field, value })
    }
}

fn check_serial(bytes: &[u8]) -> Result<(), RowFault>
    requires { length bytes.now ≡ 6 }
    ensures { Finds result (first_in serial_fault 0 bytes.now) }
{
    for (i, byte) in bytes.iter().enumerate() {
        check(
            is_serial_byte(*byte),
            RowField::Serial(i as u8),
            *byte as u16,
        )?;
    }
    Ok(())
}

fn is_page_byte(byte: u8) -> bool
    ensures { result ≡ is_page_byte byte }
{
    byte < 200 || byte == 255
}

fn check_pages(bytes: &[u8]) -> Result<(), RowFault>
    requires { length bytes.now ≡ volume_pages }
    ensures { Finds result (first_in page_fault 0 bytes.now) }
{
    // Of many volumes no page has a frame. One comparison tells it.
    if bytes == [255; PAGES].as_slice() {
        return Ok(());
    }
    for (page, byte) in bytes.iter().enumerate() {
        check(
            is_page_byte(*byte),
            RowField::Page(page as u8),
            *byte as u16,
        )?;
    }
    Ok(())
}

fn is_state(has_frame: bool, state: u8) -> bool
    ensures { result ≡ is_state has_frame state }
{
    state < 2 || (state < 5 && has_frame)
}

fn check_states(pages: &[u8], bytes: &[u8]) -> Result<(), RowFault>
    requires pages { length pages.now ≡ volume_pages }
    requires states { length bytes.now ≡ volume_cylinders }
    ensures { Finds result (first_in (state_fault pages.now) 0 bytes.now) }
{
    // Many volumes are blank throughout, and a blank cylinder needs no frame.
    if bytes == [0; STATES].as_slice() {
        return Ok(());
    }
    for (cylinder, byte) in bytes.iter().enumerate() {
        let good = is_state(pages[cylinder / 8] < 200, *byte);
        check(good, RowField::State(cylinder as u16), *byte as u16)?;
    }
    Ok(())
}

fn check_spares(bytes: &[u8]) -> Result<(), RowFault>
    requires { length bytes.now ≡ row_spares }
    ensures { Finds result (first_in spare_fault 1 bytes.now) }
{
    // One comparison tells that all are 0. The loop finds the first that isn't.
    if bytes == [0; SPARES].as_slice() {
        return Ok(());
    }
    for (i, byte) in bytes.iter().enumerate() {
        check(*byte == 0, RowField::Spare(i as u8 + 1), *byte as u16)?;
    }
    Ok(())
}

/// The number of two bytes, the higher one first.
fn two_at(body: &[u8], place: usize) -> u16
    requires { place + 1 < length body.now }
    ensures { result ≡ two_at place body.now }
{
    u16::from_be_bytes([body[place], body[place + 1]])
}

fn check_mark(is_old: bool, mark: u8) -> Result<(), RowFault>
    ensures { Finds result (mark_fault is_old mark) }
{
    if is_old {
        check(mark == 0, RowField::Spare(0), mark as u16)
    } else {
        check(mark < 2, RowField::Mark, mark as u16)
    }
}

/// Looks for the first field from the pages on that no row has so.
fn check_places(body: &[u8]) -> Result<(), RowFault>
    requires { length body.now ≡ row_body_bytes }
    ensures { Finds result (first_in page_fault 0 (pages_part body.now)
        then mark_fault (is_old body.now) (slice_index body.now row_mark_at)
        then first_in (state_fault (pages_part body.now)) 0 (states_part body.now)
        then first_in spare_fault 1 (spares_part body.now)) }
{
    check_pages(&body[PAGES_AT..MARK_AT])?;
    check_mark(body[VERSION_AT] == OLD_VERSION, body[MARK_AT])?;
    check_states(&body[PAGES_AT..MARK_AT], &body[STATES_AT..SPARES_AT])?;
    check_spares(&body[SPARES_AT..BODY_BYTES])
}

/// Looks for the first field of a body that no row has so.
#[tactic(auto, unfolding(crate::specs::Grammar::first_fault))]
fn check_body(body: &[u8]) -> Result<(), RowFault>
    requires { length body.now ≡ row_body_bytes }
    ensures { Finds result (first_fault body.now) }
{
    let version = body[VERSION_AT];
    let first = two_at(body, FIRST_AT);
    let second = two_at(body, SECOND_AT);
    let is_known = version == OLD_VERSION || version == VERSION;
    check(is_known, RowField::Version, version as u16)?;
    check_serial(&body[SERIAL_AT..FIRST_AT])?;
    check(first < 2048, RowField::First, first)?;
    check(second < 2048, RowField::Second, second)?;
    check_places(body)
}

/// The row of a body that is in the grammar.
fn row_of(alloc: Global, body: &[u8]) -> Result<VolumeRow, NoMemory>
    requires long { length body.now ≡ row_body_bytes }
    requires good { first_fault body.now ≡ None }
    ensures { IfOk result (λ row. row ≡ row_at body.now) }
{
    let pages = pages_of(alloc, &body[PAGES_AT..MARK_AT])?;
    let states = states_of(alloc, &body[STATES_AT..SPARES_AT])?;
    let serial = Serial::of([body[1], body[2], body[3], body[4], body[5], body[6]]).unwrap();
    let first = CartridgeNo::of(two_at(body, FIRST_AT)).unwrap();
    let second = CartridgeNo::of(two_at(body, SECOND_AT)).unwrap();
    Ok(VolumeRow {
        serial,
        read_only: body[MARK_AT] == 1,
        first,
        second,
        pages,
        states,
    })
}

/// Whether the body in the first 512 bytes is of version 1, which has no mark.
pub fn is_old(bytes: &[u8]) -> bool
    requires { ROW_BYTES ≤ length bytes.now }
    ensures { result ≡ is_old (body bytes.now) }
{
    bytes[BODY + VERSION_AT] == OLD_VERSION
}

/// Whether 512 bytes spell a row, in version 1 or 2; else the first field, in order of places, that no row has so.
///
/// The bytes 0 and 511 are not looked at. It takes no memory.
pub fn check_row(bytes: &[u8]) -> Result<(), RowFault>
    requires { length bytes.now ≡ ROW_BYTES }
    ensures { Finds result (first_fault (body bytes.now)) }
{
    check_body(&bytes[BODY..BODY_END])
}

/// The row that 512 bytes spell, in version 1 or 2, or the first field, in order of places, that no row has so.
///
/// The bytes 0 and 511 are not looked at. What was refused is known before memory is taken.
pub fn decode_row(alloc: Global, bytes: &[u8]) -> Result<VolumeRow, DecodeFault>
    requires { length bytes.now ≡ ROW_BYTES }
    ensures { Gives result (decode (body bytes.now)) }
{
    let body = &bytes[BODY..BODY_END];
    if let Err(fault) = check_body(body) {
        return Err(DecodeFault::Bad(fault));
    }
    Ok(row_of(alloc, body)?)
}
