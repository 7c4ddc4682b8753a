// Writing a row.
ghost use Rattle.std.specs.Prelude.{◌≡◌, ◌≤◌, ◌+◌, length, map, Ok};
ghost use Rattle.mss_base.specs.Content.{splice};
ghost use Rattle.volume_table.specs.States.{state_number};
ghost use Rattle.volume_table.specs.Grammar.{spelling, page_byte, mark_byte, body, decode};

use crate::layout::{
    BODY, FIRST_AT, MARK_AT, PAGES_AT, ROW_BYTES, SECOND_AT, SERIAL_AT, SPARES, SPARES_AT,
    STATES_AT, VERSION, VERSION_AT,
};
use crate::row::VolumeRow;
use crate::state::CylinderState;
use mss_base::FrameNo;

/// Puts bytes in from a place on.
fn put(into: &mut [u8], at: usize, bytes: &[u8])
    requires { at + length bytes.now ≤ length into.old }
    ensures { into.new ≡ splice at bytes.now into.old }
{
    into[at..at + bytes.len()].copy_from_slice(bytes);
}

fn page_byte(page: &Option<FrameNo>) -> u8
    ensures { result ≡ page_byte page.now }
{
    match page {
        Some(frame) => frame.get(),
        None => 255,
    }
}

fn put_pages(into: &mut [u8], at: usize, pages: &[Option<FrameNo>])
    requires { at + length pages.now ≤ length into.old }
    ensures { into.new ≡ splice at (map page_byte pages.now) into.old }
{
    for (page, frame) in pages.iter().enumerate() {
        put(into, at + page, &[page_byte(frame)]);
    }
}

fn put_states(into: &mut [u8], at: usize, states: &[CylinderState])
    requires { at + length states.now ≤ length into.old }
    ensures { into.new ≡ splice at (map state_number states.now) into.old }
{
    for (cylinder, state) in states.iter().enumerate() {
        put(into, at + cylinder, &[state.number()]);
    }
}

/// The mark of a volume that is read-only, or isn't.
pub fn mark_byte(read_only: bool) -> u8
    ensures { result ≡ mark_byte read_only }
{
    if read_only { 1 } else { 0 }
}

fn put_row(row: &VolumeRow, into: &mut [u8])
    requires { length into.old ≡ ROW_BYTES }
    ensures { into.new ≡ splice 1 (spelling row.now) into.old }
{
    put(into, BODY + VERSION_AT, &[VERSION]);
    put(into, BODY + SERIAL_AT, row.serial.as_slice());
    put(into, BODY + FIRST_AT, &row.first.get().to_be_bytes());
    put(into, BODY + SECOND_AT, &row.second.get().to_be_bytes());
    put_pages(into, BODY + PAGES_AT, row.pages.as_slice());
    put(into, BODY + MARK_AT, &[mark_byte(row.read_only)]);
    put_states(into, BODY + STATES_AT, row.states.as_slice());
    put(into, BODY + SPARES_AT, &[0; SPARES]);
}

/// Spells a row into 512 bytes, in version 2, so that it is read back. The bytes 0 and 511 stay.
pub fn encode_row(row: &VolumeRow, into: &mut [u8])
    requires { length into.old ≡ ROW_BYTES }
    ensures bytes { into.new ≡ splice 1 (spelling row.now) into.old }
    ensures body { body into.new ≡ spelling row.now }
    ensures again { decode (body into.new) ≡ Ok row.now }
{
    let _ = &row.states;
    put_row(row, into);
}
