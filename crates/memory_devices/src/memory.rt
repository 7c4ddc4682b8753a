// The blocks of a site in memory.
ghost use Rattle.std.specs.Prelude.{◌≡◌, ℕ, ◌≤◌, ◌+◌, ◌++◌, [], ◌∷◌, length, take, vec_len, false, if◌then◌else◌, OnOk};
ghost use Rattle.indexmap.specs.IndexMap.{spare as map_spare};
ghost use Rattle.mss_base.specs.Content.{with_write, write_at};
ghost use Rattle.memory_devices.specs.Memory.{content_in, same_place};
ghost use Rattle.mss_base.specs.Zeros.{zeros};
ghost use Rattle.mss_base.specs.declared.place.UnitNo.{UnitNo};

use indexmap::IndexMap;
use mss_base::{Block, BlockPlace, NoMemory};
use std::alloc::Global;

/// Blocks that were written. The others are zeros.
pub type Blocks = IndexMap<BlockPlace, Block>;

/// The front of a block: as many bytes as the buffer has.
pub fn read_front(block: &[u8], into: &mut [u8])
    requires { length into.old ≤ length block.now }
    ensures { into.new ≡ take (length into.old) block.now }
{
    into.copy_from_slice(&block[..into.len()]);
}

/// The block at a place; where none was written, the blank one, which is zeros.
pub fn block_of<'a>(blocks: &'a Blocks, place: &BlockPlace, blank: &'a Block) -> &'a [u8]
    requires { blank.now ≡ zeros }
    ensures bytes { result.now ≡ content_in blocks.now place.now.unit place.now.block }
    ensures whole { length result.now ≡ 16384 }
{
    match blocks.get(place) {
        Some(block) => block.as_slice(),
        None => blank.as_slice(),
    }
}

/// Takes a block out, or a new one of zeros.
fn take_block(blocks: &mut Blocks, room: &mut Vec<Block>, place: &BlockPlace) -> Block
    requires { 1 ≤ vec_len room.old }
    ensures block { result ≡ content_in blocks.old place.now.unit place.now.block }
    ensures others { (unit : UnitNo) (block : ℕ)
        → same_place place.now (record { unit = unit; block = block }) ≡ false
        → content_in blocks.new unit block ≡ content_in blocks.old unit block }
    ensures room { vec_len room.old ≤ vec_len room.new + 1 }
    ensures spare { map_spare blocks.old ≤ map_spare blocks.new }
{
    match blocks.swap_remove(place) {
        Some(block) => block,
        None => {
            let mut block = room.pop().unwrap();
            block.clear();
            block
        }
    }
}

/// Puts a block in.
fn put_block(blocks: &mut Blocks, place: BlockPlace, block: Block)
    requires { 1 ≤ map_spare blocks.old }
    ensures held { (unit : UnitNo) (at : ℕ) → content_in blocks.new unit at
        ≡ (if same_place place
        (record { unit = unit; block = at }) then block else content_in blocks.old unit at) }
    ensures spare { map_spare blocks.old ≤ map_spare blocks.new + 1 }
{
    match blocks.insert(place, block) {
        Ok(_) => {}
        Err(_) => unreachable!(),
    }
}

/// Writes into a block.
pub fn write_block(
    blocks: &mut Blocks,
    room: &mut Vec<Block>,
    place: &BlockPlace,
    offset: u16,
    bytes: &[u8],
)
    requires room { 1 ≤ vec_len room.old }
    requires spare { 1 ≤ map_spare blocks.old }
    requires inside { offset + length bytes.now ≤ 16384 }
    ensures written { content_in blocks.new
        ≡ with_write (content_in blocks.old) (write_at place.now offset bytes.now) }
    ensures room { vec_len room.old ≤ vec_len room.new + 1 }
    ensures spare { map_spare blocks.old ≤ map_spare blocks.new + 1 }
{
    let mut block = take_block(blocks, room, place);
    block.write(offset, bytes);
    put_block(blocks, *place, block);
}

/// Puts blocks aside until there are so many.
pub fn reserve_blocks(alloc: Global, room: &mut Vec<Block>, count: usize) -> Result<(), NoMemory>
    ensures room { vec_len room.old ≤ vec_len room.new }
    ensures ok { OnOk result (count ≤ vec_len room.new) }
{
    while room.len() < count {
        room.push(Block::zeros(alloc)?)?;
    }
    Ok(())
}

/// Makes room for one write, and writes into a block.
pub fn grow_block(
    alloc: Global,
    blocks: &mut Blocks,
    room: &mut Vec<Block>,
    place: &BlockPlace,
    offset: u16,
    bytes: &[u8],
) -> Result<(), NoMemory>
    requires inside { offset + length bytes.now ≤ 16384 }
    ensures written { OnOk result
        (content_in blocks.new
        ≡ with_write (content_in blocks.old) (write_at place.now offset bytes.now)) }
{
    reserve_blocks(alloc, room, 1)?;
    blocks.reserve(1)?;
    write_block(blocks, room, place, offset, bytes);
    Ok(())
}
