// The versions of one pack.
ghost use Rattle.std.specs.Prelude.{◌≡◌, ◌+◌, ◌<◌, ◌^◌, length, slice_get, IfOk, IsTrue, Some};
ghost use Rattle.pack_codec.specs.Faults as form;
ghost use Rattle.stable_file.specs.Faults.{Gives};
ghost use Rattle.stable_file.specs.Packs.{count_told, has_room, versions_in, versions_at};
ghost use Rattle.column_block.specs.Order.{rise};

use crate::fault::ReadError;
use column_block::{Block, Schema, is_before};
use flash_list::u64_or;
use pack_codec::{FormError, read_pack};
use std::alloc::Global;

/// Whether there is a version, and each stands before the next.
pub fn rise(block: &Block) -> bool
    ensures exact { result ≡ rise block.now }
    ensures some { IsTrue result → 0 < length block.now }
{
    if block.len() == 0 {
        return false;
    }
    for i in 1..block.len() {
        if !is_before(block.at(i - 1), block.at(i)) {
            return false;
        }
    }
    true
}

// How many versions a pack's first bytes tell.
fn count_told(bytes: &[u8]) -> u64
    ensures { result ≡ count_told bytes.now }
{
    match u64_or((), bytes) {
        Ok((count, _)) => count,
        Err(_) => 0,
    }
}

// Whether so many bytes may have the versions that they tell. It takes no memory.
fn has_room(bytes: &[u8]) -> bool
    ensures { result ≡ has_room bytes.now }
{
    count_told(bytes) <= bytes.len() as u64
}

// The versions of the pack that stands from this place up to that end.
#[tactic(auto, unfolding(crate::specs::Packs::versions_in))]
pub fn versions_in(
    alloc: Global,
    bytes: &[u8],
    end: u64,
    at: u64,
    schema: &Schema,
) -> Result<Block, FormError>
    ensures exact { form.Gives (λ block. block) result (versions_in end at schema.now bytes.now) }
    ensures some { IfOk result (λ block. 0 < length block) }
    ensures rising { IfOk result (λ block. IsTrue (rise block)) }
{
    if !has_room(bytes) {
        return Err(FormError::Damaged { at });
    }
    let block = read_pack(alloc, bytes, end, schema)?;
    if !rise(&block) {
        return Err(FormError::Damaged { at });
    }
    Ok(block)
}

/// The versions of the pack that the bytes are, all of them, which stands at the place `at` of its
/// file.
///
/// `Damaged` names the pack's place where its first eight bytes tell more versions than it has bytes,
/// before memory is taken for them; then the first place in the file where the bytes aren't of the
/// form, as `pack_codec::read_pack` says; and the pack's place where it has no version, or where its
/// versions don't rise by handle and then timestamp. It never answers `Device`.
pub fn pack_of(alloc: Global, bytes: &[u8], at: u64, schema: &Schema) -> Result<Block, ReadError>
    requires { at + length bytes.now < 2 ^ 64 }
    ensures exact { Gives (λ block. block) result (versions_at at schema.now bytes.now) }
    ensures rising { IfOk result (λ block. IsTrue (rise block)) }
{
    let block = versions_in(alloc, bytes, at + bytes.len() as u64, at, schema)?;
    Ok(block)
}
