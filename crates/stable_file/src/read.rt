// Stable files that are read through a reader.
ghost use Rattle.std.specs.Prelude.{◌≡◌, ◌<◌, ◌≤◌, ◌-◌, length, take, drop, slice_get, IfOk, IfErr, IsTrue, Some};
ghost use Rattle.stable_file.specs.declared.pack.Pack.{Pack};
ghost use Rattle.stable_file.specs.Opened.{packs_of, schema_of, grip_of, ArePacks};
ghost use Rattle.stable_file.specs.Faults.{GivesOrDevice, HasReadCause, IsOutside};
ghost use Rattle.stable_file.specs.Footer.{size_at, tail_at};
ghost use Rattle.column_block.specs.Order.{rise};
ghost use Rattle.stable_file.specs.Ranges.{told_in};

use crate::fault::ReadError;
use crate::file::{StableFile, made};
use crate::footer::{footer_of, size_of};
use crate::pack::Pack;
use crate::ranges::told_of;
use column_block::{Block, Column, Schema};
use flash_io::{DiskFault, Reader};
use flash_list::Items;
use std::alloc::Global;

// At most so many bytes of the file from a place on, fewer only at its end. So many that their
// number hasn't 32 bits find no memory.
fn bytes_at<R: Reader>(
    alloc: Global,
    reader: &mut R,
    grip: &R::Grip,
    at: u64,
    len: u64,
) -> Result<Vec<u8>, ReadError>
    ensures told { R.Grip.tells → IfOk result (λ bytes. bytes.items ≡ take len (drop at (R.Grip.bytes grip.now))) }
    ensures outside { IfErr result IsOutside }
    ensures cause { HasReadCause (R.fault_count reader.old) (R.fault_count reader.new) result }
{
    let Ok(len) = u32::try_from(len) else {
        return Err(ReadError::Memory);
    };
    let mut bytes = Vec::new(alloc);
    match reader.read_at(grip, at, len, &mut bytes) {
        Ok(_) => Ok(bytes),
        Err(DiskFault::Failed) => Err(ReadError::Device),
        Err(DiskFault::Memory) => Err(ReadError::Memory),
    }
}

// The versions of a pack where the footer tells that it lies.
fn pack_in<R: Reader>(
    alloc: Global,
    pack: &Pack,
    schema: &Schema,
    grip: &R::Grip,
    reader: &mut R,
) -> Result<Block, ReadError>
    ensures exact { R.Grip.tells → GivesOrDevice (λ block. block) result (told_in pack.now schema.now (R.Grip.bytes grip.now)) }
    ensures rising { IfOk result (λ block. IsTrue (rise block)) }
    ensures cause { HasReadCause (R.fault_count reader.old) (R.fault_count reader.new) result }
{
    let bytes = bytes_at(alloc, reader, grip, pack.place, pack.len)?;
    let end = pack.place.saturating_add(bytes.len() as u64);
    let block = told_of(alloc, pack, end, bytes.as_slice(), schema)?;
    Ok(block)
}

// The footer's length, in the last twelve bytes.
fn size_in<R: Reader>(
    alloc: Global,
    grip: &R::Grip,
    len: u64,
    reader: &mut R,
) -> Result<u64, ReadError>
    requires some { 12 ≤ len }
    requires told { R.Grip.tells → length (R.Grip.bytes grip.now) ≡ len }
    ensures exact { R.Grip.tells → GivesOrDevice (λ size. size) result (size_at len (len - 12) (drop (len - 12) (R.Grip.bytes grip.now))) }
    ensures within { IfOk result (λ size. (8 ≤ size) × (size ≤ len - 12)) }
    ensures cause { HasReadCause (R.fault_count reader.old) (R.fault_count reader.new) result }
{
    let last = bytes_at(alloc, reader, grip, len - 12, 12)?;
    let size = size_of(len, len - 12, last.as_slice())?;
    Ok(size)
}

// The packs that the footer tells.
fn packs_in<R: Reader>(
    alloc: Global,
    grip: &R::Grip,
    len: u64,
    reader: &mut R,
    columns: &[Column],
) -> Result<Items<Pack>, ReadError>
    requires { R.Grip.tells → length (R.Grip.bytes grip.now) ≡ len }
    ensures exact { R.Grip.tells → GivesOrDevice (λ packs. packs) result (tail_at len columns.now (R.Grip.bytes grip.now)) }
    ensures lawful { IfOk result ArePacks }
    ensures cause { HasReadCause (R.fault_count reader.old) (R.fault_count reader.new) result }
{
    if len < 12 {
        return Err(ReadError::Damaged { at: len });
    }
    let size = size_in(alloc, grip, len, reader)?;
    let footer = bytes_at(alloc, reader, grip, len - 12 - size, size)?;
    if (footer.len() as u64) < size {
        return Err(ReadError::Damaged { at: len });
    }
    let packs = footer_of(alloc, len - 12, columns, footer.as_slice())?;
    Ok(packs)
}

/// Opens the stable file of this length through a reader: it reads the last twelve bytes and the
/// footer, and no pack. The form, and where the file is `Damaged`, are those of `attach`.
///
/// `Device` comes only where the reader's count of faults rose, which is as it was at any other
/// answer; a footer of 4 GiB and more finds no memory.
pub fn open<R: Reader>(
    alloc: Global,
    grip: R::Grip,
    len: u64,
    reader: &mut R,
    schema: &Schema,
) -> Result<StableFile<R::Grip>, ReadError>
    requires { R.Grip.tells → length (R.Grip.bytes grip) ≡ len }
    ensures exact { R.Grip.tells → GivesOrDevice packs_of result (tail_at len schema.now (R.Grip.bytes grip)) }
    ensures schema { IfOk result (λ file. schema_of file ≡ schema.now) }
    ensures grip { IfOk result (λ file. grip_of file ≡ grip) }
    ensures cause { HasReadCause (R.fault_count reader.old) (R.fault_count reader.new) result }
{
    let packs = packs_in(alloc, &grip, len, reader, schema.columns())?;
    match made(alloc, grip, schema, packs) {
        Ok(file) => Ok(file),
        Err(_) => Err(ReadError::Memory),
    }
}

/// The versions of a pack. Packs are counted from 0.
///
/// `Damaged` names the pack's place where its first eight bytes tell more versions than it has bytes,
/// before memory is taken for them; then the first place in the file where the pack isn't of the form,
/// as `pack_codec::read_pack` says; and the pack's place where it has no version, where its versions
/// don't rise by handle and then timestamp, and where the footer belies it: its number of versions,
/// its first and last handle, or the range of a column's numbers. `Device` comes only where the
/// reader's count of faults rose, which is as it was at any other answer; a pack of 4 GiB and more
/// finds no memory.
pub fn read_pack<R: Reader>(
    file: &StableFile<R::Grip>,
    alloc: Global,
    reader: &mut R,
    k: u64,
) -> Result<Block, ReadError>
    requires { k < length (packs_of file.now) }
    ensures exact { R.Grip.tells → (pack : Pack) → slice_get (packs_of file.now) k ≡ Some pack → GivesOrDevice (λ block. block) result (told_in pack (schema_of file.now) (R.Grip.bytes (grip_of file.now))) }
    ensures rising { IfOk result (λ block. IsTrue (rise block)) }
    ensures cause { HasReadCause (R.fault_count reader.old) (R.fault_count reader.new) result }
{
    let parts = file.parts();
    pack_in(
        alloc,
        parts.packs.at(k as usize),
        &parts.schema,
        &parts.grip,
        reader,
    )
}
