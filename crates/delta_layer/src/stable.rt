// The versions of a stable part.
ghost use Rattle.std.specs.Prelude.{◌≡◌, ◌<◌, ◌++◌, true, length, slice_get, IfOk, OnOk, IsTrue, Ok, Some};
ghost use Rattle.stable_file.specs.Faults.{GivesOrDevice, HasReadCause};
ghost use Rattle.stable_file.specs.Opened.{packs_of, schema_of, grip_of};
ghost use Rattle.column_block.specs.Order.{rise, rises};
ghost use Rattle.stable_file.specs.declared.pack.Pack.{Pack};
ghost use Rattle.delta_layer.specs.Stable.{packs_in, stable_in, with_pack};

use column_block::{Block, is_before};
use flash_io::Reader;
use stable_file::{ReadError, StableFile, read_pack};
use std::alloc::Global;

// The versions of a segment's stable part, in order.
pub fn stable_versions<R: Reader>(
    alloc: Global,
    part: &Option<StableFile<R::Grip>>,
    reader: &mut R,
) -> Result<Block, ReadError>
    ensures exact { R.Grip.tells → GivesOrDevice (λ versions. versions) result (stable_in R.Grip.bytes part.now) }
    ensures rising { IfOk result (λ versions. IsTrue (rises versions)) }
    ensures cause { HasReadCause (R.fault_count reader.old) (R.fault_count reader.new) result }
{
    match part {
        None => Ok(Block::new(alloc)),
        Some(file) => file_versions(alloc, file, reader),
    }
}

// The versions of a stable file, pack by pack.
fn file_versions<R: Reader>(
    alloc: Global,
    file: &StableFile<R::Grip>,
    reader: &mut R,
) -> Result<Block, ReadError>
    ensures exact { R.Grip.tells → GivesOrDevice (λ versions. versions) result (packs_in (schema_of file.now) (R.Grip.bytes (grip_of file.now)) (packs_of file.now)) }
    ensures rising { IfOk result (λ versions. IsTrue (rises versions)) }
    ensures cause { HasReadCause (R.fault_count reader.old) (R.fault_count reader.new) result }
{
    let mut all = Block::new(alloc);
    for k in 0..file.packs() {
        match add_pack(alloc, file, reader, k, &mut all) {
            Ok(()) => {}
            Err(error) => return Err(error),
        }
    }
    Ok(all)
}

/// Adds the versions of one more pack, where these rise from those that are there. Packs are counted
/// from 0. `Damaged` names the first place in the file where the pack isn't of the form or belies the
/// footer, as `stable_file::read_pack` says, or the pack's place where its versions don't rise from
/// those that are there. `Device` comes only where the reader's count of faults rose.
pub fn add_pack<R: Reader>(
    alloc: Global,
    file: &StableFile<R::Grip>,
    reader: &mut R,
    k: u64,
    all: &mut Block,
) -> Result<(), ReadError>
    requires pack { k < length (packs_of file.now) }
    requires rising { IsTrue (rises all.old) }
    ensures exact { R.Grip.tells → (pack : Pack) → slice_get (packs_of file.now) k ≡ Some pack → GivesOrDevice (λ _. all.new) result (with_pack (schema_of file.now) (R.Grip.bytes (grip_of file.now)) (Ok all.old) pack) }
    ensures rising { OnOk result (IsTrue (rises all.new)) }
    ensures cause { HasReadCause (R.fault_count reader.old) (R.fault_count reader.new) result }
{
    let versions = read_pack(file, alloc, reader, k)?;
    if !goes_on(all, &versions) {
        let (place, _) = file.place(k);
        return Err(ReadError::Damaged { at: place });
    }
    match all.append(&versions) {
        Ok(()) => Ok(()),
        Err(_) => Err(ReadError::Memory),
    }
}

// Whether versions rise together with those that follow.
fn goes_on(all: &Block, more: &Block) -> bool
    requires rising { IsTrue (rises all.now) }
    requires more { IsTrue (rise more.now) }
    ensures { result ≡ rise (all.now ++ more.now) }
{
    if all.len() == 0 {
        return true;
    }
    is_before(all.at(all.len() - 1), more.at(0))
}
