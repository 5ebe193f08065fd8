// Tiny files.
ghost use Rattle.std.specs.Prelude.{◌≡◌, ◌++◌, length, OnOk, OnErr};
ghost use Rattle.flash_list.specs.Steps.{seen};
ghost use Rattle.flash_put.specs.Appending.{Appends};
ghost use Rattle.pack_codec.specs.Faults.{Gives};
ghost use Rattle.pack_codec.specs.Spelling.{PackFits};
ghost use Rattle.column_file.specs.Tiny.{magic_at, tiny_at, file_at, tiny};

use crate::file::ColumnFile;
use column_block::{Block, Schema};
use flash_io::FileId;
use flash_list::u32_or;
use flash_put::put_u32;
use pack_codec::{FormError, read_pack, write_pack};
use std::alloc::{AllocError, Global};

// `FLTN`
const MAGIC: u32 = 0x464C_544E;

// Behind the magic, the pack of all versions.
#[tactic(auto, using(flash_put::proofs::Appending::kept), unfolding(crate::specs::Tiny::tiny))]
fn put_tiny(
    alloc: Global,
    block: &Block,
    schema: &Schema,
    into: &mut Vec<u8>,
) -> Result<(), AllocError>
    ensures bytes { Appends result into.old.items (tiny schema.now block.now) into.new.items }
    ensures fits { OnOk result (PackFits schema.now block.now) }
{
    put_u32(MAGIC, into)?;
    write_pack(alloc, block, 0, block.len(), schema, into)
}

/// Writes the versions of a block at the end of `into`, as the bytes of a tiny file: `FLTN`, and
/// then their pack, which `pack_codec` describes.
///
/// `open_tiny` reads them again as the same versions where they suit the schema: one that is gone
/// has no cells, and any other has one for each column, null or of the column's kind.
///
/// For want of memory `into` is as it was.
pub fn encode_tiny(
    alloc: Global,
    block: &Block,
    schema: &Schema,
    into: &mut Vec<u8>,
) -> Result<(), AllocError>
    ensures ok { OnOk result (into.new.items ≡ into.old.items ++ tiny schema.now block.now) }
    ensures fits { OnOk result (PackFits schema.now block.now) }
    ensures err { OnErr result (into.new.items ≡ into.old.items) }
{
    let len = into.len();
    let written = put_tiny(alloc, block, schema, into);
    if written.is_err() {
        into.truncate(len);
    }
    written
}

// What stands behind the magic.
#[tactic(auto, unfolding(crate::specs::Tiny::magic_at))]
fn behind_magic(bytes: &[u8]) -> Result<&[u8], FormError>
    ensures { seen (λ rest. rest.now) result ≡ magic_at bytes.now }
{
    let short = FormError::Damaged {
        at: bytes.len() as u64,
    };
    let (magic, rest) = u32_or(short, bytes)?;
    if magic != MAGIC {
        return Err(FormError::Damaged { at: 0 });
    }
    Ok(rest)
}

#[tactic(auto, unfolding(crate::specs::Tiny::tiny_at))]
fn versions_of(alloc: Global, bytes: &[u8], schema: &Schema) -> Result<Block, FormError>
    ensures { Gives (λ block. block) result (tiny_at schema.now bytes.now) }
{
    let rest = behind_magic(bytes)?;
    read_pack(alloc, rest, bytes.len() as u64, schema)
}

/// The tiny file of this number that the bytes are, all of them: `FLTN` and a pack.
///
/// `Damaged` names the first place where they aren't of the form: their number where they end
/// before the magic does, 0 where it is another, and else the place in the pack, as
/// `pack_codec::read_pack` says. `Memory` is want of memory.
#[tactic(auto, unfolding(crate::specs::Tiny::file_at))]
pub fn open_tiny(
    alloc: Global,
    file: FileId,
    bytes: &[u8],
    schema: &Schema,
) -> Result<ColumnFile, FormError>
    ensures { Gives (λ opened. opened) result (file_at file schema.now bytes.now) }
{
    let block = versions_of(alloc, bytes, schema)?;
    Ok(ColumnFile::Tiny { file, block })
}
