// The one spelling of a pack.
ghost use Rattle.std.specs.Prelude.{◌≡◌, ◌+◌, ◌++◌, ◌≤◌, ◌<◌, ◌^◌, length, map, slice_range, IfOk, OnOk, OnErr};
ghost use Rattle.std.specs.List.{flat_map, AllByRecursion};
ghost use Rattle.flash_put.specs.Appending.{Appends};
ghost use Rattle.column_codec.specs.Laws.{Fits};
ghost use Rattle.pack_codec.specs.Spelling as spelling;
ghost use Rattle.pack_codec.specs.Spelling.{HeadsFit, ListFits, PackFits, TextFits, UintFits};

use crate::field::{Field, int_of, text_of, uint_of};
use crate::read::list_kind;
use column_block::{Block, Column, Schema};
use column_codec::{ColumnList, Ints, ListKind, Texts, Uints, encode};
use flash_list::Items;
use flash_put::{put_bytes, put_u16, put_u64};
use std::alloc::{AllocError, Global};

// ---- the list of a field

fn ints_of(
    alloc: Global,
    block: &Block,
    from: usize,
    to: usize,
    field: Field,
) -> Result<Ints, AllocError>
    requires order { from ≤ to }
    requires within { to ≤ length block.now }
    ensures list { IfOk result (λ list. list ≡ map (spelling.int_of field) (slice_range block.now from to)) }
{
    let mut list = Ints::with_room(alloc, to - from)?;
    for i in from..to {
        let Ok(()) = list.push(int_of(field, block.at(i))) else {
            return Err(AllocError);
        };
    }
    Ok(list)
}

fn uints_of(
    alloc: Global,
    block: &Block,
    from: usize,
    to: usize,
    field: Field,
) -> Result<Uints, AllocError>
    requires order { from ≤ to }
    requires within { to ≤ length block.now }
    ensures list { IfOk result (λ list. list ≡ map (spelling.uint_of field) (slice_range block.now from to)) }
    ensures fits { IfOk result (λ list. AllByRecursion UintFits list) }
{
    let mut list = Items::from_vec(Vec::with_capacity(alloc, to - from)?);
    for i in from..to {
        let Ok(()) = list.push(uint_of(field, block.at(i))) else {
            return Err(AllocError);
        };
    }
    Ok(list)
}

fn texts_of(
    alloc: Global,
    block: &Block,
    from: usize,
    to: usize,
    field: Field,
) -> Result<Texts, AllocError>
    requires order { from ≤ to }
    requires within { to ≤ length block.now }
    ensures list { IfOk result (λ list. list ≡ map (spelling.text_of field) (slice_range block.now from to)) }
    ensures fits { IfOk result (λ list. AllByRecursion TextFits list) }
{
    let mut list = Texts::with_room(alloc, to - from, 0)?;
    for i in from..to {
        list.push(text_of(field, block.at(i)))?;
    }
    Ok(list)
}

// The list of a field of the versions from one place up to but without another.
fn list_of(
    alloc: Global,
    block: &Block,
    from: usize,
    to: usize,
    kind: ListKind,
    field: Field,
) -> Result<ColumnList, AllocError>
    requires order { from ≤ to }
    requires within { to ≤ length block.now }
    ensures list { IfOk result (λ list. list ≡ spelling.list_of kind field (slice_range block.now from to)) }
    ensures fits { IfOk result Fits }
{
    match kind {
        ListKind::Int => {
            let list = ints_of(alloc, block, from, to, field)?;
            Ok(ColumnList::Int(list))
        }
        ListKind::Uint => {
            let list = uints_of(alloc, block, from, to, field)?;
            Ok(ColumnList::Uint(list))
        }
        ListKind::Bytes => {
            let list = texts_of(alloc, block, from, to, field)?;
            Ok(ColumnList::Bytes(list))
        }
    }
}

// ---- bytes

// A list behind its length.
#[tactic(auto, using(flash_put::proofs::Appending::kept), unfolding(crate::specs::Spelling::sized))]
fn put_sized(alloc: Global, list: &ColumnList, into: &mut Vec<u8>) -> Result<(), AllocError>
    requires { Fits list.now }
    ensures bytes { Appends result into.old.items (spelling.sized list.now) into.new.items }
    ensures fits { OnOk result (ListFits list.now) }
{
    let mut bytes = Vec::new(alloc);
    encode(list, &mut bytes)?;
    put_u64(bytes.len() as u64, into)?;
    put_bytes(bytes.as_slice(), into)
}

fn put_field(
    alloc: Global,
    block: &Block,
    from: usize,
    to: usize,
    kind: ListKind,
    field: Field,
    into: &mut Vec<u8>,
) -> Result<(), AllocError>
    requires order { from ≤ to }
    requires within { to ≤ length block.now }
    ensures bytes { Appends result into.old.items (spelling.sized (spelling.list_of kind field (slice_range block.now from to))) into.new.items }
    ensures fits { OnOk result (ListFits (spelling.list_of kind field (slice_range block.now from to))) }
{
    let list = list_of(alloc, block, from, to, kind, field)?;
    put_sized(alloc, &list, into)
}

// The lists of the columns.
fn put_columns(
    alloc: Global,
    block: &Block,
    from: usize,
    to: usize,
    columns: &[Column],
    into: &mut Vec<u8>,
) -> Result<(), AllocError>
    requires order { from ≤ to }
    requires within { to ≤ length block.now }
    ensures bytes { Appends result into.old.items (flat_map spelling.sized (spelling.columns_of columns.now 0 (slice_range block.now from to))) into.new.items }
    ensures fits { OnOk result (AllByRecursion ListFits (spelling.columns_of columns.now 0 (slice_range block.now from to))) }
{
    for k in 0..columns.len() {
        let kind = list_kind(columns[k].kind);
        put_field(alloc, block, from, to, kind, Field::Cell(k), into)?;
    }
    Ok(())
}

// The lists of handles, timestamps and marks.
#[tactic(auto, using(flash_put::proofs::Appending::kept), unfolding(crate::specs::Spelling::heads))]
fn put_heads(
    alloc: Global,
    block: &Block,
    from: usize,
    to: usize,
    into: &mut Vec<u8>,
) -> Result<(), AllocError>
    requires order { from ≤ to }
    requires within { to ≤ length block.now }
    ensures bytes { Appends result into.old.items (spelling.heads (slice_range block.now from to)) into.new.items }
    ensures fits { OnOk result (HeadsFit (slice_range block.now from to)) }
{
    put_field(alloc, block, from, to, ListKind::Int, Field::Handle, into)?;
    put_field(alloc, block, from, to, ListKind::Uint, Field::Stamp, into)?;
    put_field(alloc, block, from, to, ListKind::Uint, Field::Mark, into)
}

// The number of versions, and that of columns.
#[tactic(auto, using(flash_put::proofs::Appending::kept), unfolding(crate::specs::Spelling::counts))]
fn put_counts(versions: usize, columns: usize, into: &mut Vec<u8>) -> Result<(), AllocError>
    requires { columns ≤ 64 }
    ensures bytes { Appends result into.old.items (spelling.counts versions columns) into.new.items }
    ensures fits { versions < 2 ^ 64 }
{
    put_u64(versions as u64, into)?;
    put_u16(columns as u16, into)
}

#[tactic(auto, using(flash_put::proofs::Appending::kept), unfolding(crate::specs::Spelling::pack))]
fn put_pack(
    alloc: Global,
    block: &Block,
    from: usize,
    to: usize,
    columns: &[Column],
    into: &mut Vec<u8>,
) -> Result<(), AllocError>
    requires order { from ≤ to }
    requires within { to ≤ length block.now }
    requires few { length columns.now ≤ 64 }
    ensures bytes { Appends result into.old.items (spelling.pack columns.now (slice_range block.now from to)) into.new.items }
    ensures fits { OnOk result (PackFits columns.now (slice_range block.now from to)) }
{
    put_counts(to - from, columns.len(), into)?;
    put_heads(alloc, block, from, to, into)?;
    put_columns(alloc, block, from, to, columns, into)
}

/// Writes the versions of a block from place `from` up to but without place `to` at the end of
/// `into`, as a pack, which `read_pack` reads again as the same versions where they suit the
/// schema: one that is gone has no cells, and any other has one for each column, null or of the
/// column's kind. A cell that is missing or of another kind is written as null.
///
/// For want of memory `into` is as it was.
pub fn write_pack(
    alloc: Global,
    block: &Block,
    from: usize,
    to: usize,
    schema: &Schema,
    into: &mut Vec<u8>,
) -> Result<(), AllocError>
    requires order { from ≤ to }
    requires within { to ≤ length block.now }
    ensures ok { OnOk result (into.new.items ≡ into.old.items ++ spelling.pack schema.now (slice_range block.now from to)) }
    ensures fits { OnOk result (PackFits schema.now (slice_range block.now from to)) }
    ensures err { OnErr result (into.new.items ≡ into.old.items) }
{
    let len = into.len();
    let written = put_pack(alloc, block, from, to, schema.columns(), into);
    if written.is_err() {
        into.truncate(len);
    }
    written
}
