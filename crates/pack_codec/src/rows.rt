// Rows that are kept as lists.
ghost use Rattle.std.specs.Prelude.{◌≡◌, ◌<◌, length, map, [], IfOk, if◌then◌else◌};
ghost use Rattle.column_codec.specs.Laws.{count_of};
ghost use Rattle.pack_codec.specs.Rows.{is_gone, cell_at, is_null, may_have, null_from, version_at, versions_from};
ghost use Rattle.pack_codec.specs.Counted.{AllHaveRows, HeadsHaveRows};

use crate::cuts::CutList;
use crate::heads::Heads;
use column_block::{Block, Cells, Memory, Version};
use column_codec::{ColumnList, Uints};
use flash_list::Items;
use std::alloc::Global;

fn is_gone(marks: &Uints, i: usize) -> bool
    requires { i < length marks.now }
    ensures { result ≡ is_gone marks.now i }
{
    match marks.at(i) {
        Some(mark) => *mark == 1,
        None => false,
    }
}

fn is_null(list: &ColumnList, i: usize) -> bool
    requires { i < count_of list.now }
    ensures { result ≡ is_null (cell_at list.now i) }
{
    match list {
        ColumnList::Int(values) => values.at(i).is_none(),
        ColumnList::Uint(values) => values.at(i).is_none(),
        ColumnList::Bytes(values) => values.at(i).is_none(),
    }
}

// Whether the list may have what it has in row i.
fn may_have(marks: &Uints, list: &ColumnList, i: usize) -> bool
    requires marks { i < length marks.now }
    requires values { i < count_of list.now }
    ensures { result ≡ may_have marks.now list.now i }
{
    if is_gone(marks, i) {
        return is_null(list, i);
    }
    true
}

// Whether the list is null in each row that is gone.
pub fn null_where_gone(marks: &Uints, list: &ColumnList, count: usize) -> bool
    requires marks { length marks.now ≡ count }
    requires values { count_of list.now ≡ count }
    ensures { result ≡ null_from marks.now list.now 0 count }
{
    for i in 0..count {
        if !may_have(marks, list, i) {
            return false;
        }
    }
    true
}

// The cells of row i.
fn cells_at(alloc: Global, count: usize, lists: &[CutList], i: usize) -> Result<Cells, Memory>
    requires rows { AllHaveRows count lists.now }
    requires within { i < count }
    ensures { IfOk result (λ cells. cells ≡ map (λ list. cell_at list i) lists.now) }
{
    let Ok(mut cells) = Vec::with_capacity(alloc, lists.len()) else {
        return Err(Memory);
    };
    for list in lists {
        let cell = list.cell(i)?;
        let Ok(()) = cells.push(cell) else {
            return Err(Memory);
        };
    }
    Ok(Items::from_vec(cells))
}

// The cells of row i. A row that is gone has none.
fn cells_unless(
    gone: bool,
    alloc: Global,
    count: usize,
    lists: &[CutList],
    i: usize,
) -> Result<Cells, Memory>
    requires rows { AllHaveRows count lists.now }
    requires within { i < count }
    ensures { IfOk result (λ cells. cells ≡ (if gone then [] else map (λ list. cell_at list i) lists.now)) }
{
    if gone {
        return Ok(Items::new(alloc));
    }
    cells_at(alloc, count, lists, i)
}

// Row i.
fn version_at(
    alloc: Global,
    count: usize,
    heads: &Heads,
    lists: &[CutList],
    i: usize,
) -> Result<Version, Memory>
    requires heads { HeadsHaveRows count heads.now }
    requires rows { AllHaveRows count lists.now }
    requires within { i < count }
    ensures { IfOk result (λ version. version ≡ version_at heads.now lists.now i) }
{
    let gone = is_gone(&heads.marks, i);
    let cells = cells_unless(gone, alloc, count, lists, i)?;
    Ok(Version {
        handle: heads.handles.at(i).unwrap_or(0),
        ts: heads.stamps.at(i).unwrap_or(0),
        gone,
        cells,
    })
}

// The rows of these lists.
pub fn block_of(
    alloc: Global,
    count: usize,
    heads: &Heads,
    lists: &[CutList],
) -> Result<Block, Memory>
    requires heads { HeadsHaveRows count heads.now }
    requires rows { AllHaveRows count lists.now }
    ensures { IfOk result (λ block. block ≡ versions_from heads.now lists.now 0 count) }
{
    let mut block = Block::new(alloc);
    for i in 0..count {
        let version = version_at(alloc, count, heads, lists, i)?;
        let Ok(()) = block.push(version) else {
            return Err(Memory);
        };
    }
    Ok(block)
}
