// What words say. A version is `HANDLE@TS`, with a stroke and a cell behind it for each of its
// cells: `null`, `iN`, `uN`, `xHEX`, or `own`, the handle as a signed number. One that is gone is
// `HANDLE@TS/gone`. `LOW..HIGH@TS` is a version of each handle from the low end up to and without
// the high one. A range is `LOW..HIGH`; an end that isn't there is none.
use crate::trouble::Trouble;
use column_block::{Block, Cell, CellBytes, Cells, Column, Kind, Schema, Version};
use flash_types::HandleRange;
use std::alloc::Global;

/// A number.
pub fn number(word: &str) -> Result<u64, Trouble> {
    word.parse::<u64>().map_err(|_| Trouble::Word)
}

/// A number of 32 bits.
pub fn small(word: &str) -> Result<u32, Trouble> {
    word.parse::<u32>().map_err(|_| Trouble::Word)
}

/// A handle, or the number of a cell.
pub fn signed(word: &str) -> Result<i64, Trouble> {
    word.parse::<i64>().map_err(|_| Trouble::Word)
}

/// Numbers.
pub fn numbers(alloc: Global, words: &[&str]) -> Result<Vec<u64>, Trouble> {
    let mut numbers = Vec::new(alloc);
    for word in words {
        numbers.push(number(word)?)?;
    }
    Ok(numbers)
}

/// A range of handles.
pub fn range(word: &str) -> Result<HandleRange, Trouble> {
    let Some((low, high)) = word.split_once("..") else {
        return Err(Trouble::Word);
    };
    Ok(HandleRange {
        low: low_end(low)?,
        high: high_end(high)?,
    })
}

fn low_end(word: &str) -> Result<i64, Trouble> {
    if word.is_empty() {
        return Ok(i64::MIN);
    }
    signed(word)
}

fn high_end(word: &str) -> Result<Option<i64>, Trouble> {
    if word.is_empty() {
        return Ok(None);
    }
    Ok(Some(signed(word)?))
}

/// The columns of these kinds, whose ids count from 1.
pub fn columns(alloc: Global, words: &[&str]) -> Result<Schema, Trouble> {
    let mut columns = Vec::new(alloc);
    let mut id = 0u32;
    for word in words {
        id = id.saturating_add(1);
        columns.push(Column {
            id,
            kind: kind(word)?,
        })?;
    }
    Schema::new(columns).map_err(|_| Trouble::Word)
}

fn kind(word: &str) -> Result<Kind, Trouble> {
    match word {
        "int" => Ok(Kind::Int),
        "uint" => Ok(Kind::Uint),
        "bytes" => Ok(Kind::Bytes),
        _ => Err(Trouble::Word),
    }
}

/// The versions that the words say, in their order.
pub fn block(alloc: Global, words: &[&str]) -> Result<Block, Trouble> {
    let mut block = Block::new(alloc);
    for word in words {
        add_word(alloc, &mut block, word)?;
    }
    Ok(block)
}

fn add_word(alloc: Global, block: &mut Block, word: &str) -> Result<(), Trouble> {
    let (place, cells) = word.split_once('/').unwrap_or((word, ""));
    let Some((handles, ts)) = place.split_once('@') else {
        return Err(Trouble::Word);
    };
    let ts = number(ts)?;
    match handles.split_once("..") {
        Some((low, high)) => add_each(alloc, block, signed(low)?, signed(high)?, ts, cells),
        None => add(alloc, block, signed(handles)?, ts, cells),
    }
}

fn add_each(
    alloc: Global,
    block: &mut Block,
    low: i64,
    high: i64,
    ts: u64,
    cells: &str,
) -> Result<(), Trouble> {
    for handle in low..high {
        add(alloc, block, handle, ts, cells)?;
    }
    Ok(())
}

fn add(alloc: Global, block: &mut Block, handle: i64, ts: u64, cells: &str) -> Result<(), Trouble> {
    let gone = cells == "gone";
    let version = Version {
        handle,
        ts,
        gone,
        cells: cells_of(alloc, handle, if gone { "" } else { cells })?,
    };
    block.push(version).map_err(|_| Trouble::Memory)
}

fn cells_of(alloc: Global, handle: i64, words: &str) -> Result<Cells, Trouble> {
    let mut cells = Cells::new(alloc);
    if words.is_empty() {
        return Ok(cells);
    }
    for word in words.split('/') {
        let cell = cell(alloc, handle, word)?;
        cells.push(cell).map_err(|_| Trouble::Memory)?;
    }
    Ok(cells)
}

fn cell(alloc: Global, handle: i64, word: &str) -> Result<Cell, Trouble> {
    match word {
        "null" => Ok(Cell::Null),
        "own" => Ok(Cell::Int(handle)),
        _ => value(alloc, word),
    }
}

fn value(alloc: Global, word: &str) -> Result<Cell, Trouble> {
    if let Some(digits) = word.strip_prefix("i") {
        return Ok(Cell::Int(signed(digits)?));
    }
    if let Some(digits) = word.strip_prefix("u") {
        return Ok(Cell::Uint(number(digits)?));
    }
    let Some(digits) = word.strip_prefix("x") else {
        return Err(Trouble::Word);
    };
    bytes(alloc, digits)
}

fn bytes(alloc: Global, digits: &str) -> Result<Cell, Trouble> {
    let Ok(bytes) = hex::decode(alloc, digits) else {
        return Err(Trouble::Word);
    };
    Ok(Cell::Bytes(CellBytes::from_slice(alloc, bytes.as_slice())?))
}
