// Printed rows.
mod reply;
mod script;
mod words;

use column_block::{Cell, CellBytes, Cells, Row};
use std::test::Fail;
use tool_text::print_row;

fn prints(rt: &HostRuntime, row: &Row, line: &[u8]) -> Result<(), Fail> {
    let mut text = Vec::new(rt.alloc());
    print_row(row, &mut text)?;
    if text.as_slice() == line {
        return Ok(());
    }
    Err(Fail::from(text))
}

fn add(cells: &mut Cells, cell: Cell) -> Result<(), Fail> {
    match cells.push(cell) {
        Ok(()) => Ok(()),
        Err(_cell) => Err(Fail::from("memory")),
    }
}

#[test]
fn a_row_of_each_kind(rt: HostRuntime) -> Result<(), Fail> {
    let mut cells = Cells::new(rt.alloc());
    add(&mut cells, Cell::Int(5))?;
    let bytes = CellBytes::from_slice(rt.alloc(), b"ab")?;
    add(&mut cells, Cell::Bytes(bytes))?;
    add(&mut cells, Cell::Uint(u64::MAX))?;
    let row = Row { handle: 5, cells };
    prints(&rt, &row, b"row 5 5 x6162 18446744073709551615\n")
}

#[test]
fn the_least_handle_and_a_null(rt: HostRuntime) -> Result<(), Fail> {
    let mut cells = Cells::new(rt.alloc());
    add(&mut cells, Cell::Int(1))?;
    add(&mut cells, Cell::Null)?;
    let row = Row {
        handle: i64::MIN,
        cells,
    };
    prints(&rt, &row, b"row -9223372036854775808 1 null\n")
}
