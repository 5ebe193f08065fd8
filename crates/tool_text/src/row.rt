// The lines of rows.
ghost use Rattle.std.specs.Prelude.{◌≡◌, ◌++◌, ◌<◌, codes, OnOk, OnErr};
ghost use Rattle.column_block.specs.declared.cell.Cell.{Cell};
ghost use Rattle.tool_text.specs.Texts.{line, cells_text, cell_text, hex, hex_digit, Begins};

use crate::push::push;
use column_block::{Cell, Memory, Row};
use itoa::Buffer;

/// Appends the line of a row: `row`, the handle, and the cells, each behind a space, with a line
/// feed at the end. A cell is `null`, a number in decimal, or `x` and the bytes in lower-case
/// hexadecimal. After `Err` the text is as before.
pub fn print_row(row: &Row, into: &mut Vec<u8>) -> Result<(), Memory>
    ensures ok { OnOk result (into.new.items ≡ into.old.items ++ line row.now) }
    ensures err { OnErr result (into.new.items ≡ into.old.items) }
{
    let before = into.len();
    match push_row(row, into) {
        Ok(()) => Ok(()),
        Err(memory) => {
            into.truncate(before);
            Err(memory)
        }
    }
}

#[tactic(auto, unfolding(crate::specs::Texts::line), using(crate::proofs::Begins::begins))]
fn push_row(row: &Row, into: &mut Vec<u8>) -> Result<(), Memory>
    ensures ok { OnOk result (into.new.items ≡ into.old.items ++ line row.now) }
    ensures err { OnErr result (Begins into.old.items into.new.items) }
{
    push(into, b"row ")?;
    push(into, Buffer::new().format(row.handle).as_bytes())?;
    if let Err(memory) = push_cells(row.cells.as_slice(), into) {
        return Err(memory);
    }
    push(into, b"\n")
}

#[tactic(auto, using(crate::proofs::Begins::begins))]
fn push_cells(cells: &[Cell], into: &mut Vec<u8>) -> Result<(), Memory>
    ensures ok { OnOk result (into.new.items ≡ into.old.items ++ cells_text cells.now) }
    ensures err { OnErr result (Begins into.old.items into.new.items) }
{
    for cell in cells {
        push(into, b" ")?;
        if let Err(memory) = push_cell(cell, into) {
            return Err(memory);
        }
    }
    Ok(())
}

#[tactic(auto, using(crate::proofs::Begins::begins))]
fn push_cell(cell: &Cell, into: &mut Vec<u8>) -> Result<(), Memory>
    ensures ok { OnOk result (into.new.items ≡ into.old.items ++ cell_text cell.now) }
    ensures err { OnErr result (Begins into.old.items into.new.items) }
{
    match cell {
        Cell::Null => push(into, b"null"),
        Cell::Int(number) => push(into, Buffer::new().format(*number).as_bytes()),
        Cell::Uint(number) => push(into, Buffer::new().format(*number).as_bytes()),
        Cell::Bytes(bytes) => push_bytes(bytes.as_slice(), into),
    }
}

#[tactic(auto, using(crate::proofs::Begins::begins))]
fn push_bytes(bytes: &[u8], into: &mut Vec<u8>) -> Result<(), Memory>
    ensures ok { OnOk result (into.new.items ≡ into.old.items ++ codes "x" ++ hex bytes.now) }
    ensures err { OnErr result (Begins into.old.items into.new.items) }
{
    push(into, b"x")?;
    for byte in bytes {
        push(into, &[hex_digit(*byte / 16), hex_digit(*byte % 16)])?;
    }
    Ok(())
}

fn hex_digit(n: u8) -> u8
    requires { n < 16 }
    ensures { result ≡ hex_digit n }
{
    if n < 10 { b'0' + n } else { b'a' + (n - 10) }
}
