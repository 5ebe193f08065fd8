// What is printed of versions.
use column_block::{Block, Cell, Version};
use std::io;

/// Prints versions on a line that isn't ended, as words say them, each with a space behind it.
pub fn show_versions<R: Print + AllocGlobal>(rt: &R, block: &Block) -> io::Result<()> {
    for k in 0..block.len() {
        show_version(rt, block.at(k))?;
    }
    Ok(())
}

fn show_version<R: Print + AllocGlobal>(rt: &R, version: &Version) -> io::Result<()> {
    print!(rt; "{}@{}", version.handle, version.ts)?;
    if version.gone {
        print!(rt; "/gone")?;
    }
    for cell in version.cells.as_slice() {
        show_cell(rt, cell)?;
    }
    print!(rt; " ")
}

fn show_cell<R: Print + AllocGlobal>(rt: &R, cell: &Cell) -> io::Result<()> {
    match cell {
        Cell::Null => print!(rt; "/null"),
        Cell::Int(number) => print!(rt; "/i{number}"),
        Cell::Uint(number) => print!(rt; "/u{number}"),
        Cell::Bytes(bytes) => {
            let digits = hex::encode(rt.alloc(), bytes.as_slice())?;
            print!(rt; "/x{}", digits.as_str())
        }
    }
}
