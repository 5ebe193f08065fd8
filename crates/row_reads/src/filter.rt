// The rows that a bound on a number column keeps.
ghost use Rattle.std.specs.Prelude.{◌≡◌, IfOk, option_map, filter};
ghost use Rattle.column_block.specs.Numbers.{number_of};
ghost use Rattle.committed_log.specs.Reads.{is_within, kept};
ghost use Rattle.std.specs.Option.{option_and_then};

use column_block::{Bound, Cell, Row};
use row_store::Stop;
use std::alloc::Global;

fn number_of(cell: &Cell) -> Option<i128>
    ensures { result ≡ number_of cell.now }
{
    match cell {
        Cell::Null => None,
        Cell::Int(n) => Some(i128::from(*n)),
        Cell::Uint(n) => Some(i128::from(*n)),
        Cell::Bytes(_) => None,
    }
}

fn number_in(cell: Option<&Cell>) -> Option<i128>
    ensures { result ≡ option_and_then number_of (option_map (λ c. c.now) cell.entry) }
{
    match cell {
        None => None,
        Some(cell) => number_of(cell),
    }
}

/// Whether the cell in the bound's column is a number from its low to its high end.
pub fn is_within(bound: Bound, row: &Row) -> bool
    ensures { result ≡ is_within bound row.now }
{
    match number_in(row.cells.as_slice().get(bound.column as usize)) {
        None => false,
        Some(n) => bound.low <= n && n <= bound.high,
    }
}

fn filtered(alloc: Global, bound: Bound, rows: Vec<Row>) -> Result<Vec<Row>, Stop>
    ensures { IfOk result (λ left. left.items ≡ filter (is_within bound) rows.items) }
{
    let mut left = Vec::new(alloc);
    for row in rows {
        if is_within(bound, &row) && left.push(row).is_err() {
            return Err(Stop::Memory);
        }
    }
    Ok(left)
}

/// The rows that a read with a bound keeps: all of them, where there is none.
pub fn kept(alloc: Global, bound: Option<Bound>, rows: Vec<Row>) -> Result<Vec<Row>, Stop>
    ensures { IfOk result (λ left. left.items ≡ kept bound rows.items) }
{
    match bound {
        None => Ok(rows),
        Some(bound) => filtered(alloc, bound, rows),
    }
}
