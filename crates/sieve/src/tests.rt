// A sieve at a closure: which packs it passes over.
use crate::Sieve;
use column_block::{Bound, Cell, Cells, MinMax};
use std::test::Fail;

fn range(least: i128, greatest: i128) -> MinMax {
    MinMax::Of { least, greatest }
}

#[test]
fn a_pack_is_passed_over_only_where_no_row_passes(rt: HostRuntime) -> Result<(), Fail> {
    let sieve = Sieve::new(
        |cells: &Cells| match cells.as_slice().first() {
            Some(Cell::Int(n)) => *n == 5,
            _ => false,
        },
        Some(Bound {
            column: 0,
            low: 5,
            high: 5,
        }),
    );
    assert_eq!(rt; sieve.column(), Some(0));
    assert!(rt; sieve.may_pass(0, &range(5, 9)) && sieve.may_pass(0, &range(-1, 5)));
    assert!(rt; !sieve.may_pass(0, &range(6, 9)) && !sieve.may_pass(0, &MinMax::Empty));
    assert!(rt; sieve.may_pass(1, &range(6, 9)));
    let mut cells = Cells::new(rt.alloc());
    assert!(rt; !sieve.passes(&cells));
    cells.push(Cell::Int(5)).map_err(|_| "memory")?;
    assert!(rt; sieve.passes(&cells));
    Ok(())
}

#[test]
fn with_no_bound_nothing_is_passed_over(rt: HostRuntime) {
    let sieve = Sieve::new(|_: &Cells| true, None);
    assert_eq!(rt; sieve.column(), None);
    assert!(rt; sieve.may_pass(0, &MinMax::Empty));
}
