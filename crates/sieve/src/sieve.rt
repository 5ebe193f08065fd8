// A test of rows beside the bound that it keeps.
ghost use Rattle.std.specs.Prelude.{◌≡◌, List, Bool, Option, option_map, false};
ghost use Rattle.std.specs.Fn.{FnReturnsAt};
ghost use Rattle.column_block.specs.declared.cell.Cell.{Cell};
ghost use Rattle.sieve.specs.Sieves.{KeepsBound, NonePass, may_pass, meets};

use column_block::{Bound, Cells, MinMax};

/// A closure that tells which rows pass, by their cells in the schema's order, beside a bound that
/// it keeps: wherever the closure may answer true, the bound's column has a number from the bound's
/// low to its high end. With no bound nothing is known. A type can't keep a fact on a closure's
/// answers, so a call that relies on this one has it among its conditions, as `new` gives it.
#[derive(Drop)]
pub struct Sieve<F: Fn(&Cells) -> bool> {
    test: F,
    bound: Option<Bound>,
}

impl<F: Fn(&Cells) -> bool> Sieve<F> {
    /// The sieve of a closure, and of the bound that is known of the rows that pass.
    pub fn new(test: F, bound: Option<Bound>) -> Sieve<F>
        requires keeps { KeepsBound F.Fn test bound }
        ensures test { result.test ≡ test }
        ensures bound { result.bound ≡ bound }
        ensures keeps { KeepsBound F.Fn result.test result.bound }
    {
        Sieve { test, bound }
    }

    /// Whether a row with these cells passes: the closure's answer.
    pub fn passes(&self, cells: &Cells) -> bool
        requires { F.IsAlwaysCallable self.now.test }
        ensures { FnReturnsAt F.Fn self.now.test cells.now result }
    {
        (self.test)(cells)
    }

    /// Whether a row may pass whose number in the column at this place, if it has one there, is of
    /// this range. It is false exactly where the bound is of this column and the range has no
    /// number from the bound's low to its high end, and so no such row passes.
    pub fn may_pass(&self, column: u32, range: &MinMax) -> bool
        ensures none { KeepsBound F.Fn self.now.test self.now.bound → result ≡ false → NonePass F.Fn self.now.test column range.now }
        ensures exact { result ≡ may_pass self.now.bound column range.now }
    {
        match self.bound {
            None => true,
            Some(bound) => bound.column != column || meets(bound, *range),
        }
    }

    /// The place of the bound's column among the cells, counted from 0; none where there is no
    /// bound.
    pub fn column(&self) -> Option<u32>
        ensures { result ≡ option_map (λ bound. bound.column) self.now.bound }
    {
        match self.bound {
            None => None,
            Some(bound) => Some(bound.column),
        }
    }
}

// Whether the two ranges of numbers have one in common.
fn meets(bound: Bound, range: MinMax) -> bool
    ensures { result ≡ meets bound range }
{
    match range {
        MinMax::Empty => false,
        MinMax::Of { least, greatest } => {
            bound.low <= greatest && least <= bound.high && bound.low <= bound.high
        }
    }
}
