// Whether two tables have counted the same, and have the same next positions.
ghost use Rattle.std.specs.Bool.{Decides};
ghost use Rattle.std.specs.Prelude.{◌≡◌};

use crate::table::{Counted, Positions};

/// Whether two tables have counted the same.
pub fn same_counted(a: Counted, b: Counted) -> bool
    ensures { Decides result (a ≡ b) }
{
    a.count == b.count && a.first == b.first
}

// Whether two positions are the same.
fn same_next(a: u64, there: &(), b: u64, that: &()) -> bool
    ensures { Decides result ((a ≡ b) × (there.now ≡ that.now)) }
{
    a == b && there == that
}

/// Whether two maps have the same positions.
pub fn same_positions(a: &Positions, b: &Positions) -> bool
    ensures { Decides result (a.now.entries ≡ b.now.entries) }
{
    let mut others = b.iter();
    for (position, there) in a.iter() {
        match others.next() {
            None => return false,
            Some((other, that)) => if !same_next(*position, there, *other, that) {
                return false;
            }
        }
    }
    others.next().is_none()
}
