// What each row has beside its cells.
use column_codec::{Ints, Uints};

/// The handles, timestamps and marks of rows, none of them null. A mark is 1 where the row is gone,
/// else 0.
#[derive(Debug, Drop)]
pub struct Heads {
    pub handles: Ints,
    pub stamps: Uints,
    pub marks: Uints,
}
