// Lists of optional values.
use crate::ints::Ints;
use crate::texts::Texts;
use flash_list::Items;

/// What the values of a list are.
#[derive(Clone, Copy, Debug, PartialEq, Eq)]
pub enum ListKind {
    /// Signed numbers of 64 bits.
    Int,
    /// Unsigned numbers of 64 bits.
    Uint,
    /// Bytes.
    Bytes,
}

/// Unsigned numbers, and nulls among them.
pub type Uints = Items<Option<u64>>;

/// The values of one column, from the first row to the last. A value may be null.
#[derive(Debug, Drop)]
pub enum ColumnList {
    Int(Ints),
    Uint(Uints),
    Bytes(Texts),
}
