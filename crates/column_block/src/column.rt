// Columns, and what is told of their numbers.

/// What the cells of a column are.
#[derive(Clone, Copy, Debug, PartialEq, Eq)]
pub enum Kind {
    /// Signed numbers of 64 bits.
    Int,
    /// Unsigned numbers of 64 bits.
    Uint,
    /// Bytes.
    Bytes,
}

/// A column: its id in the table, and what its cells are.
#[derive(Clone, Copy, Debug, PartialEq, Eq)]
pub struct Column {
    /// The number by which rows name the column.
    pub id: u32,
    /// What its cells are.
    pub kind: Kind,
}

/// The range of a column's numbers that aren't null.
#[derive(Clone, Copy, Debug, PartialEq, Eq)]
pub enum MinMax {
    /// There is no number.
    Empty,
    /// The least and the greatest number, both of which are there.
    Of { least: i128, greatest: i128 },
}

/// A demand on the numbers of one column: none below `low`, none above `high`.
#[derive(Clone, Copy, Debug, PartialEq, Eq)]
pub struct Bound {
    /// The column's place among the cells, counted from 0.
    pub column: u32,
    /// The least number that is asked for.
    pub low: i128,
    /// The greatest number that is asked for.
    pub high: i128,
}
