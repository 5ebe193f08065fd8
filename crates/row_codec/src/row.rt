// What is told of rows.

/// What a row has in one column.
#[derive(Clone, Copy, Debug)]
pub enum Field<'a> {
    /// The column is null.
    Null,
    /// The bytes of the column's value.
    Value(&'a [u8]),
}

/// Why bytes are no row. Places are counted from 0.
#[derive(Clone, Copy, Debug, PartialEq, Eq)]
pub enum RowError {
    /// The bytes end before the values begin; `at` is their number.
    Short { at: u64 },
    /// The first byte isn't 128.
    Version { byte: u8 },
    /// The id at this place, of both lists together, isn't above the one before it in its list.
    Order { at: u32 },
    /// The end offset at this place is below the one before it, or past the bytes that are there.
    Offset { at: u32 },
}
