// What a footer tells of packs.
use column_block::MinMax;
use flash_list::Items;

/// What the footer tells of a pack.
#[derive(Debug, Drop)]
pub struct Pack {
    /// Its place in the file.
    pub place: u64,
    /// The number of its bytes.
    pub len: u64,
    /// The number of its versions.
    pub count: u32,
    /// The handle of its first version, the least one.
    pub low: i64,
    /// The handle of its last version, the greatest one.
    pub high: i64,
    /// The range of each column's numbers, in the schema's order. A column of bytes has none.
    pub ranges: Items<MinMax>,
}

/// The numbers of a pack's entry, but for its ranges.
#[derive(Clone, Copy, Debug)]
pub struct Head {
    pub place: u64,
    pub len: u64,
    pub count: u32,
    pub low: i64,
    pub high: i64,
}

/// What is known of a pack before its entry is read.
#[derive(Clone, Copy, Debug)]
pub struct Before {
    /// How many entries are left.
    pub left: u64,
    /// Where the pack stands.
    pub place: u64,
    /// The number of versions in each pack but the last, once one was read.
    pub rows: Option<u32>,
    /// The greatest handle of the pack before it.
    pub high: Option<i64>,
}
