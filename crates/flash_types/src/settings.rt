// How large the parts of a store may grow.

/// From which sizes on background work is due. Each is from 1 to 1,048,576, but `pack_rows` from 1
/// to 65,536; `join_rows` is at most `split_rows`.
#[derive(Clone, Copy, Debug, PartialEq, Eq)]
pub struct Settings {
    /// Versions in memory from which a segment is flushed.
    pub mem_rows: u32,
    /// Neighbouring tiny files from which they are compacted.
    pub tiny_files: u32,
    /// Versions in a segment's delta from which it is merged into the stable part.
    pub delta_rows: u32,
    /// Versions above which a segment is split.
    pub split_rows: u32,
    /// Versions up to which two neighbouring segments are merged.
    pub join_rows: u32,
    /// Versions of a pack.
    pub pack_rows: u32,
}
