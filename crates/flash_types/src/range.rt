// Ranges of handles.
ghost use Rattle.std.specs.Prelude.{◌≡◌, not};
ghost use Rattle.flash_types.specs.Ranges.{all_handles, is_below, holds, has_any, meets, ends_at, touch, joined, lower_end, common, part_below, part_from};

/// The key of a row in its table, TiDB's `_tidb_rowid` or integer primary key.
pub type Handle = i64;

/// The handles from `low` up to and without `high`; with no `high` it has no end.
#[derive(Clone, Copy, Debug, PartialEq, Eq)]
pub struct HandleRange {
    pub low: Handle,
    pub high: Option<Handle>,
}

impl HandleRange {
    /// The range of all handles.
    pub fn all() -> HandleRange
        ensures { result ≡ all_handles }
    {
        HandleRange {
            low: Handle::MIN,
            high: None,
        }
    }

    /// Whether the handle lies in the range.
    pub fn holds(&self, handle: Handle) -> bool
        ensures { result ≡ holds self.now handle }
    {
        self.low <= handle && is_below(handle, self.high)
    }

    /// Whether no handle lies in the range.
    pub fn is_empty(&self) -> bool
        ensures { result ≡ not (has_any self.now) }
    {
        !is_below(self.low, self.high)
    }

    /// Whether each of the ranges begins below the other's end, as where they have a handle in
    /// common.
    pub fn meets(&self, other: &HandleRange) -> bool
        ensures { result ≡ meets self.now other.now }
    {
        is_below(self.low, other.high) && is_below(other.low, self.high)
    }

    /// Whether the range ends right below this handle.
    pub fn ends_at(&self, handle: Handle) -> bool
        ensures { result ≡ ends_at self.now handle }
    {
        match self.high {
            None => false,
            Some(high) => high == handle,
        }
    }

    /// Whether one of the two ranges begins where the other ends.
    pub fn touches(&self, other: &HandleRange) -> bool
        ensures { result ≡ touch self.now other.now }
    {
        self.ends_at(other.low) || other.ends_at(self.low)
    }

    /// Two ranges that touch, as one.
    pub fn joined(&self, other: &HandleRange) -> HandleRange
        ensures { result ≡ joined self.now other.now }
    {
        if self.ends_at(other.low) {
            return HandleRange {
                low: self.low,
                high: other.high,
            };
        }
        HandleRange {
            low: other.low,
            high: self.high,
        }
    }

    /// The handles that lie in both ranges.
    pub fn common(&self, other: &HandleRange) -> HandleRange
        ensures { result ≡ common self.now other.now }
    {
        HandleRange {
            low: if self.low <= other.low {
                other.low
            } else {
                self.low
            },
            high: lower_end(self.high, other.high),
        }
    }

    /// The part of the range below a handle that lies in it.
    pub fn below(&self, at: Handle) -> HandleRange
        ensures { result ≡ part_below self.now at }
    {
        HandleRange {
            low: self.low,
            high: Some(at),
        }
    }

    /// The part of the range from a handle on that lies in it.
    pub fn starting_at(&self, at: Handle) -> HandleRange
        ensures { result ≡ part_from self.now at }
    {
        HandleRange {
            low: at,
            high: self.high,
        }
    }
}

// Whether a handle is below an end, where there is one.
fn is_below(handle: Handle, high: Option<Handle>) -> bool
    ensures { result ≡ is_below handle high }
{
    match high {
        None => true,
        Some(high) => handle < high,
    }
}

// The lower of two ends, of which none means that there is no end.
fn lower_end(a: Option<Handle>, b: Option<Handle>) -> Option<Handle>
    ensures { result ≡ lower_end a b }
{
    let Some(x) = a else {
        return b;
    };
    let Some(y) = b else {
        return a;
    };
    if x <= y { Some(x) } else { Some(y) }
}
