// Versions by their handles.
ghost use Rattle.std.specs.Prelude.{◌≡◌};
ghost use Rattle.column_block.specs.Handles.{lies_in};

use crate::cell::Version;

// Whether a version's handle lies from the low end up to and without the high end, where there is
// one.
pub fn lies_in(low: i64, high: Option<i64>, version: &Version) -> bool
    ensures { result ≡ lies_in low high version.now }
{
    if version.handle < low {
        return false;
    }
    match high {
        None => true,
        Some(end) => version.handle < end,
    }
}
