// The order of versions.
ghost use Rattle.std.specs.Prelude.{◌≡◌};
ghost use Rattle.column_block.specs.Order.{is_before};

use crate::cell::Version;

/// Whether a version stands before another: by handle, and by timestamp where the handle is the same.
pub fn is_before(v: &Version, w: &Version) -> bool
    ensures { result ≡ is_before v.now w.now }
{
    if v.handle < w.handle {
        return true;
    }
    v.handle == w.handle && v.ts < w.ts
}
