// How many versions a file has for a range of handles, as its footer tells.
ghost use Rattle.std.specs.Prelude.{◌≡◌};
ghost use Rattle.stable_file.specs.Opened.{is_met, count_in};

use crate::pack::Pack;
use flash_types::HandleRange;

// Whether a pack may have a version in the range.
fn is_met(range: HandleRange, pack: &Pack) -> bool
    ensures { result ≡ is_met range pack.now }
{
    if pack.high < range.low {
        return false;
    }
    match range.high {
        None => true,
        Some(high) => pack.low < high,
    }
}

// The number of versions in the packs that may have one in the range.
pub fn count_in(range: HandleRange, packs: &[Pack]) -> u64
    ensures { result ≡ count_in range packs.now }
{
    let mut total: u64 = 0;
    for pack in packs {
        if is_met(range, pack) {
            total = total.saturating_add(pack.count as u64);
        }
    }
    total
}
