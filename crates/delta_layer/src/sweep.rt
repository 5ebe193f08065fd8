// Delete-ranges beside handles that rise.
ghost use Rattle.std.specs.Prelude.{◌≡◌, ◌≤ℤ◌, ◌||◌, ℤ};
ghost use Rattle.delta_layer.specs.Overlay as overlay;
ghost use Rattle.delta_layer.specs.Overlay.{any_holds, reached, AreByLow};

use column_block::Version;
use flash_types::HandleRange;

// The later of two ends; none is without end.
fn later_end(a: Option<i64>, b: Option<i64>) -> Option<i64>
    ensures { result ≡ overlay.later_end a b }
{
    match a {
        None => None,
        Some(a) => match b {
            None => None,
            Some(b) => Some(if a < b { b } else { a }),
        },
    }
}

// How far ranges reach, with one more that ends there.
fn further(reach: Option<Option<i64>>, high: Option<i64>) -> Option<Option<i64>>
    ensures { result ≡ overlay.further reach high }
{
    match reach {
        None => Some(high),
        Some(end) => Some(later_end(end, high)),
    }
}

// Whether ranges that begin at or below a version's handle hold it, where they reach so far.
pub fn is_reached(reach: Option<Option<i64>>, version: &Version) -> bool
    ensures { result ≡ reached reach version.now.handle }
{
    match reach {
        None => false,
        Some(end) => match end {
            None => true,
            Some(high) => version.handle < high,
        },
    }
}

// The ranges that begin above a version's handle, and how far those before them reach.
pub fn swept<'a>(
    ranges: &'a [HandleRange],
    reach: Option<Option<i64>>,
    version: &Version,
) -> (&'a [HandleRange], Option<Option<i64>>)
    requires { AreByLow ranges.now }
    ensures order { AreByLow result.0.now }
    ensures above { (h : ℤ) → version.now.handle ≤ℤ h → (reached result.1 h || any_holds result.0.now h) ≡ (reached reach h || any_holds ranges.now h) }
    ensures here { reached result.1 version.now.handle ≡ (reached reach version.now.handle || any_holds ranges.now version.now.handle) }
{
    let mut rest = ranges;
    let mut end = reach;
    while let Some((first, others)) = rest.split_first() {
        if version.handle < first.low {
            return (rest, end);
        }
        end = further(end, first.high);
        rest = others;
    }
    (rest, end)
}
