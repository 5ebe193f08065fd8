// Which pieces a read needs.
ghost use Rattle.std.specs.Prelude.{◌≡◌};
ghost use Rattle.std.specs.List.{list_any};
ghost use Rattle.flash_types.specs.Ranges.{is_below};
ghost use Rattle.learner_read.specs.Pieces.{is_needed, meets};

use flash_types::{Cut, Handle, HandleRange};

// Whether the handle is below the end, where there is one.
pub fn is_below(handle: Handle, high: Option<Handle>) -> bool
    ensures { result ≡ is_below handle high }
{
    match high {
        None => true,
        Some(high) => handle < high,
    }
}

// Whether each range begins below the other's end.
fn meets(a: HandleRange, b: HandleRange) -> bool
    ensures { result ≡ meets a b }
{
    if !is_below(a.low, b.high) {
        return false;
    }
    is_below(b.low, a.high)
}

fn meets_some(cuts: &[Cut], range: HandleRange) -> bool
    ensures { result ≡ list_any (λ cut. meets range cut.range) cuts.now }
{
    cuts.iter().any(|cut| meets(range, cut.range))
}

/// Whether a read of the handles in the clip and in the range of one of the cuts may ask for handles
/// of a segment of this range: it meets the clip and the range of a cut. A scan passes over other
/// segments, so a snapshot can leave them out.
pub fn is_needed(clip: HandleRange, cuts: &[Cut], range: HandleRange) -> bool
    ensures { result ≡ is_needed clip cuts.now range }
{
    if !meets(range, clip) {
        return false;
    }
    meets_some(cuts, range)
}
