// Whether the segments of what was built are as they were.
ghost use Rattle.std.specs.Prelude.{◌≡◌};
ghost use Rattle.segment_install.specs.Stale.{epoch_of, fault_at, first_fault};

use delta_layer::{Built, SegmentView};
use flash_types::SegId;
use segment::Stale;
use segment_list::SegmentList;

// A segment is gone, or at another epoch than expected.
fn fault_at(expected: u64, found: Option<u64>) -> Option<Stale>
    ensures { result ≡ fault_at expected found }
{
    let Some(epoch) = found else {
        return Some(Stale { expected, found });
    };
    if epoch == expected {
        return None;
    }
    Some(Stale { expected, found })
}

// The epoch of the segment of a number; none where there is none.
fn epoch_of<G: Drop>(list: &SegmentList<G>, id: SegId) -> Option<u64>
    ensures { result ≡ epoch_of id list.now }
{
    match list.slot_with(id) {
        None => None,
        Some(place) => Some(list.slots()[place].epoch()),
    }
}

// The first of the views whose segment isn't as it was.
fn fault_in<G: Drop>(list: &SegmentList<G>, views: &[SegmentView<G>]) -> Option<Stale>
    ensures { result ≡ first_fault list.now views.now }
{
    for i in 0..views.len() {
        let fault = fault_at(views[i].epoch, epoch_of(list, views[i].seg));
        if fault.is_some() {
            return fault;
        }
    }
    None
}

/// Why what was built can't be installed, where a segment of it is gone or at another epoch than it
/// was: of a merge's two segments the left one is looked at first.
pub fn stale<G: Drop>(list: &SegmentList<G>, built: &Built<G>) -> Option<Stale>
    ensures { result ≡ first_fault list.now built.now.views }
{
    fault_in(list, built.views.as_slice())
}
