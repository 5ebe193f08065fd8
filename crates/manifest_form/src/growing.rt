// A state that edits make, whose form is kept from edit to edit.
ghost use Rattle.std.specs.Prelude.{◌≡◌, true, Some, IfOk, is_some};
ghost use Rattle.std.specs.BTreeMap.{get};
ghost use Rattle.manifest_form.specs.declared.state.Edit.TheVariants as edit;
ghost use Rattle.manifest_form.specs.Counting.{top_cmp, faults, Counts, AllTopped};
ghost use Rattle.manifest_form.specs.States.{done, all_done, nothing, is_formed, least_handle};

use crate::apply::{is_formed, name_below};
use crate::counting::counted;
use crate::state::{Edit, Edits, State, StoredSegment, StoredSegments};
use crate::tops::{Tops, add_top, forget_top, top_of, tops_below};
use flash_io::FileId;
use flash_types::SegId;
use std::alloc::{AllocError, Global};
use std::collections::BTreeMap;
use std::marker::Model;

/// A state, and what tells its form without a look at all segments: how often the ranges don't go
/// on, if that is known, and the greatest number in each segment. Contracts see the state.
#[derive(Debug, Drop)]
pub struct Growing {
    state: State,
    count: Option<u64>,
    tops: Tops,
}

impl Model for Growing {
    ghost use Rattle.manifest_form.specs.declared.state.State.{State};

    ghost Value = { State };

    ghost use Rattle.std.specs.Prelude.{Some, is_some};
    ghost use Rattle.std.specs.BTreeMap.{get};
    ghost use Rattle.manifest_form.specs.Counting.{top_cmp, faults, Counts, AllTopped};
    ghost use Rattle.manifest_form.specs.States.{least_handle};

    ghost view = { λ it. it.state };

    ghost invariant = { λ it. Counts it.count (faults (Some least_handle) it.state.segments) × AllTopped (λ q. is_some (get top_cmp it.tops q)) it.state.segments };
}

fn no_fault(count: Option<u64>) -> bool
    ensures { result ≡ true → count ≡ Some 0 }
{
    match count {
        Some(faults) => faults == 0,
        None => false,
    }
}

// Whether the form is sure without a look at all segments.
fn is_sure(file: FileId, state: &State, count: Option<u64>, tops: &Tops) -> bool
    requires counts { Counts count (faults (Some least_handle) state.now.segments) }
    requires topped { AllTopped (λ q. is_some (get top_cmp tops.now q)) state.now.segments }
    ensures { result ≡ true → is_formed file state.now ≡ true }
{
    let next = state.next;
    if !no_fault(count) || file >= next || !name_below(next, state.regions) {
        return false;
    }
    tops_below(tops, next)
}

impl Growing {
    /// Nothing is named. It takes no memory.
    pub fn new(alloc: Global) -> Growing
        ensures { result ≡ nothing }
    {
        Growing {
            state: State {
                next: 0,
                segments: StoredSegments::new(alloc),
                high: 0,
                chain: [0; 32],
                safe_point: 0,
                regions: None,
                count: None,
            },
            count: Some(1),
            tops: BTreeMap::new(alloc),
        }
    }

    /// The state alone.
    pub fn into_state(self) -> State
        ensures { result ≡ self }
    {
        self.state
    }

    fn drop_segment(self, id: SegId) -> Growing
        ensures { result ≡ done self (edit.Drop id) }
    {
        let Growing {
            mut state,
            count,
            mut tops,
        } = self;
        let top = state.segments.top_at(id);
        let change = state.segments.loss(id);
        state.segments.remove(id);
        forget_top(&mut tops, top, id);
        let count = counted(count, change);
        Growing { state, count, tops }
    }

    fn put_segment(self, segment: StoredSegment) -> Result<Growing, AllocError>
        ensures { IfOk result (λ g. g ≡ done self (edit.Segment segment)) }
    {
        let Growing {
            mut state,
            count,
            mut tops,
        } = self.drop_segment(segment.id);
        let change = state.segments.gain(&segment);
        let Ok(()) = add_top(&mut tops, top_of(&segment), segment.id) else {
            return Err(AllocError);
        };
        let Ok(()) = state.segments.put(segment) else {
            return Err(AllocError);
        };
        let count = counted(count, change);
        Ok(Growing { state, count, tops })
    }

    fn apply(self, edit: Edit) -> Result<Growing, AllocError>
        ensures { IfOk result (λ g. g ≡ done self edit) }
    {
        let mut growing = self;
        match edit {
            Edit::Next { file } => growing.state.next = file,
            Edit::Segment { segment } => return growing.put_segment(segment),
            Edit::Drop { id } => return Ok(growing.drop_segment(id)),
            Edit::High { entries, chain } => {
                growing.state.high = entries;
                growing.state.chain = chain;
            }
            Edit::SafePoint { ts } => growing.state.safe_point = ts,
            Edit::Regions { file } => growing.state.regions = Some(file),
            Edit::Count { entries } => growing.state.count = Some(entries),
        }
        Ok(growing)
    }

    /// Whether the segments hold every handle once, and all numbers, that of the manifest's file
    /// too, are below Next. Only where that isn't so are all segments looked at.
    pub fn is_formed(&self, file: FileId) -> bool
        ensures { result ≡ is_formed file self.now }
    {
        if is_sure(file, &self.state, self.count, &self.tops) {
            return true;
        }
        is_formed(file, &self.state)
    }
}

/// Does edits, in order.
pub fn apply_all(growing: Growing, edits: Edits) -> Result<Growing, AllocError>
    ensures { IfOk result (λ g. g ≡ all_done growing edits) }
{
    let mut growing = growing;
    for edit in edits.into_vec() {
        growing = growing.apply(edit)?;
    }
    Ok(growing)
}
