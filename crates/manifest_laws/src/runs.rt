// Edits of any number of segments that follow each other, and edits of none.
ghost use Rattle.std.specs.Prelude.{◌≡◌, ◌++◌, ◌≤◌, ℕ, List, [], true};
ghost use Rattle.manifest_form.specs.declared.state.StoredSegment.{StoredSegment};
ghost use Rattle.manifest_form.specs.declared.state.State.{State};
ghost use Rattle.manifest_form.specs.declared.state.Edit.{Edit};
ghost use Rattle.manifest_form.specs.States.{all_done, all_below, is_formed};
ghost use Rattle.manifest_form.specs.Whole.{HasNone, IdsDiffer};
ghost use Rattle.manifest_laws.specs.Changes.{put_by, put_among, ids_of, IsOther, EachBelow, TouchNone};
ghost use Rattle.manifest_laws.specs.Laws.{HasRun, TakeTheRun, TakeInAnyOrder};

/// Edits of all kinds put segments in the place of a run of others, and leave those before it and
/// behind it. A store may have the state then, if Next doesn't fall and the new numbers are below
/// it. The segments may be put in any order; and where edits are done in two parts, the second
/// finds the state that the first made.
pub fn edits_take_a_run()
    ensures segments { (file : ℕ) (s : State) (before olds after : List StoredSegment) (edits : List Edit)
        → HasRun file s before olds after
        → TakeTheRun s olds edits
        → (all_done s edits).segments ≡ before ++ (put_by edits ++ after) }
    ensures formed { (file : ℕ) (s : State) (before olds after : List StoredSegment) (edits : List Edit)
        → HasRun file s before olds after
        → TakeTheRun s olds edits
        → s.next ≤ (all_done s edits).next
        → EachBelow (all_done s edits).next edits
        → is_formed file (all_done s edits) ≡ true }
    ensures any_order { (file : ℕ) (s : State) (before olds after : List StoredSegment) (edits : List Edit)
        → HasRun file s before olds after
        → TakeInAnyOrder s olds edits
        → (all_done s edits).segments ≡ before ++ (put_among [] (put_by edits) ++ after) }
    ensures any_order_formed { (file : ℕ) (s : State) (before olds after : List StoredSegment)
        (edits : List Edit)
        → HasRun file s before olds after
        → TakeInAnyOrder s olds edits
        → s.next ≤ (all_done s edits).next
        → EachBelow (all_done s edits).next edits
        → is_formed file (all_done s edits) ≡ true }
    ensures goes_on { (file : ℕ) (s : State) (before olds after : List StoredSegment) (edits : List Edit)
        → HasRun file s before olds after
        → TakeTheRun s olds edits
        → s.next ≤ (all_done s edits).next
        → EachBelow (all_done s edits).next edits
        → (front others back : List StoredSegment)
        → before ++ (put_by edits ++ after) ≡ front ++ (others ++ back)
        → HasRun file (all_done s edits) front others back }
    ensures parts { (s : State) (edits more : List Edit)
        → all_done s (edits ++ more) ≡ all_done (all_done s edits) more }
{}

/// Edits of Next, High, the safe point, the region file and the count leave the segments, and only
/// the numbers tell whether a store may have the state then.
pub fn other_edits_leave_segments()
    ensures segments { (s : State) (edits : List Edit)
        → TouchNone edits
        → (all_done s edits).segments ≡ s.segments }
    ensures numbers { (file : ℕ) (s : State) (edits : List Edit)
        → TouchNone edits
        → is_formed file s ≡ true
        → is_formed file (all_done s edits) ≡ all_below (all_done s edits).next file (all_done s edits) }
    ensures formed { (file : ℕ) (s : State) (edits : List Edit)
        → TouchNone edits
        → is_formed file s ≡ true
        → s.next ≤ (all_done s edits).next
        → EachBelow (all_done s edits).next edits
        → is_formed file (all_done s edits) ≡ true }
{}

/// A number from Next on is no segment's id.
pub fn new_numbers_are_free()
    ensures { (file : ℕ) (s : State) (id : ℕ)
        → is_formed file s ≡ true
        → s.next ≤ id
        → HasNone id s.segments }
{}

/// Edits leave the ids different, and an id that they don't name is no segment's then if it was
/// none.
pub fn ids_stay_different()
    ensures free { (s : State) (edits : List Edit) (id : ℕ)
        → HasNone id s.segments
        → IsOther id (ids_of edits)
        → HasNone id (all_done s edits).segments }
    ensures differ { (s : State) (edits : List Edit)
        → IdsDiffer s.segments
        → IdsDiffer (all_done s edits).segments }
{}
