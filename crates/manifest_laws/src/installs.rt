// The edits of a compaction, a split, a merge and a checkpoint.
ghost use Rattle.std.specs.Prelude.{◌≡◌, ◌≢◌, ◌++◌, ◌≤◌, ◌<◌, ℕ, List, [], ◌∷◌, true, map};
ghost use Rattle.std.specs.List.{list_all};
ghost use Rattle.manifest_form.specs.declared.state.StoredSegment.{StoredSegment};
ghost use Rattle.manifest_form.specs.declared.state.State.{State};
ghost use Rattle.manifest_form.specs.declared.state.Edit.TheVariants.{Next, Segment, Drop};
ghost use Rattle.manifest_form.specs.States.{all_done, with_segments, segment_below, is_formed};
ghost use Rattle.manifest_form.specs.Whole.{HasNone, IdsDiffer};
ghost use Rattle.manifest_laws.specs.Changes.{Renews};
ghost use Rattle.manifest_laws.specs.Laws.{HasRun, Gives, CheckpointGives, IsParted};

/// A segment with the range of another one takes its place: with the id too, or with a new one, and
/// then the old one is dropped.
pub fn segments_change()
    ensures plain { (file : ℕ) (s : State) (before after : List StoredSegment) (old new : StoredSegment)
        → HasRun file s before (old ∷ []) after
        → new.range ≡ old.range
        → new.id ≡ old.id
        → all_done s (Segment new ∷ []) ≡ with_segments s (before ++ (new ∷ after)) }
    ensures plain_formed { (file : ℕ) (s : State) (before after : List StoredSegment)
        (old new : StoredSegment)
        → HasRun file s before (old ∷ []) after
        → new.range ≡ old.range
        → new.id ≡ old.id
        → segment_below s.next new ≡ true
        → is_formed file (all_done s (Segment new ∷ [])) ≡ true }
    ensures keeps { (file : ℕ) (s : State) (before after : List StoredSegment) (old new : StoredSegment)
        → HasRun file s before (old ∷ []) after
        → new.range ≡ old.range
        → (next : ℕ)
        → s.next ≤ next
        → new.id ≡ old.id
        → Gives file next s before (new ∷ []) after (Next next ∷ Segment new ∷ []) }
    ensures dropped { (file : ℕ) (s : State) (before after : List StoredSegment) (old new : StoredSegment)
        → HasRun file s before (old ∷ []) after
        → new.range ≡ old.range
        → (next : ℕ)
        → s.next ≤ next
        → HasNone new.id s.segments
        → Gives file next s before (new ∷ []) after (Next next ∷ Drop old.id ∷ Segment new ∷ []) }
{}

/// Two segments that meet in the range of a third take its place: one has its id, or it is dropped.
pub fn segments_split()
    ensures lower_keeps { (file : ℕ) (s : State) (before after : List StoredSegment)
        (old lower upper : StoredSegment)
        → HasRun file s before (old ∷ []) after
        → IsParted old.range lower.range upper.range
        → (next : ℕ)
        → s.next ≤ next
        → lower.id ≡ old.id
        → HasNone upper.id s.segments
        → Gives file next s before (lower ∷ upper ∷ []) after
        (Next next ∷ Segment lower ∷ Segment upper ∷ []) }
    ensures upper_keeps { (file : ℕ) (s : State) (before after : List StoredSegment)
        (old lower upper : StoredSegment)
        → HasRun file s before (old ∷ []) after
        → IsParted old.range lower.range upper.range
        → (next : ℕ)
        → s.next ≤ next
        → HasNone lower.id s.segments
        → upper.id ≡ old.id
        → Gives file next s before (lower ∷ upper ∷ []) after
        (Next next ∷ Segment lower ∷ Segment upper ∷ []) }
    ensures dropped_last { (file : ℕ) (s : State) (before after : List StoredSegment)
        (old lower upper : StoredSegment)
        → HasRun file s before (old ∷ []) after
        → IsParted old.range lower.range upper.range
        → (next : ℕ)
        → s.next ≤ next
        → HasNone lower.id s.segments
        → HasNone upper.id s.segments
        → lower.id ≢ upper.id
        → Gives file next s before (lower ∷ upper ∷ []) after
        (Next next ∷ Segment lower ∷ Segment upper ∷ Drop old.id ∷ []) }
    ensures dropped_first { (file : ℕ) (s : State) (before after : List StoredSegment)
        (old lower upper : StoredSegment)
        → HasRun file s before (old ∷ []) after
        → IsParted old.range lower.range upper.range
        → (next : ℕ)
        → s.next ≤ next
        → HasNone lower.id s.segments
        → HasNone upper.id s.segments
        → lower.id ≢ upper.id
        → Gives file next s before (lower ∷ upper ∷ []) after
        (Next next ∷ Drop old.id ∷ Segment lower ∷ Segment upper ∷ []) }
{}

/// A segment with the joined range of two takes their place: it has the id of one, or both are
/// dropped.
pub fn segments_merge()
    ensures left_keeps { (file : ℕ) (s : State) (before after : List StoredSegment)
        (left right both : StoredSegment)
        → HasRun file s before (left ∷ right ∷ []) after
        → both.range.low ≡ left.range.low
        → both.range.high ≡ right.range.high
        → (next : ℕ)
        → s.next ≤ next
        → both.id ≡ left.id
        → Gives file next s before (both ∷ []) after (Next next ∷ Segment both ∷ Drop right.id ∷ []) }
    ensures right_keeps { (file : ℕ) (s : State) (before after : List StoredSegment)
        (left right both : StoredSegment)
        → HasRun file s before (left ∷ right ∷ []) after
        → both.range.low ≡ left.range.low
        → both.range.high ≡ right.range.high
        → (next : ℕ)
        → s.next ≤ next
        → both.id ≡ right.id
        → Gives file next s before (both ∷ []) after (Next next ∷ Drop left.id ∷ Segment both ∷ []) }
    ensures both_go { (file : ℕ) (s : State) (before after : List StoredSegment)
        (left right both : StoredSegment)
        → HasRun file s before (left ∷ right ∷ []) after
        → both.range.low ≡ left.range.low
        → both.range.high ≡ right.range.high
        → (next : ℕ)
        → s.next ≤ next
        → HasNone both.id s.segments
        → Gives file next s before (both ∷ []) after
        (Next next ∷ Drop left.id ∷ Drop right.id ∷ Segment both ∷ []) }
{}

/// Segments change in their places, with their ids and ranges, and those that did are put.
pub fn segments_change_in_place()
    ensures { (file : ℕ) (s : State) (news puts : List StoredSegment)
        → is_formed file s ≡ true
        → IdsDiffer s.segments
        → Renews s.segments news puts
        → list_all (segment_below s.next) puts ≡ true
        → (all_done s (map (λ (x : StoredSegment). Segment x) puts) ≡ with_segments s news)
        × (is_formed file (all_done s (map (λ (x : StoredSegment). Segment x) puts)) ≡ true) }
{}

/// A checkpoint: the segments that changed are put, and Next, High, the safe point, the region file
/// and the count of entries that are applied there are set.
pub fn checkpoints_name_all()
    ensures { (file : ℕ) (s : State) (news puts : List StoredSegment) (next entries : ℕ)
        (chain : List ℕ) (ts region count : ℕ)
        → is_formed file s ≡ true
        → IdsDiffer s.segments
        → Renews s.segments news puts
        → s.next ≤ next
        → region < next
        → list_all (segment_below next) puts ≡ true
        → CheckpointGives file s news puts next entries chain ts region count }
{}
