// What the works on its files do to a whole segment, and to the segments of a replica.
ghost use Rattle.std.specs.Prelude.{◌≡◌, ◌⊎◌, ◌≤◌, ◌++◌, ℕ, ℤ, Bool, true, false, Some, None, List, ◌∷◌, map};
ghost use Rattle.column_block.specs.declared.cell.Version.{Version};
ghost use Rattle.flash_types.specs.Ranges.{holds, is_below};
ghost use Rattle.flash_types.specs.declared.range.HandleRange.{HandleRange};
ghost use Rattle.committed_log.specs.Lawful.{IsLawful};
ghost use Rattle.committed_log.specs.Log.{Log};
ghost use Rattle.good_replica.specs.Changed.{IsCollected, SaysNothing, of_parts, view, had};
ghost use Rattle.good_replica.specs.Effect.{clipped};
ghost use Rattle.good_replica.specs.Good.{CoversFrom, IsGoodSegment};
ghost use Rattle.good_replica.specs.Trail.{DeltaFile, Puts, Segment, steps_on, after_steps};

/// A flush or a compaction of a segment: neighbouring blocks give way to one.
pub fn segments_pack_blocks()
    ensures { (log : Log) (A : ℕ → Bool) (m safe : ℕ) (range : HandleRange) (stable one : List Version) (before after : List DeltaFile) (blocks : List (List Version)) →
        ((h : ℤ) (ts : ℕ) → holds range h ≡ true → had h one ts ≡ after_steps ts None (steps_on h (map Puts blocks))) →
        IsGoodSegment log A m safe (of_parts range stable (before ++ (map Puts blocks ++ after))) → IsGoodSegment log A m safe (of_parts range stable (before ++ (Puts one ∷ after))) }
{}

/// A delta merge of a segment.
pub fn segments_merge_deltas()
    ensures { (log : Log) → IsLawful log → (A : ℕ → Bool) (m safe at : ℕ) (range : HandleRange) (stable new : List Version) (taken rest : List DeltaFile) → at ≤ safe →
        ((h : ℤ) → holds range h ≡ true → IsCollected at (view h stable taken) (had h new)) →
        IsGoodSegment log A m safe (of_parts range stable (taken ++ rest)) → IsGoodSegment log A m safe (of_parts range new rest) }
{}

/// A split of a segment: each half, with the later files clipped to it.
pub fn segments_split()
    ensures { (log : Log) → IsLawful log → (A : ℕ → Bool) (m safe : ℕ) (range half : HandleRange) (stable new : List Version) (taken rest : List DeltaFile) →
        ((h : ℤ) → holds half h ≡ true → holds range h ≡ true) → ((h : ℤ) (ts : ℕ) → holds half h ≡ true → had h new ts ≡ view h stable taken ts) →
        IsGoodSegment log A m safe (of_parts range stable (taken ++ rest)) → IsGoodSegment log A m safe (of_parts half new (map (clipped half) rest)) }
{}

/// A merge of two segments: the later files of both, clipped to their own.
pub fn segments_join()
    ensures { (log : Log) → IsLawful log → (A : ℕ → Bool) (m safe : ℕ) (left right both : HandleRange) (left_stable right_stable new : List Version) (left_taken left_rest right_taken right_rest : List DeltaFile) →
        ((h : ℤ) → holds both h ≡ true → ((holds left h ≡ true) × (holds right h ≡ false)) ⊎ ((holds right h ≡ true) × (holds left h ≡ false))) →
        ((h : ℤ) (ts : ℕ) → holds left h ≡ true → had h new ts ≡ view h left_stable left_taken ts) → ((h : ℤ) (ts : ℕ) → holds right h ≡ true → had h new ts ≡ view h right_stable right_taken ts) →
        IsGoodSegment log A m safe (of_parts left left_stable (left_taken ++ left_rest)) → IsGoodSegment log A m safe (of_parts right right_stable (right_taken ++ right_rest)) →
        IsGoodSegment log A m safe (of_parts both new (map (clipped left) left_rest ++ map (clipped right) right_rest)) }
{}

/// Files that were clipped to a range say nothing of a handle outside of it.
pub fn clipped_files_say_nothing()
    ensures { (range : HandleRange) (h : ℤ) → holds range h ≡ false → (files : List DeltaFile) → SaysNothing h (map (clipped range) files) }
{}

/// Segments go on to cover the handles: where one gives way to another with its range, to two that
/// meet in it, or where two that meet give way to one.
pub fn segments_go_on_to_cover()
    ensures changed { (low : ℤ) (before : List Segment) (s t : Segment) (after : List Segment) → t.range ≡ s.range → CoversFrom low (before ++ (s ∷ after)) → CoversFrom low (before ++ (t ∷ after)) }
    ensures split { (s lower upper : Segment) → lower.range.low ≡ s.range.low → lower.range.high ≡ Some upper.range.low → upper.range.high ≡ s.range.high →
        is_below lower.range.low lower.range.high ≡ true → is_below upper.range.low upper.range.high ≡ true →
        (low : ℤ) (before after : List Segment) → CoversFrom low (before ++ (s ∷ after)) → CoversFrom low (before ++ (lower ∷ upper ∷ after)) }
    ensures merged { (left right one : Segment) → one.range.low ≡ left.range.low → one.range.high ≡ right.range.high →
        (low : ℤ) (before after : List Segment) → CoversFrom low (before ++ (left ∷ right ∷ after)) → CoversFrom low (before ++ (one ∷ after)) }
{}
