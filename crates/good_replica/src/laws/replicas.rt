// What keeps the segments of a replica good.
ghost use Rattle.std.specs.Prelude.{◌≡◌, ◌≤◌, ◌<◌, ◌++◌, ℕ, suc, ℤ, Bool, true, false, Some, List, [], ◌∷◌, map, length};
ghost use Rattle.std.specs.List.{All};
ghost use Rattle.column_block.specs.Suiting.{Suits};
ghost use Rattle.flash_types.specs.Ranges.{is_below};
ghost use Rattle.flash_types.specs.declared.range.HandleRange.{HandleRange};
ghost use Rattle.log_codec.specs.declared.entry.Entry.{Entry};
ghost use Rattle.committed_log.specs.Applied.{IsClosed, with_position};
ghost use Rattle.committed_log.specs.Lawful.{IsLawful};
ghost use Rattle.committed_log.specs.Laws.{IsInside, longer, touches};
ghost use Rattle.committed_log.specs.Log.{Log};
ghost use Rattle.good_replica.specs.Changed.{of_parts};
ghost use Rattle.good_replica.specs.Effect.{absorbed, added, clearing};
ghost use Rattle.good_replica.specs.Front.{front};
ghost use Rattle.good_replica.specs.Good.{AreGood, EachGood, IsGoodSegment};
ghost use Rattle.good_replica.specs.Trail.{Segment};

/// Applying a ready entry: each segment takes the entry's delete-range and its versions, clipped, as
/// the last files of its delta. The mark doesn't matter.
pub fn applied_entries_are_absorbed()
    ensures each { (log : Log) → IsLawful log → (A : ℕ → Bool) → IsClosed log A → (p : ℕ) → A p ≡ false → IsClosed log (with_position A p) → (m safe : ℕ) (segments : List Segment) →
        EachGood log A m safe segments → EachGood log (with_position A p) m safe (map (absorbed (clearing log p) (added log p)) segments) }
    ensures all { (log : Log) → IsLawful log → (A : ℕ → Bool) → IsClosed log A → (p : ℕ) → A p ≡ false → IsClosed log (with_position A p) → (m safe : ℕ) (segments : List Segment) →
        AreGood log A m safe segments → AreGood log (with_position A p) m safe (map (absorbed (clearing log p) (added log p)) segments) }
{}

/// The versions that an entry adds suit the log's columns.
pub fn added_versions_suit()
    ensures { (log : Log) → IsLawful log → (p : ℕ) → All (Suits log.schema) (added log p) }
{}

/// An applied entry that touches a handle is the last of those that do, and its position and one
/// more becomes the front; none between the old front and it touches the handle. Other fronts stay.
pub fn fronts_follow_touches()
    ensures next { (log : Log) → IsLawful log → (h : ℤ) (A : ℕ → Bool) → IsClosed log A → (p : ℕ) → A p ≡ false → IsClosed log (with_position A p) → touches log h p ≡ true → front log (with_position A p) h ≡ suc p }
    ensures between { (log : Log) → IsLawful log → (h : ℤ) (A : ℕ → Bool) → IsClosed log A → (p : ℕ) → A p ≡ false → IsClosed log (with_position A p) → touches log h p ≡ true → (x : ℕ) → front log A h ≤ x → x < p → touches log h x ≡ false }
    ensures others { (log : Log) (h : ℤ) (A : ℕ → Bool) (p : ℕ) → touches log h p ≡ false → front log (with_position A p) h ≡ front log A h }
{}

/// A higher mark or safe point; and fewer entries applied, where the mark isn't below one past each
/// that is, as after a crash.
pub fn marks_and_safe_points_rise()
    ensures mark { (log : Log) → IsLawful log → (A : ℕ → Bool) (m n safe : ℕ) (segments : List Segment) → m ≤ n → EachGood log A m safe segments → EachGood log A n safe segments }
    ensures safe { (log : Log) (A : ℕ → Bool) (m safe higher : ℕ) (segments : List Segment) → safe ≤ higher → EachGood log A m safe segments → EachGood log A m higher segments }
    ensures fewer { (log : Log) → IsLawful log → (A B : ℕ → Bool) (m safe : ℕ) (segments : List Segment) → IsInside A B → ((x : ℕ) → B x ≡ true → x < m) → EachGood log B m safe segments → EachGood log A m safe segments }
{}

/// In a list some segments give way to others, which are good if those were.
pub fn segments_give_way()
    ensures { (log : Log) (A : ℕ → Bool) (m safe : ℕ) (before old new after : List Segment) → (EachGood log A m safe old → EachGood log A m safe new) →
        EachGood log A m safe (before ++ (old ++ after)) → EachGood log A m safe (before ++ (new ++ after)) }
{}

/// An empty segment is good where nothing is applied.
pub fn empty_segments_are_good()
    ensures { (log : Log) (m safe : ℕ) (range : HandleRange) → IsGoodSegment log (λ _. false) m safe (of_parts range [] []) }
{}

/// What is good for a log is good for each longer one.
pub fn longer_logs_serve()
    ensures { (log : Log) (more : List Entry) (A : ℕ → Bool) → ((x : ℕ) → length log.entries ≤ x → A x ≡ false) → (m safe : ℕ) (segments : List Segment) →
        AreGood log A m safe segments → AreGood (longer log more) A m safe segments }
{}

/// A replica stays good where a segment gives way to one with its range, to two that meet in its
/// range, or two that meet give way to one: if those are good where these were.
pub fn installs_keep_replicas_good()
    ensures changed { (log : Log) (A : ℕ → Bool) (m safe : ℕ) (before : List Segment) (s t : Segment) (after : List Segment) → t.range ≡ s.range →
        (IsGoodSegment log A m safe s → IsGoodSegment log A m safe t) → AreGood log A m safe (before ++ (s ∷ after)) → AreGood log A m safe (before ++ (t ∷ after)) }
    ensures split { (log : Log) (A : ℕ → Bool) (m safe : ℕ) (s lower upper : Segment) → lower.range.low ≡ s.range.low → lower.range.high ≡ Some upper.range.low → upper.range.high ≡ s.range.high →
        is_below lower.range.low lower.range.high ≡ true → is_below upper.range.low upper.range.high ≡ true →
        (IsGoodSegment log A m safe s → IsGoodSegment log A m safe lower) → (IsGoodSegment log A m safe s → IsGoodSegment log A m safe upper) →
        (before after : List Segment) → AreGood log A m safe (before ++ (s ∷ after)) → AreGood log A m safe (before ++ (lower ∷ upper ∷ after)) }
    ensures merged { (log : Log) (A : ℕ → Bool) (m safe : ℕ) (left right one : Segment) → one.range.low ≡ left.range.low → one.range.high ≡ right.range.high →
        (IsGoodSegment log A m safe left → IsGoodSegment log A m safe right → IsGoodSegment log A m safe one) →
        (before after : List Segment) → AreGood log A m safe (before ++ (left ∷ right ∷ after)) → AreGood log A m safe (before ++ (one ∷ after)) }
{}
