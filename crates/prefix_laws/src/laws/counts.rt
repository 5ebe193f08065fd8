// What flushes, compactions, delta merges, splits and merges do to what is there at each count.
ghost use Rattle.std.specs.Prelude.{◌≡◌, ◌≤◌, ◌++◌, ℕ, Bool, List, map};
ghost use Rattle.column_block.specs.declared.cell.Version.{Version};
ghost use Rattle.flash_types.specs.declared.range.HandleRange.{HandleRange};
ghost use Rattle.committed_log.specs.Lawful.{IsLawful};
ghost use Rattle.committed_log.specs.Log.{Log};
ghost use Rattle.good_replica.specs.Changed.{of_parts};
ghost use Rattle.good_replica.specs.Good.{IsGoodSegment};
ghost use Rattle.good_replica.specs.Trail.{DeltaFile};
ghost use Rattle.prefix_laws.specs.Clipped.{clip};
ghost use Rattle.prefix_laws.specs.Prefixes.{AreSteps, IsPrefixGood};
ghost use Rattle.prefix_laws.specs.Tagged.{Tagged, TaggedSegment, content, file_in, tagged_of};
ghost use Rattle.prefix_laws.specs.Views.{AreBy, EachOfOne, HasAllOf, HasCollectionOf, IsTaken, IsTakenAt, IsWithin, Side, behind, rest_of, segment_of};

/// A delta merge: the files of its view go into a new stable part, collected at a safe point not
/// above the present one.
pub fn delta_merges_keep_counts()
    ensures { (log : Log) → IsLawful log
        → (S : ℕ → ℕ → Bool) (m safe from last : ℕ) → AreSteps S m last
        → (range : HandleRange) (stable new : List Version) (taken rest : List Tagged) (at at_safe : ℕ)
        → IsTakenAt from last at taken rest
        → at_safe ≤ safe
        → HasCollectionOf at_safe range stable (map file_in taken) new
        → IsPrefixGood log S m safe from last (tagged_of range stable (taken ++ rest))
        → IsPrefixGood log S m safe from last (tagged_of range new rest) }
{}

/// A half of a split, with the later files kept to it.
pub fn splits_keep_counts()
    ensures { (log : Log) → IsLawful log
        → (S : ℕ → ℕ → Bool) (m safe from last : ℕ) → AreSteps S m last
        → (range half : HandleRange) (stable new : List Version) (taken rest : List Tagged) (at : ℕ)
        → IsTakenAt from last at taken rest
        → IsWithin half range
        → HasAllOf half stable (map file_in taken) new
        → IsPrefixGood log S m safe from last (tagged_of range stable (taken ++ rest))
        → IsPrefixGood log S m safe from last (tagged_of half new (clip half rest)) }
{}

/// A merge of two segments, with the later files of both in the order that a manifest needs. The
/// views of the two may be of different counts.
pub fn merges_keep_counts()
    ensures { (log : Log) → IsLawful log
        → (S : ℕ → ℕ → Bool) (m safe from last : ℕ) → AreSteps S m last
        → (left right : Side) (both : HandleRange) (new : List Version) (left_at right_at : ℕ)
        → IsTakenAt from last left_at left.taken (behind left)
        → IsTakenAt from last right_at right.taken (behind right)
        → EachOfOne left.range right.range both
        → HasAllOf left.range left.stable (map file_in left.taken) new
        → HasAllOf right.range right.stable (map file_in right.taken) new
        → IsPrefixGood log S m safe from last (segment_of left)
        → IsPrefixGood log S m safe from last (segment_of right)
        → IsPrefixGood log S m safe from last (tagged_of both new (rest_of left right)) }
{}

/// A flush: what is there at the last count is named, and so it is there at each.
pub fn flushes_keep_counts()
    ensures { (log : Log) → IsLawful log
        → (S : ℕ → ℕ → Bool) (m safe from last : ℕ) → AreSteps S m last
        → from ≤ last
        → (old new : TaggedSegment)
        → new.range ≡ old.range
        → AreBy from new.files
        → (IsGoodSegment log (S last) m safe (content last old)
        → IsGoodSegment log (S last) m safe (content last new))
        → IsPrefixGood log S m safe from last old
        → IsPrefixGood log S m safe from last new }
{}

/// The first files, all named, give way to others that are named, as in a compaction.
pub fn named_files_give_way()
    ensures { (log : Log) → IsLawful log
        → (S : ℕ → ℕ → Bool) (m safe from last : ℕ)
        → (range : HandleRange) (stable : List Version) (old new more : List Tagged)
        → AreBy from old
        → AreBy from new
        → ((k : ℕ) (others : List DeltaFile)
        → IsGoodSegment log (S k) m safe (of_parts range stable (map file_in old ++ others))
        → IsGoodSegment log (S k) m safe (of_parts range stable (map file_in new ++ others)))
        → IsPrefixGood log S m safe from last (tagged_of range stable (old ++ more))
        → IsPrefixGood log S m safe from last (tagged_of range stable (new ++ more)) }
{}

/// Whatever number parts a view's files from the later ones, a count between the committed and the
/// last one does.
pub fn views_have_counts()
    ensures { (from last k : ℕ) (taken rest : List Tagged)
        → from ≤ last
        → IsTaken from last k taken rest
        → (at : ℕ) × IsTakenAt from last at taken rest }
{}
