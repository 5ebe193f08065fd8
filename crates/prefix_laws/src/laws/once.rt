// What installs and applies do to what is there at one count, for any set of applied entries and any
// mark: so it is for what is in memory, which is there at the last count.
ghost use Rattle.std.specs.Prelude.{◌≡◌, ◌≤◌, ◌++◌, ℕ, suc, Bool, false, List, map};
ghost use Rattle.column_block.specs.declared.cell.Version.{Version};
ghost use Rattle.flash_types.specs.declared.range.HandleRange.{HandleRange};
ghost use Rattle.committed_log.specs.Applied.{IsClosed, with_position};
ghost use Rattle.committed_log.specs.Lawful.{IsLawful};
ghost use Rattle.committed_log.specs.Log.{Log};
ghost use Rattle.good_replica.specs.Effect.{added, clearing};
ghost use Rattle.good_replica.specs.Good.{AreGood, IsGoodSegment};
ghost use Rattle.prefix_laws.specs.Clipped.{absorb, clip};
ghost use Rattle.prefix_laws.specs.Tagged.{Tagged, TaggedSegment, content, file_in, tagged_of};
ghost use Rattle.prefix_laws.specs.Views.{AllBy, AreBy, EachOfOne, HasAllOf, HasCollectionOf, IsWithin, Side, rest_of, segment_of};

/// A delta merge, a half of a split, a merge and an apply at one count.
pub fn installs_keep_one_count()
    ensures delta_merge { (log : Log) → IsLawful log → (A : ℕ → Bool) (m safe k : ℕ)
        → (range : HandleRange) (stable new : List Version) (taken rest : List Tagged) (at_safe : ℕ)
        → AreBy k taken
        → at_safe ≤ safe
        → HasCollectionOf at_safe range stable (map file_in taken) new
        → IsGoodSegment log A m safe (content k (tagged_of range stable (taken ++ rest)))
        → IsGoodSegment log A m safe (content k (tagged_of range new rest)) }
    ensures split { (log : Log) → IsLawful log → (A : ℕ → Bool) (m safe k : ℕ)
        → (range half : HandleRange) (stable new : List Version) (taken rest : List Tagged)
        → AreBy k taken
        → IsWithin half range
        → HasAllOf half stable (map file_in taken) new
        → IsGoodSegment log A m safe (content k (tagged_of range stable (taken ++ rest)))
        → IsGoodSegment log A m safe (content k (tagged_of half new (clip half rest))) }
    ensures merge { (log : Log) → IsLawful log → (A : ℕ → Bool) (m safe k : ℕ)
        → (left right : Side) (both : HandleRange) (new : List Version)
        → AreBy k left.taken
        → AreBy k right.taken
        → EachOfOne left.range right.range both
        → HasAllOf left.range left.stable (map file_in left.taken) new
        → HasAllOf right.range right.stable (map file_in right.taken) new
        → IsGoodSegment log A m safe (content k (segment_of left))
        → IsGoodSegment log A m safe (content k (segment_of right))
        → IsGoodSegment log A m safe (content k (tagged_of both new (rest_of left right))) }
    ensures apply { (log : Log) → IsLawful log
        → (A : ℕ → Bool) → IsClosed log A
        → (p : ℕ) → A p ≡ false → IsClosed log (with_position A p)
        → (m safe last : ℕ) (segments : List TaggedSegment)
        → AllBy last segments
        → AreGood log A m safe (map (content last) segments)
        → AreGood log (with_position A p) m safe
        (map (content (suc last)) (map (absorb (suc last) (clearing log p) (added log p)) segments)) }
{}
