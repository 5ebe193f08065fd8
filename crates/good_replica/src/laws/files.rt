// What the works on a segment's files do to the trail of a handle.
ghost use Rattle.std.specs.Prelude.{◌≡◌, ◌≤◌, ◌++◌, ℕ, ℤ, Bool, true, Some, None, List, ◌∷◌, map};
ghost use Rattle.column_block.specs.declared.cell.Version.{Version};
ghost use Rattle.flash_types.specs.Ranges.{holds};
ghost use Rattle.flash_types.specs.declared.range.HandleRange.{HandleRange};
ghost use Rattle.committed_log.specs.Lawful.{IsLawful};
ghost use Rattle.committed_log.specs.Log.{Log};
ghost use Rattle.good_replica.specs.Changed.{IsCollected, SaysNothing, of_parts, view, had};
ghost use Rattle.good_replica.specs.Effect.{clipped};
ghost use Rattle.good_replica.specs.Good.{IsGoodOn};
ghost use Rattle.version_gc.specs.Keep.{keep, Rise};
ghost use Rattle.good_replica.specs.Trail.{DeltaFile, Puts, trail, steps_on, after_steps};

/// A flush or a compaction: neighbouring blocks give way to one that has the same versions.
pub fn blocks_become_one()
    ensures { (log : Log) (h : ℤ) (f m safe : ℕ) (range : HandleRange) (stable one : List Version) (before after : List DeltaFile) (blocks : List (List Version)) →
        ((ts : ℕ) → had h one ts ≡ after_steps ts None (steps_on h (map Puts blocks))) →
        IsGoodOn log h f m safe (trail h (of_parts range stable (before ++ (map Puts blocks ++ after)))) → IsGoodOn log h f m safe (trail h (of_parts range stable (before ++ (Puts one ∷ after)))) }
{}

/// The first files of the delta go into the stable part, and nothing is left out.
pub fn stable_parts_take_files()
    ensures { (log : Log) → IsLawful log → (h : ℤ) (f m safe : ℕ) (range : HandleRange) (stable new : List Version) (taken rest : List DeltaFile) →
        ((ts : ℕ) → had h new ts ≡ view h stable taken ts) →
        IsGoodOn log h f m safe (trail h (of_parts range stable (taken ++ rest))) → IsGoodOn log h f m safe (trail h (of_parts range new rest)) }
{}

/// A delta merge: the first files of the delta go into a stable part that was collected at a safe
/// point not above the present one.
pub fn delta_merges_collect()
    ensures { (log : Log) → IsLawful log → (h : ℤ) (f m safe at : ℕ) (range : HandleRange) (stable new : List Version) (taken rest : List DeltaFile) → at ≤ safe →
        IsCollected at (view h stable taken) (had h new) →
        IsGoodOn log h f m safe (trail h (of_parts range stable (taken ++ rest))) → IsGoodOn log h f m safe (trail h (of_parts range new rest)) }
{}

/// What is kept of a block of versions in order is a collection of each row's.
pub fn kept_blocks_are_collected()
    ensures { (safe : ℕ) (versions : List Version) → Rise versions → (h : ℤ) → IsCollected safe (had h versions) (had h (keep safe versions)) }
{}

/// A split: a half of the segment has what the whole had of the half's handles. The files that came
/// after the view are clipped to the half.
pub fn split_halves_part()
    ensures { (log : Log) → IsLawful log → (h : ℤ) (f m safe : ℕ) (range half : HandleRange) (stable new : List Version) (taken rest : List DeltaFile) → holds half h ≡ true →
        ((ts : ℕ) → had h new ts ≡ view h stable taken ts) →
        IsGoodOn log h f m safe (trail h (of_parts range stable (taken ++ rest))) → IsGoodOn log h f m safe (trail h (of_parts half new (map (clipped half) rest))) }
{}

/// A merge of two segments: the files of the other one say nothing of a handle of this one.
pub fn merged_segments_join()
    ensures first { (log : Log) → IsLawful log → (h : ℤ) (f m safe : ℕ) (range both : HandleRange) (stable new : List Version) (taken rest others : List DeltaFile) → SaysNothing h others →
        ((ts : ℕ) → had h new ts ≡ view h stable taken ts) →
        IsGoodOn log h f m safe (trail h (of_parts range stable (taken ++ rest))) → IsGoodOn log h f m safe (trail h (of_parts both new (rest ++ others))) }
    ensures second { (log : Log) → IsLawful log → (h : ℤ) (f m safe : ℕ) (range both : HandleRange) (stable new : List Version) (taken rest others : List DeltaFile) → SaysNothing h others →
        ((ts : ℕ) → had h new ts ≡ view h stable taken ts) →
        IsGoodOn log h f m safe (trail h (of_parts range stable (taken ++ rest))) → IsGoodOn log h f m safe (trail h (of_parts both new (others ++ rest))) }
{}
