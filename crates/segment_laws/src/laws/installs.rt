// What was built takes the place of its segments in the list of a replica's segments: at each count,
// and at one count for any set of applied entries and any mark, as for what is in memory.
ghost use Rattle.std.specs.Prelude.{◌≡◌, ◌≤◌, ◌++◌, ℕ, Bool, List, ◌∷◌, map};
ghost use Rattle.column_block.specs.declared.cell.Version.{Version};
ghost use Rattle.column_file.specs.declared.file.ColumnFile.{ColumnFile};
ghost use Rattle.flash_types.specs.declared.range.HandleRange.{HandleRange};
ghost use Rattle.committed_log.specs.Lawful.{IsLawful};
ghost use Rattle.committed_log.specs.Log.{Log};
ghost use Rattle.good_replica.specs.Good.{AreGood};
ghost use Rattle.delta_layer.specs.declared.built.Piece.{Piece};
ghost use Rattle.prefix_laws.specs.Prefixes.{ArePrefixesGood, AreSteps};
ghost use Rattle.prefix_laws.specs.Tagged.{Tagged, TaggedSegment, content, file_in, tagged_of};
ghost use Rattle.prefix_laws.specs.Views.{AreBy, IsTakenAt, Side, behind, segment_of};
ghost use Rattle.segment_laws.specs.Given.{HasBothOf, HasCollected, HasHalves, both_of, half_of};
ghost use Rattle.segment_laws.specs.Runs.{IsFlush, IsNamedRun, with_run};

/// The piece of a delta merge takes the segment's place, below the files that came later.
pub fn delta_merges_install()
    ensures counts { (log : Log) → IsLawful log
        → (S : ℕ → ℕ → Bool) (m safe from last : ℕ) → AreSteps S m last
        → (before after : List TaggedSegment)
        → (range : HandleRange) (stable : List Version) (taken rest : List Tagged)
        → (at at_safe : ℕ) (pieces : List Piece)
        → IsTakenAt from last at taken rest
        → at_safe ≤ safe
        → (has : HasCollected at_safe range stable (map file_in taken) pieces)
        → ArePrefixesGood log S m safe from last
        (before ++ (tagged_of range stable (taken ++ rest) ∷ after))
        → ArePrefixesGood log S m safe from last
        (before ++ (tagged_of range has.piece.versions rest ∷ after)) }
    ensures once { (log : Log) → IsLawful log → (A : ℕ → Bool) (m safe k : ℕ)
        → (before after : List TaggedSegment)
        → (range : HandleRange) (stable : List Version) (taken rest : List Tagged)
        → (at_safe : ℕ) (pieces : List Piece)
        → AreBy k taken
        → at_safe ≤ safe
        → (has : HasCollected at_safe range stable (map file_in taken) pieces)
        → AreGood log A m safe
        (map (content k) (before ++ (tagged_of range stable (taken ++ rest) ∷ after)))
        → AreGood log A m safe
        (map (content k) (before ++ (tagged_of range has.piece.versions rest ∷ after))) }
{}

/// The halves of a split take the segment's place, each below its part of the later files.
pub fn splits_install()
    ensures counts { (log : Log) → IsLawful log
        → (S : ℕ → ℕ → Bool) (m safe from last : ℕ) → AreSteps S m last
        → (before after : List TaggedSegment)
        → (range : HandleRange) (stable : List Version) (taken rest : List Tagged)
        → (at : ℕ) (pieces : List Piece)
        → IsTakenAt from last at taken rest
        → (has : HasHalves range stable (map file_in taken) pieces)
        → ArePrefixesGood log S m safe from last
        (before ++ (tagged_of range stable (taken ++ rest) ∷ after))
        → ArePrefixesGood log S m safe from last
        (before ++ (half_of has.low rest ∷ half_of has.high rest ∷ after)) }
    ensures once { (log : Log) → IsLawful log → (A : ℕ → Bool) (m safe k : ℕ)
        → (before after : List TaggedSegment)
        → (range : HandleRange) (stable : List Version) (taken rest : List Tagged)
        → (pieces : List Piece)
        → AreBy k taken
        → (has : HasHalves range stable (map file_in taken) pieces)
        → AreGood log A m safe
        (map (content k) (before ++ (tagged_of range stable (taken ++ rest) ∷ after)))
        → AreGood log A m safe
        (map (content k) (before ++ (half_of has.low rest ∷ half_of has.high rest ∷ after))) }
{}

/// The piece of a merge takes the place of both segments, below the later files of both.
pub fn merges_install()
    ensures counts { (log : Log) → IsLawful log
        → (S : ℕ → ℕ → Bool) (m safe from last : ℕ) → AreSteps S m last
        → (before after : List TaggedSegment)
        → (left right : Side) (left_at right_at : ℕ) (pieces : List Piece)
        → IsTakenAt from last left_at left.taken (behind left)
        → IsTakenAt from last right_at right.taken (behind right)
        → (has : HasBothOf left right pieces)
        → ArePrefixesGood log S m safe from last
        (before ++ (segment_of left ∷ segment_of right ∷ after))
        → ArePrefixesGood log S m safe from last
        (before ++ (both_of left right has.piece ∷ after)) }
    ensures once { (log : Log) → IsLawful log → (A : ℕ → Bool) (m safe k : ℕ)
        → (before after : List TaggedSegment)
        → (left right : Side) (pieces : List Piece)
        → AreBy k left.taken
        → AreBy k right.taken
        → (has : HasBothOf left right pieces)
        → AreGood log A m safe
        (map (content k) (before ++ (segment_of left ∷ segment_of right ∷ after)))
        → AreGood log A m safe
        (map (content k) (before ++ (both_of left right has.piece ∷ after))) }
{}

/// One tiny file takes the place of the first run of them in a segment, where those are all named.
pub fn compactions_install()
    ensures counts { (log : Log) (S : ℕ → ℕ → Bool) (m safe from last : ℕ)
        → (before after : List TaggedSegment)
        → (range : HandleRange) (stable : List Version) (files : List Tagged)
        → (layer : List ColumnFile) (start end tag : ℕ)
        → IsNamedRun from tag layer start end files
        → ArePrefixesGood log S m safe from last
        (before ++ (tagged_of range stable files ∷ after))
        → ArePrefixesGood log S m safe from last
        (before ++ (tagged_of range stable (with_run tag layer start end files) ∷ after)) }
    ensures once { (log : Log) (A : ℕ → Bool) (m safe k : ℕ)
        → (before after : List TaggedSegment)
        → (range : HandleRange) (stable : List Version) (files : List Tagged)
        → (layer : List ColumnFile) (start end tag : ℕ)
        → IsNamedRun k tag layer start end files
        → AreGood log A m safe
        (map (content k) (before ++ (tagged_of range stable files ∷ after)))
        → AreGood log A m safe
        (map (content k)
        (before ++ (tagged_of range stable (with_run tag layer start end files) ∷ after))) }
{}

/// The files that a flush leaves take the place of a segment's files.
pub fn flushes_install()
    ensures counts { (log : Log) → IsLawful log
        → (S : ℕ → ℕ → Bool) (m safe from last : ℕ) → AreSteps S m last
        → from ≤ last
        → (before after : List TaggedSegment)
        → (range : HandleRange) (stable : List Version) (old new : List Tagged)
        → IsFlush from last old new
        → ArePrefixesGood log S m safe from last
        (before ++ (tagged_of range stable old ∷ after))
        → ArePrefixesGood log S m safe from last
        (before ++ (tagged_of range stable new ∷ after)) }
    ensures once { (log : Log) (A : ℕ → Bool) (m safe k : ℕ)
        → (before after : List TaggedSegment)
        → (range : HandleRange) (stable : List Version) (old new : List Tagged)
        → IsFlush k k old new
        → AreGood log A m safe (map (content k) (before ++ (tagged_of range stable old ∷ after)))
        → AreGood log A m safe (map (content k) (before ++ (tagged_of range stable new ∷ after))) }
{}
