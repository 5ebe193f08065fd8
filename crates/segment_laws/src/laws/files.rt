// What flushes and compactions do to a segment.
ghost use Rattle.std.specs.Prelude.{◌≡◌, ◌≤◌, ◌++◌, ℕ, Bool, List, map};
ghost use Rattle.column_block.specs.declared.cell.Version.{Version};
ghost use Rattle.column_file.specs.declared.file.ColumnFile.{ColumnFile};
ghost use Rattle.flash_types.specs.declared.range.HandleRange.{HandleRange};
ghost use Rattle.committed_log.specs.Lawful.{IsLawful};
ghost use Rattle.committed_log.specs.Log.{Log};
ghost use Rattle.good_replica.specs.Changed.{of_parts};
ghost use Rattle.good_replica.specs.Good.{IsGoodSegment};
ghost use Rattle.delta_layer.specs.Files.{files_of};
ghost use Rattle.delta_layer.specs.Repacked.{Repacked};
ghost use Rattle.prefix_laws.specs.Prefixes.{AreSteps, IsPrefixGood};
ghost use Rattle.prefix_laws.specs.Tagged.{Tagged, content, file_in, tagged_of};
ghost use Rattle.prefix_laws.specs.Views.{AreBy};
ghost use Rattle.segment_laws.specs.Runs.{IsFlush, IsNamedRun, with_run};

/// A segment whose layer came from another by flushes and compactions is good where the other is.
pub fn repacked_segments_stay_good()
    ensures { (log : Log) (A : ℕ → Bool) (m safe : ℕ)
        → (range : HandleRange) (stable : List Version) (old new : List ColumnFile)
        → Repacked old new
        → IsGoodSegment log A m safe (of_parts range stable (files_of old))
        → IsGoodSegment log A m safe (of_parts range stable (files_of new)) }
{}

/// A flush: at each count, and at one count for any set and any mark.
pub fn flushed_segments_stay_good()
    ensures counts { (log : Log) → IsLawful log
        → (S : ℕ → ℕ → Bool) (m safe from last : ℕ) → AreSteps S m last
        → from ≤ last
        → (range : HandleRange) (stable : List Version) (old new : List Tagged)
        → IsFlush from last old new
        → IsPrefixGood log S m safe from last (tagged_of range stable old)
        → IsPrefixGood log S m safe from last (tagged_of range stable new) }
    ensures once { (log : Log) (A : ℕ → Bool) (m safe k : ℕ)
        → (range : HandleRange) (stable : List Version) (old new : List Tagged)
        → IsFlush k k old new
        → IsGoodSegment log A m safe (content k (tagged_of range stable old))
        → IsGoodSegment log A m safe (content k (tagged_of range stable new)) }
{}

/// A compaction of a run of tiny files that are all named: at each count, and at one count for any
/// set and any mark. It needs no higher mark.
pub fn compacted_segments_stay_good()
    ensures counts { (log : Log) (S : ℕ → ℕ → Bool) (m safe from last : ℕ)
        → (range : HandleRange) (stable : List Version) (files : List Tagged)
        → (layer : List ColumnFile) (start end tag : ℕ)
        → IsNamedRun from tag layer start end files
        → IsPrefixGood log S m safe from last (tagged_of range stable files)
        → IsPrefixGood log S m safe from last
        (tagged_of range stable (with_run tag layer start end files)) }
    ensures once { (log : Log) (A : ℕ → Bool) (m safe k : ℕ)
        → (range : HandleRange) (stable : List Version) (files : List Tagged)
        → (layer : List ColumnFile) (start end tag : ℕ)
        → IsNamedRun k tag layer start end files
        → IsGoodSegment log A m safe (content k (tagged_of range stable files))
        → IsGoodSegment log A m safe
        (content k (tagged_of range stable (with_run tag layer start end files))) }
{}

/// The first files, all named, are packed anew by flushes and compactions.
pub fn repacked_files_keep_counts()
    ensures { (log : Log) → IsLawful log
        → (S : ℕ → ℕ → Bool) (m safe from last : ℕ)
        → (range : HandleRange) (stable : List Version) (old new more : List Tagged)
        → (layer renewed : List ColumnFile)
        → AreBy from old
        → AreBy from new
        → map file_in old ≡ files_of layer
        → map file_in new ≡ files_of renewed
        → Repacked layer renewed
        → IsPrefixGood log S m safe from last (tagged_of range stable (old ++ more))
        → IsPrefixGood log S m safe from last (tagged_of range stable (new ++ more)) }
{}
