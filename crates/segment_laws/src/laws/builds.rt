// What builds give to the laws of goodness, and that they are by their jobs.
ghost use Rattle.std.specs.Prelude.{◌≡◌, ◌++◌, ℕ, ℤ, List, [], ◌∷◌, Ok};
ghost use Rattle.column_block.specs.declared.cell.Version.{Version};
ghost use Rattle.column_block.specs.declared.column.Column.{Column};
ghost use Rattle.column_file.specs.declared.file.ColumnFile.TheVariants.{Tiny};
ghost use Rattle.delta_layer.specs.Files.{files_of};
ghost use Rattle.delta_layer.specs.Repacked.{CanCompact};
ghost use Rattle.delta_layer.specs.Stable.{stable_in};
ghost use Rattle.delta_layer.specs.declared.built.Built.{Built};
ghost use Rattle.delta_layer.specs.declared.built.Job.{Job};
ghost use Rattle.delta_layer.specs.declared.view.SegmentView.{SegmentView};
ghost use Rattle.delta_merge.specs.Merged.{GivesDeltaMerge, IsDeltaMerge};
ghost use Rattle.segment_split.specs.Halves.{GivesSplit, IsCut, IsSplit};
ghost use Rattle.segment_merge.specs.Joined.{GivesMerge, IsMerge, Touch};
ghost use Rattle.segment_laws.specs.Given.{HasBoth, HasCollected, HasHalves};
ghost use Rattle.segment_laws.specs.Jobs.{IsBuilt, IsBuiltBy, IsCompaction};
ghost use Rattle.segment_laws.specs.Runs.{run_of};

use flash_io::Gripped;

/// A delta merge that was built has a collection of what the segment had.
pub fn delta_merges_give<G>()
    ensures { (bytes : G → List ℕ) (columns : List Column) (rows safe : ℕ)
        → (old : SegmentView G) (built : Built G) (stable : List Version)
        → IsDeltaMerge columns rows safe old built
        → GivesDeltaMerge bytes safe old (Ok built)
        → stable_in bytes old.stable ≡ Ok stable
        → HasCollected safe old.range stable (files_of old.delta) built.pieces }
{}

/// The halves of a split that was built have what the segment had of their handles.
pub fn splits_give<G>()
    ensures { (bytes : G → List ℕ) (columns : List Column) (rows : ℕ) (at : ℤ)
        → (old : SegmentView G) (built : Built G) (stable : List Version)
        → IsCut old.range at
        → IsSplit columns rows at old built
        → GivesSplit bytes old (Ok built)
        → stable_in bytes old.stable ≡ Ok stable
        → HasHalves old.range stable (files_of old.delta) built.pieces }
{}

/// A merge that was built has what each of the two segments had of its handles.
pub fn merges_give<G>()
    ensures { (bytes : G → List ℕ) (columns : List Column) (rows : ℕ)
        → (left right : SegmentView G) (built : Built G) (left_stable right_stable : List Version)
        → Touch left.range right.range
        → IsMerge columns rows left right built
        → GivesMerge bytes left right (Ok built)
        → stable_in bytes left.stable ≡ Ok left_stable
        → stable_in bytes right.stable ≡ Ok right_stable
        → HasBoth left.range right.range left_stable right_stable
        (files_of left.delta) (files_of right.delta) built.pieces }
{}

/// The run of tiny files that a compaction puts together may take their place as one tiny file.
pub fn compactions_give<G>()
    ensures { (columns : List Column) (old : SegmentView G) (built : Built G)
        → (is : IsCompaction columns old built)
        → (file : ℕ)
        → CanCompact is.from is.to (Tiny file (run_of old.delta is.from is.to)) old.delta }
{}

/// What a build of each kind answers is by its job.
pub fn builds_are_by_their_jobs<G: Gripped>()
    ensures compaction { (columns : List Column) (rows : ℕ)
        → (old : SegmentView G) (built : Built G)
        → IsCompaction columns old built
        → IsBuilt G.Gripped.tells G.Gripped.bytes columns rows built }
    ensures delta_merge { (columns : List Column) (rows safe : ℕ)
        → (old : SegmentView G) (built : Built G)
        → IsDeltaMerge columns rows safe old built
        → (G.Gripped.tells → GivesDeltaMerge G.Gripped.bytes safe old (Ok built))
        → IsBuilt G.Gripped.tells G.Gripped.bytes columns rows built }
    ensures split { (columns : List Column) (rows : ℕ) (at : ℤ)
        → (old : SegmentView G) (built : Built G)
        → IsCut old.range at
        → IsSplit columns rows at old built
        → (G.Gripped.tells → GivesSplit G.Gripped.bytes old (Ok built))
        → IsBuilt G.Gripped.tells G.Gripped.bytes columns rows built }
    ensures merge { (columns : List Column) (rows : ℕ)
        → (left right : SegmentView G) (built : Built G)
        → Touch left.range right.range
        → IsMerge columns rows left right built
        → (G.Gripped.tells → GivesMerge G.Gripped.bytes left right (Ok built))
        → IsBuilt G.Gripped.tells G.Gripped.bytes columns rows built }
{}

/// Where the job is known, what was built is what that job makes.
pub fn jobs_tell_what_was_built<G: Gripped>()
    ensures { (columns : List Column) (rows : ℕ) (built : Built G) (job : Job)
        → built.job ≡ job
        → IsBuilt G.Gripped.tells G.Gripped.bytes columns rows built
        → IsBuiltBy G.Gripped.tells G.Gripped.bytes columns rows job built }
{}
