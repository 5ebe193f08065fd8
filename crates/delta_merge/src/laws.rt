// Laws of delta merges, which callers may use: they do nothing when they run.
ghost use Rattle.std.specs.Prelude.{◌≡◌, ℕ, ◌<◌, ◌^◌, List, length, Ok};
ghost use Rattle.std.specs.List.{AllByRecursion};
ghost use Rattle.column_block.specs.declared.column.Column.{Column};
ghost use Rattle.delta_layer.specs.Laws.{OpensAs, PiecesSuit, ViewSuits};
ghost use Rattle.delta_layer.specs.declared.built.Built.{Built};
ghost use Rattle.delta_layer.specs.declared.view.SegmentView.{SegmentView};
ghost use Rattle.delta_merge.specs.Merged.{GivesDeltaMerge, IsDeltaMerge};

use delta_layer::pieces_are_read_again;

/// The versions of a delta merge that was built suit the schema that the segment's parts suit, and its
/// file, attached by its last bytes, is read as them.
pub fn delta_merges_are_read_again<G>()
    ensures suit { (bytes : G → List ℕ) (columns : List Column) (safe : ℕ) (old : SegmentView G) (built : Built G) → ViewSuits columns old → GivesDeltaMerge bytes safe old (Ok built) → PiecesSuit columns built.pieces }
    ensures opens { (bytes : G → List ℕ) (columns : List Column) (rows safe : ℕ) (old : SegmentView G) (built : Built G) → length columns < 2 ^ 16 → 0 < rows → rows < 2 ^ 32 → ViewSuits columns old →
        IsDeltaMerge columns rows safe old built → GivesDeltaMerge bytes safe old (Ok built) → AllByRecursion (OpensAs bytes columns) built.pieces }
{
    pieces_are_read_again();
}
