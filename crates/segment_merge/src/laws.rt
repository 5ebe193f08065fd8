// Laws of merges, which callers may use: they do nothing when they run.
ghost use Rattle.std.specs.Prelude.{◌≡◌, ℕ, ◌<◌, ◌^◌, List, length, Ok};
ghost use Rattle.std.specs.List.{AllByRecursion};
ghost use Rattle.column_block.specs.declared.column.Column.{Column};
ghost use Rattle.delta_layer.specs.Laws.{OpensAs, PiecesSuit, ViewSuits};
ghost use Rattle.delta_layer.specs.declared.built.Built.{Built};
ghost use Rattle.delta_layer.specs.declared.view.SegmentView.{SegmentView};
ghost use Rattle.segment_merge.specs.Joined.{GivesMerge, IsMerge};

use delta_layer::pieces_are_read_again;

/// The versions of a merge that was built suit the schema that the parts of both segments suit, and its
/// file, attached by its last bytes, is read as them.
pub fn merges_are_read_again<G>()
    ensures suit { (bytes : G → List ℕ) (columns : List Column) (left right : SegmentView G) (built : Built G) → ViewSuits columns left → ViewSuits columns right → GivesMerge bytes left right (Ok built) → PiecesSuit columns built.pieces }
    ensures opens { (bytes : G → List ℕ) (columns : List Column) (rows : ℕ) (left right : SegmentView G) (built : Built G) → length columns < 2 ^ 16 → 0 < rows → rows < 2 ^ 32 → ViewSuits columns left → ViewSuits columns right →
        IsMerge columns rows left right built → GivesMerge bytes left right (Ok built) → AllByRecursion (OpensAs bytes columns) built.pieces }
{
    pieces_are_read_again();
}
