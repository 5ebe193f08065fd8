// Laws of splits, which callers may use: they do nothing when they run.
ghost use Rattle.std.specs.Prelude.{◌≡◌, ℕ, ℤ, ◌<◌, ◌^◌, List, length, Ok};
ghost use Rattle.std.specs.List.{AllByRecursion};
ghost use Rattle.column_block.specs.declared.column.Column.{Column};
ghost use Rattle.delta_layer.specs.Laws.{OpensAs, PiecesSuit, ViewSuits};
ghost use Rattle.delta_layer.specs.declared.built.Built.{Built};
ghost use Rattle.delta_layer.specs.declared.view.SegmentView.{SegmentView};
ghost use Rattle.segment_split.specs.Halves.{GivesSplit, IsSplit};

use delta_layer::pieces_are_read_again;

/// The versions of a split that was built suit the schema that the segment's parts suit, and the files
/// of its halves, attached by their last bytes, are read as them.
pub fn splits_are_read_again<G>()
    ensures suit { (bytes : G → List ℕ) (columns : List Column) (old : SegmentView G) (built : Built G) → ViewSuits columns old → GivesSplit bytes old (Ok built) → PiecesSuit columns built.pieces }
    ensures opens { (bytes : G → List ℕ) (columns : List Column) (rows : ℕ) (at : ℤ) (old : SegmentView G) (built : Built G) → length columns < 2 ^ 16 → 0 < rows → rows < 2 ^ 32 → ViewSuits columns old →
        IsSplit columns rows at old built → GivesSplit bytes old (Ok built) → AllByRecursion (OpensAs bytes columns) built.pieces }
{
    pieces_are_read_again();
}
