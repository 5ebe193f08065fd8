// Laws of layers, which callers may use: they do nothing when they run.
ghost use Rattle.std.specs.Prelude.{◌≡◌, ℕ, ◌<◌, ◌^◌, List, [], ◌∷◌, length, Some, None, Ok};
ghost use Rattle.std.specs.List.{AllByRecursion};
ghost use Rattle.column_block.specs.declared.cell.Version.{Version};
ghost use Rattle.column_block.specs.declared.column.Column.{Column};
ghost use Rattle.column_block.specs.Order.{Rise};
ghost use Rattle.column_block.specs.Suiting.{Suits};
ghost use Rattle.stable_file.specs.declared.file.StableFile.{StableFile};
ghost use Rattle.stable_file.specs.Footer.{tail_at};
ghost use Rattle.stable_file.specs.Opened.{HasEnd, IsTailOf, grip_of, packs_of, schema_of};
ghost use Rattle.delta_layer.specs.Laws.{BlocksBecomeOne, PiecesAreReadAgain, PresentVersionsSuit, StableFilesSuit, TinyFilesBecomeOne};
ghost use Rattle.delta_layer.specs.Pieces.{IsStablePiece};
ghost use Rattle.delta_layer.specs.Stable.{stable_in};
ghost use Rattle.delta_layer.specs.Present.{PresentIsUnique};
ghost use Rattle.delta_layer.specs.Repacked.{RepackedShowTheSame};

use stable_file::{built_footers_are_read_again, built_packs_are_read_again};

/// One list alone has the versions that are present in a segment.
pub fn present_versions_are_unique()
    ensures { PresentIsUnique }
{}

/// A layer that came from another by flushes and compactions has the same versions at every handle
/// and timestamp, above any stable part.
pub fn repacked_layers_show_the_same()
    ensures { RepackedShowTheSame }
{}

/// The versions of several blocks, one behind the other, may take the blocks' place.
pub fn blocks_become_one()
    ensures flush { BlocksBecomeOne }
    ensures compact { TinyFilesBecomeOne }
{}

/// What is read of a stable file suits the schema that it is read with.
pub fn stable_files_suit()
    ensures { StableFilesSuit }
{}

/// Present versions of parts that suit a schema suit it.
pub fn present_versions_suit()
    ensures { PresentVersionsSuit }
{}

/// The file of a piece that was built is read as the piece's versions.
pub fn pieces_are_read_again()
    ensures { PiecesAreReadAgain }
{
    built_packs_are_read_again();
    built_footers_are_read_again();
}

/// The file of a piece that was built, attached by its last bytes, reads as the piece's versions; and
/// a stable part without a file has none.
pub fn attached_pieces_are_read<G>()
    ensures some { (bytes : G → List ℕ) (file : StableFile G) (columns : List Column) (rows : ℕ) (v : Version) (vs : List Version) (tail : List ℕ) (len : ℕ) → length columns < 2 ^ 16 → 0 < rows → rows < 2 ^ 32 → Rise (v ∷ vs) → AllByRecursion (Suits columns) (v ∷ vs) →
        IsStablePiece columns rows (v ∷ vs) (bytes (grip_of file)) → IsTailOf len tail (bytes (grip_of file)) → HasEnd len tail → schema_of file ≡ columns → tail_at len columns tail ≡ Ok (packs_of file) → stable_in bytes (Some file) ≡ Ok (v ∷ vs) }
    ensures none { (bytes : G → List ℕ) → stable_in bytes None ≡ Ok [] }
{
    pieces_are_read_again();
}
