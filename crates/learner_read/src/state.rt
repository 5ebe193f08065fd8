// Where a scan stands.
ghost use Rattle.std.specs.Prelude.{◌≡◌, [], None, IsTrue};
ghost use Rattle.column_block.specs.Order.{rises};

use column_block::Block;
use flash_types::Handle;
use std::alloc::Global;

// What is left of a piece: the handle from which on rows weren't given, all at first; the stable
// versions of these handles that were read; and the place from which on packs are left.
#[derive(Drop)]
pub struct Part {
    pub from: Option<Handle>,
    pub before: Block,
    pub next: u64,
    pub ghost rising: { IsTrue (rises before) },
}

impl Part {
    // A whole piece.
    pub fn new(alloc: Global) -> Part
        ensures from { result.from ≡ None }
        ensures before { result.before ≡ [] }
        ensures next { result.next ≡ 0 }
    {
        Part {
            from: None,
            before: Block::new(alloc),
            next: 0,
        }
    }
}

// The rows of a piece that come first, and what is left of it.
#[derive(Drop)]
pub struct Below {
    pub rows: Block,
    pub part: Part,
}

// The next rows of a piece, and what is left of it: nothing, where they are its last, and otherwise
// they are one at least.
#[derive(Drop)]
pub struct Found {
    pub rows: Block,
    pub part: Option<Part>,
}

// Rows that were found, the place of the piece that the scan is in or comes to behind them, and what
// is left of that piece.
#[derive(Drop)]
pub struct Step {
    pub rows: Block,
    pub next: usize,
    pub part: Option<Part>,
}
