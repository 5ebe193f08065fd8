// Laws of rows, which callers may use: they do nothing when they run.
ghost use Rattle.row_decode.specs.Laws.{CellsSuit};

/// The cells of a row suit the schema under which they are read.
pub fn cells_suit()
    ensures { CellsSuit }
{}
