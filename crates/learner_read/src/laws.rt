// Laws of the rows that a read shows, which callers may use: they do nothing when they run.
ghost use Rattle.std.specs.Prelude.{◌≡◌, ℕ, ℤ, ◌<ℤ◌, AllPairs, List};
ghost use Rattle.column_block.specs.declared.cell.Version.{Version};
ghost use Rattle.good_replica.specs.Changed.{had};
ghost use Rattle.column_block.specs.Order.{Rise};
ghost use Rattle.good_replica.specs.Shows.{Shows};
ghost use Rattle.learner_read.specs.Rows.{cells_on, shown_rows};

/// The rows that versions in order show at a timestamp are what the read rule says of each handle:
/// a row with the cells that it shows, and no row where it shows nothing. Handles rise, each once.
pub fn shown_rows_are_the_read_rule()
    ensures shows { (ts : ℕ) (versions : List Version) → Rise versions → (h : ℤ) → Shows (had h versions) ts (cells_on h (shown_rows ts versions)) }
    ensures once { (ts : ℕ) (versions : List Version) → Rise versions → AllPairs (λ (v w : Version). v.handle <ℤ w.handle) (shown_rows ts versions) }
{}
