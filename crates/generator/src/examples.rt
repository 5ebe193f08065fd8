//! The generated log with one transaction, computed: each function does nothing when it runs, and
//! its contract is the example.
ghost use Rattle.generator.specs.Examples.{FirstTransaction, Merges};

/// The first transaction.
pub fn first_transaction_is_computed()
    ensures { FirstTransaction }
{}

/// The regions at the end.
pub fn regions_are_merged()
    ensures { Merges }
{}
