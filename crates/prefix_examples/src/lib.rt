//! For tests: small segments at each count, and whether they are good, computed: where the laws of
//! flushes and merges are false without a premise. The functions do nothing when they run.
#![tactic(auto)]

ghost use Rattle.prefix_examples.specs.Examples.{CutAppliesAreGood, FlushesNeedSetsThatGrow, FlushesNeedTheMark, MergesNeedClipping, NamedRangesNeedTheMark};

/// What is named needs a mark above its position: versions, and a delete-range.
pub fn names_need_the_mark()
    ensures puts { FlushesNeedTheMark }
    ensures clears { NamedRangesNeedTheMark }
{}

/// Where the sets of the counts don't grow, a flush that is right at the last count is wrong before.
pub fn flushes_need_sets_that_grow()
    ensures { FlushesNeedSetsThatGrow }
{}

/// Files that aren't kept to their own segment's range take rows away when the segments become one.
pub fn merges_need_clipping()
    ensures { MergesNeedClipping }
{}

/// An apply that a view cuts does no harm.
pub fn cut_applies_are_good()
    ensures { CutAppliesAreGood }
{}
