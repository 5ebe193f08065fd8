// Why the laws of good replicas have their premises.
ghost use Rattle.good_examples.specs.Weakened.{FrontsNeedTheMark, CollectionsNeedTheSafePoint, LoneDeletesNeedNoneOlder, MergesNeedOrder, MergesNeedClipping, ChecksNeedTheirHandles};

/// A front doesn't go down where the mark is below it.
pub fn fronts_need_the_mark()
    ensures { FrontsNeedTheMark }
{}

/// A delta merge that collects above the safe point loses a version that a read may see.
pub fn collections_need_the_safe_point()
    ensures { CollectionsNeedTheSafePoint }
{}

/// A delete that is collected while an older version stays brings that version back.
pub fn lone_deletes_need_none_older()
    ensures { LoneDeletesNeedNoneOlder }
{}

/// Where an older version stands above its delete, a delta merge may collect the delete alone.
pub fn merges_need_order()
    ensures { MergesNeedOrder }
{}

/// Where the files of merged segments aren't clipped, a delete-range of the one clears rows of the other.
pub fn merges_need_clipping()
    ensures { MergesNeedClipping }
{}

/// The finite check says nothing where the handles aren't listed.
pub fn checks_need_their_handles()
    ensures { ChecksNeedTheirHandles }
{}
