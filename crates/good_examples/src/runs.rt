// What a replica does, step by step, and what goes wrong.
ghost use Rattle.good_examples.specs.Runs.{PutsStayGood, CrashKeepsMark, SegmentsStayGood, CheckpointsStayGood, RemovalsStayGood, WrongReplicasAreRefused};

/// Puts, a flush, a delta merge below the safe point and a checkpoint leave the replica good.
pub fn puts_stay_good()
    ensures { PutsStayGood }
{}

/// What was flushed past the applied entries stays good behind a raised mark.
pub fn crash_keeps_mark()
    ensures { CrashKeepsMark }
{}

/// A delta merge, a split of the segment and a merge of its halves leave it good.
pub fn segments_stay_good()
    ensures { SegmentsStayGood }
{}

/// A crash goes back to the checkpoint, while the files of a later flush stay behind the mark.
pub fn checkpoints_stay_good()
    ensures { CheckpointsStayGood }
{}

/// A removal and an install leave it good, by their delete-ranges.
pub fn removals_stay_good()
    ensures { RemovalsStayGood }
{}

/// A dropped delete-range, a mark that wasn't raised, and an old version beside a collected delete.
pub fn wrong_replicas_are_refused()
    ensures { WrongReplicasAreRefused }
{}
