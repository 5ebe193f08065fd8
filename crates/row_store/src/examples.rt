// Small logs, and what the definitions say of them. The functions do nothing when they run; their
// contracts are proved by computing.
ghost use Rattle.row_store.specs.OneRegion.{PutIsShown, CommitsRise, LongValueIsFound, ExtremesAreInOrder, LocksAreInTheWay, ReadsWait, DeletesHide, StrangeRowsAreRefused, BoundsKeep};
ghost use Rattle.row_store.specs.ManyRegions.{SplitsRaiseEpochs, MergesJoin, InstallsBeginAnew, GeneratedIsShown};
ghost use Rattle.row_store.specs.Records.{EmptyLogHasNothing, OtherRecordsCommitNothing};
ghost use Rattle.row_store.specs.Indexes.{ReadIndexesMissNothing};
ghost use Rattle.row_store.specs.OneFile.{FileIsRead};
ghost use Rattle.row_store.specs.Sets.{PrefixesAreClosed, MergesWait};

/// A put is shown from its commit timestamp on.
pub fn put_is_shown()
    ensures { PutIsShown }
{}

/// A handle's commits come with rising timestamps, but for the last one said again.
pub fn commits_rise()
    ensures { CommitsRise }
{}

/// A put without a short value has its value in the default family, or is refused.
pub fn long_value_is_found()
    ensures { LongValueIsFound }
{}

/// Rows come in the order of signed handles.
pub fn extremes_are_in_order()
    ensures { ExtremesAreInOrder }
{}

/// A lock for a put is in the way of reads from its start on; a lock of another kind isn't.
pub fn locks_are_in_the_way()
    ensures { LocksAreInTheWay }
{}

/// A read waits for its index, and for all entries below the mark.
pub fn reads_wait()
    ensures { ReadsWait }
{}

/// A delete hides the row from its timestamp on, and no read is answered below the safe point.
pub fn deletes_hide()
    ensures { DeletesHide }
{}

/// A key outside of the region, and a column that the schema lacks, are refused.
pub fn strange_rows_are_refused()
    ensures { StrangeRowsAreRefused }
{}

/// A bound keeps the rows with a number in its column from low to high.
pub fn bounds_keep()
    ensures { BoundsKeep }
{}

/// After a split the old epoch is refused, and the child is born where the split is applied.
pub fn splits_raise_epochs()
    ensures { SplitsRaiseEpochs }
{}

/// The commit of a merge waits for the source's prepare, and leaves the target all handles.
pub fn merges_join()
    ensures { MergesJoin }
{}

/// A removal clears its region's rows, and an install begins with its own.
pub fn installs_begin_anew()
    ensures { InstallsBeginAnew }
{}

/// The generated log with one transaction is lawful, and shows its row at the end.
pub fn generated_is_shown()
    ensures { GeneratedIsShown }
{}

/// A log file of one put is read as the log of one put.
pub fn file_is_read()
    ensures { FileIsRead }
{}

/// Entries that are applied in the order of the log make closed sets.
pub fn prefixes_are_closed()
    ensures { PrefixesAreClosed }
{}

/// Regions advance by themselves, but the commit of a merge needs the source's prepare.
pub fn merges_wait()
    ensures { MergesWait }
{}

/// In the log with no entries no region is born, and the first entry makes its region.
pub fn empty_log_has_nothing()
    ensures { EmptyLogHasNothing }
{}

/// A lock record and a rollback record in the write family commit nothing.
pub fn other_records_commit_nothing()
    ensures { OtherRecordsCommitNothing }
{}

/// Of a log with a lock and its commit, which indexes are read indexes.
pub fn read_indexes_miss_nothing()
    ensures { ReadIndexesMissNothing }
{}
