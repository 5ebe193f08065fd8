// Laws of keys and records, which callers may use: they do nothing when they run.
ghost use Rattle.kv_codec.specs.Laws.{KeysAreFound, TimestampsAreSplit, KeysAreInOrder, WritesAreReadAgain, LocksAreReadAgain};

/// The key of a record tells the handle that it was written for.
pub fn keys_are_found()
    ensures { KeysAreFound }
{}

/// A timestamp is split off again from the key that it was put behind.
pub fn timestamps_are_split()
    ensures { TimestampsAreSplit }
{}

/// Of two records of a table the one with the lower handle has the key that comes first, byte by
/// byte.
pub fn keys_are_in_order()
    ensures { KeysAreInOrder }
{}

/// A write record is read again, whatever follows it; behind one without a short value no `v`.
pub fn writes_are_read_again()
    ensures { WritesAreReadAgain }
{}

/// A lock record is read again, whatever follows it.
pub fn locks_are_read_again()
    ensures { LocksAreReadAgain }
{}
