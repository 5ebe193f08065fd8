//! Laws of lawful logs and of the generated log, which callers may use: each function does nothing
//! when it runs, and its contract is a law.
ghost use Rattle.std.specs.Prelude.{◌≡◌, ◌+◌, ◌*◌, ◌<◌, ◌≤◌, ◌^◌, ℕ, ℤ, true, None, length, FitsSigned};
ghost use Rattle.std.specs.Int.{w64};
ghost use Rattle.std.specs.Map.{values_of};
ghost use Rattle.flash_types.specs.Ranges.{holds, is_below};
ghost use Rattle.flash_types.specs.declared.range.HandleRange.{HandleRange};
ghost use Rattle.log_codec.specs.declared.entry.Entry.{Entry};
ghost use Rattle.log_codec.specs.declared.entry.Body.TheVariants as body;
ghost use Rattle.committed_log.specs.Admission.{least_taken};
ghost use Rattle.committed_log.specs.Lawful.{IsLawful, IsWritable, fault, pushed};
ghost use Rattle.committed_log.specs.Log.{Log, end};
ghost use Rattle.committed_log.specs.Regions.{region};
ghost use Rattle.committed_log.specs.declared.region.Region.TheVariants.{Unborn};
ghost use Rattle.committed_log.specs.declared.region.Descriptor.{Descriptor};
ghost use Rattle.generator.specs.Generated.{generated, log_of, begun, entry, last_index};
ghost use Rattle.generator.specs.Moments.{IsMoment};
ghost use Rattle.generator.specs.Transactions.{Transaction, Fits, IsNext, MayCommit, prewrite, commit, rollback, write_entry};

/// An entry that can be written and has no fault makes a longer lawful log.
pub fn admitted_entries_extend()
    ensures { (log : Log) (e : Entry) → IsLawful log → IsWritable e → fault log e ≡ None → IsLawful (pushed log e) }
{}

/// An entry that opens a region is admitted where the region isn't born, and its range isn't empty
/// and no other region has a handle of it.
pub fn opens_are_admitted()
    ensures { (log : Log) (r index conf_ver version : ℕ) (range : HandleRange) → length log.entries < 2 ^ 20 → region (end log).regions r ≡ Unborn →
        is_below range.low range.high ≡ true → least_taken range (values_of (end log).regions) ≡ None → fault log (entry r index (body.Open conf_ver version range.low range.high)) ≡ None }
{}

/// A prewrite of a row of a live region is admitted, with a short value or one in the default
/// family, or none.
pub fn prewrites_are_admitted()
    ensures { (log : Log) (r index ttl : ℕ) (d : Descriptor) (t : Transaction) → FitsSigned w64 log.table → ttl < 2 ^ 64 → Fits t →
        IsNext log r index d → holds d.range t.handle ≡ true → fault log (write_entry r index (prewrite log.table ttl t)) ≡ None }
{}

/// A commit is admitted where it is later than the last one on its row and what it puts is a row of
/// the table, a long value being in the default family, where its prewrite put it.
pub fn commits_are_admitted()
    ensures { (log : Log) (r index : ℕ) (d : Descriptor) (t : Transaction) → FitsSigned w64 log.table → Fits t →
        IsNext log r index d → holds d.range t.handle ≡ true → MayCommit log.schema (end log) t → fault log (write_entry r index (commit log.table t)) ≡ None }
{}

/// A rollback is admitted.
pub fn rollbacks_are_admitted()
    ensures { (log : Log) (r index : ℕ) (d : Descriptor) (t : Transaction) → FitsSigned w64 log.table → Fits t →
        IsNext log r index d → holds d.range t.handle ≡ true → fault log (write_entry r index (rollback log.table t)) ≡ None }
{}

/// Before each transaction the generated log is lawful, its eight regions are live with the indexes
/// of the definition, and each commit is earlier than the transaction.
pub fn moments_of_the_generated_log()
    ensures { (n : ℕ) → 2 * n + 8 ≤ 2 ^ 20 → IsLawful (log_of (begun n)) × IsMoment n (end (log_of (begun n))) }
{}

/// The generated log is lawful for each number of transactions for which a log has room.
pub fn generated_logs_are_lawful()
    ensures { (n : ℕ) → 2 * n + 10 ≤ 2 ^ 20 → IsLawful (generated n) }
{}
