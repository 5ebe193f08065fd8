// A disk of numbered files: what a read gives, and what a crash may leave.
ghost use Rattle.std.specs.Prelude.{◌≡◌, ◌≤◌, ◌↔◌, ◌^◌, ◌-◌, ◌+◌, ◌++◌, min, List, ℕ, length, take, drop, OnOk, OnErr, IfOk, IsErrOf, Contains, None};
ghost use Rattle.std.specs.List.Sorted.{IsStrictlyIncreasing};
ghost use Rattle.flash_io.specs.Image.{Image, IsThere, Holds, HasPart, Written, SameBut};
ghost use Rattle.flash_io.specs.Crash.{Created, Torn, Removed, SyncedTo, KeepsSynced, NoNew, SameOutcomes, Follows, Allows, Elapses};
ghost use Rattle.flash_io.specs.Faults.{HasCause};
ghost use Rattle.flash_io.specs.DiskFaults.{HasDiskCause};

use crate::fault::DiskFault;
use crate::reader::Reader;
use crate::stream::Failed;
use std::alloc::Global;

/// The number of a file.
pub type FileId = u32;

/// A disk of numbered files, of which one user holds the whole. Its content, and so the images that
/// a crash may leave, may be told or not; clauses on content hold where it is told.
///
/// Until a file is synced, each range that was written may hold any bytes after a crash, and the
/// length is between the old and the new one; a file that was created may be absent, as it was
/// before, or hold any bytes up to the given length; one that was removed may be back as it was.
/// After a sync a crash leaves what a read gives.
///
/// Any call may answer `Failed`, and then the count of faults rose; at any other answer it is as it
/// was. `Memory` leaves the disk as it was. No call changes another file, as it reads or in an image.
pub trait Disk: Drop {
    type Reader: Reader;

    /// Whether it tells its content.
    ghost tells: { Type 0 };

    /// The files as a read gives them.
    ghost files: { Self → Image };

    /// What a crash at this moment may leave.
    ghost may_leave: { Self → Image → Type 0 };

    /// The moment, as a number that doesn't fall.
    ghost moment: { Self → ℕ };

    /// What a crash at some moment from that one on might have left.
    ghost left_since: { Self → ℕ → Image → Type 0 };

    /// How often a call has failed: it rises where the answer is `Failed`, and there alone. It never
    /// falls, and stops at the last value of a `u64`.
    ghost fault_count: { Self → ℕ };

    /// No call is to fail, where that is told.
    ghost never_fails: { Self → Type 0 };

    /// How often the readers that were retired had failed.
    ghost reader_fault_count: { Self → ℕ };

    /// Makes the file with these bytes, or makes it anew. After `Failed` the file reads as one of
    /// the images that a crash may then leave.
    fn create(&mut self, file: FileId, bytes: &[u8]) -> Result<(), DiskFault>
        ensures created { tells → OnOk result (Holds (files self.new) file bytes.now) }
        ensures others { SameBut file (files self.old) (files self.new) }
        ensures crash { Follows (Created file (length bytes.now)) (may_leave self.old) (may_leave self.new) }
        ensures model { OnOk result (Allows (Created file (length bytes.now)) (may_leave self.old) (may_leave self.new)) }
        ensures memory { IsErrOf result DiskFault.Memory → (files self.new ≡ files self.old) × SameOutcomes (may_leave self.old) (may_leave self.new) }
        ensures time { Elapses (moment self.old) (moment self.new) (left_since self.old) (left_since self.new) (may_leave self.new) }
        ensures cause { HasDiskCause (fault_count self.old) (fault_count self.new) result }
        ensures spared { never_fails self.old → never_fails self.new × (fault_count self.new ≡ fault_count self.old) }
        ensures readers { reader_fault_count self.new ≡ reader_fault_count self.old };

    /// Writes over the bytes from `at` on, and past the end; `at` is at most the length. After
    /// `Failed` the file reads as one of the images that a crash may then leave.
    fn write_at(&mut self, file: FileId, at: u64, bytes: &[u8]) -> Result<(), DiskFault>
        requires there { tells → (content : List ℕ) × Holds (files self.old) file content × (at ≤ length content) }
        ensures written { tells → OnOk result (Written file at bytes.now (files self.old) (files self.new)) }
        ensures others { SameBut file (files self.old) (files self.new) }
        ensures crash { Follows (Torn file at (length bytes.now)) (may_leave self.old) (may_leave self.new) }
        ensures model { OnOk result (Allows (Torn file at (length bytes.now)) (may_leave self.old) (may_leave self.new)) }
        ensures memory { IsErrOf result DiskFault.Memory → (files self.new ≡ files self.old) × SameOutcomes (may_leave self.old) (may_leave self.new) }
        ensures time { Elapses (moment self.old) (moment self.new) (left_since self.old) (left_since self.new) (may_leave self.new) }
        ensures cause { HasDiskCause (fault_count self.old) (fault_count self.new) result }
        ensures spared { never_fails self.old → never_fails self.new × (fault_count self.new ≡ fault_count self.old) }
        ensures readers { reader_fault_count self.new ≡ reader_fault_count self.old };

    /// Appends the file's bytes from `at` on, at most `len`, and answers how many. They are fewer
    /// than `len` only at the file's end. An error leaves `into` as it was.
    fn read(
        &mut self,
        file: FileId,
        at: u64,
        len: u32,
        into: &mut Vec<u8>,
    ) -> Result<usize, DiskFault>
        requires there { tells → IsThere (files self.old) file }
        ensures appended { IfOk result (λ n. HasPart n len into.old.items into.new.items) }
        ensures told { tells → OnOk result ((content : List ℕ) × Holds (files self.old) file content × (into.new.items ≡ into.old.items ++ take len (drop at content))) }
        ensures kept { OnErr result (into.new.items ≡ into.old.items) }
        ensures files { files self.new ≡ files self.old }
        ensures crash { SameOutcomes (may_leave self.old) (may_leave self.new) }
        ensures time { Elapses (moment self.old) (moment self.new) (left_since self.old) (left_since self.new) (may_leave self.new) }
        ensures cause { HasDiskCause (fault_count self.old) (fault_count self.new) result }
        ensures spared { never_fails self.old → never_fails self.new × (fault_count self.new ≡ fault_count self.old) }
        ensures readers { reader_fault_count self.new ≡ reader_fault_count self.old };

    /// The file's length in bytes.
    fn len(&mut self, file: FileId) -> Result<u64, Failed>
        requires there { tells → IsThere (files self.old) file }
        ensures length { tells → IfOk result (λ n. (content : List ℕ) × Holds (files self.old) file content × (length content ≡ n)) }
        ensures files { files self.new ≡ files self.old }
        ensures crash { SameOutcomes (may_leave self.old) (may_leave self.new) }
        ensures time { Elapses (moment self.old) (moment self.new) (left_since self.old) (left_since self.new) (may_leave self.new) }
        ensures cause { HasCause (fault_count self.old) (fault_count self.new) result }
        ensures spared { never_fails self.old → never_fails self.new × (fault_count self.new ≡ fault_count self.old) }
        ensures readers { reader_fault_count self.new ≡ reader_fault_count self.old };

    /// After it a crash leaves of this file what a read gives. After `Failed` the file reads as
    /// before, and no image is new.
    ///
    /// What is promised is promised of one file: nothing says in which order two files that were
    /// changed reach the device. So whoever makes several files creates and syncs each before the
    /// next is created, and never creates them all first. A crash in between then leaves at most
    /// one new file that isn't as it was given, and all others as they read.
    fn sync(&mut self, file: FileId) -> Result<(), Failed>
        requires there { tells → IsThere (files self.old) file }
        ensures durable { OnOk result (SyncedTo file (files self.old) (may_leave self.new)) }
        ensures files { files self.new ≡ files self.old }
        ensures crash { NoNew (may_leave self.old) (may_leave self.new) }
        ensures model { OnOk result (KeepsSynced file (files self.old) (may_leave self.old) (may_leave self.new)) }
        ensures time { Elapses (moment self.old) (moment self.new) (left_since self.old) (left_since self.new) (may_leave self.new) }
        ensures cause { HasCause (fault_count self.old) (fault_count self.new) result }
        ensures spared { never_fails self.old → never_fails self.new × (fault_count self.new ≡ fault_count self.old) }
        ensures readers { reader_fault_count self.new ≡ reader_fault_count self.old };

    /// Removes the file. After `Failed` it reads as one of the images that a crash may then leave.
    fn remove(&mut self, file: FileId) -> Result<(), Failed>
        requires there { tells → IsThere (files self.old) file }
        ensures gone { tells → OnOk result (files self.new file ≡ None) }
        ensures others { SameBut file (files self.old) (files self.new) }
        ensures crash { Follows (Removed file) (may_leave self.old) (may_leave self.new) }
        ensures model { OnOk result (Allows (Removed file) (may_leave self.old) (may_leave self.new)) }
        ensures time { Elapses (moment self.old) (moment self.new) (left_since self.old) (left_since self.new) (may_leave self.new) }
        ensures cause { HasCause (fault_count self.old) (fault_count self.new) result }
        ensures spared { never_fails self.old → never_fails self.new × (fault_count self.new ≡ fault_count self.old) }
        ensures readers { reader_fault_count self.new ≡ reader_fault_count self.old };

    /// The numbers of the files, each once, in rising order.
    fn list(&mut self, alloc: Global) -> Result<Vec<FileId>, DiskFault>
        ensures rising { IfOk result (λ list. IsStrictlyIncreasing list.items) }
        ensures each { tells → IfOk result (λ list. (file : ℕ) → Contains list.items file ↔ IsThere (files self.old) file) }
        ensures files { files self.new ≡ files self.old }
        ensures crash { SameOutcomes (may_leave self.old) (may_leave self.new) }
        ensures time { Elapses (moment self.old) (moment self.new) (left_since self.old) (left_since self.new) (may_leave self.new) }
        ensures cause { HasDiskCause (fault_count self.old) (fault_count self.new) result }
        ensures spared { never_fails self.old → never_fails self.new × (fault_count self.new ≡ fault_count self.old) }
        ensures readers { reader_fault_count self.new ≡ reader_fault_count self.old };

    /// A hold on a file that won't be written again. It tells its bytes where the disk does.
    fn grip(&mut self, file: FileId) -> Result<<Self::Reader as Reader>::Grip, DiskFault>
        requires there { tells → IsThere (files self.old) file }
        ensures bytes { tells → IfOk result (λ grip. Self.Reader.Grip.tells × Holds (files self.old) file (Self.Reader.Grip.bytes grip)) }
        ensures files { files self.new ≡ files self.old }
        ensures crash { SameOutcomes (may_leave self.old) (may_leave self.new) }
        ensures time { Elapses (moment self.old) (moment self.new) (left_since self.old) (left_since self.new) (may_leave self.new) }
        ensures cause { HasDiskCause (fault_count self.old) (fault_count self.new) result }
        ensures spared { never_fails self.old → never_fails self.new × (fault_count self.new ≡ fault_count self.old) }
        ensures readers { reader_fault_count self.new ≡ reader_fault_count self.old };

    /// A reader of what is gripped, with a count of its own from 0 on.
    fn reader(&self) -> Self::Reader
        ensures { Self.Reader.fault_count result ≡ 0 };

    /// Takes a reader back, and adds the count of its faults to that of the readers, which stops
    /// at the last value of a `u64`.
    fn retire(&mut self, reader: Self::Reader)
        ensures spared { never_fails self.old → never_fails self.new }
        ensures readers { reader_fault_count self.new ≡ min (2 ^ 64 - 1) (reader_fault_count self.old + Self.Reader.fault_count reader) }
        ensures files { files self.new ≡ files self.old }
        ensures crash { SameOutcomes (may_leave self.old) (may_leave self.new) }
        ensures time { Elapses (moment self.old) (moment self.new) (left_since self.old) (left_since self.new) (may_leave self.new) }
        ensures counted { fault_count self.new ≡ fault_count self.old };

    /// The disk's own count of faults.
    fn faults(&self) -> u64
        ensures { result ≡ fault_count self.now };

    /// This moment is one of those since an earlier one.
    ghost counts_now: { (disk : Self) (t : ℕ) (c : Image) → t ≤ moment disk → may_leave disk c → left_since disk t c };

    /// What was left since a moment was left since an earlier one.
    ghost since_earlier: { (disk : Self) (t u : ℕ) (c : Image) → t ≤ u → left_since disk u c → left_since disk t c };

    /// Since this moment there is no other.
    ghost only_now: { (disk : Self) (c : Image) → left_since disk (moment disk) c → may_leave disk c };

    /// A crash may leave what a read gives.
    ghost leaves_files: { (disk : Self) → tells → may_leave disk (files disk) };

    /// What a crash may leave is known only of a disk that tells its content.
    ghost told: { (disk : Self) (c : Image) → may_leave disk c → tells };

    /// A disk that tells its content has grips that tell theirs.
    ghost grips_tell: { tells → Self.Reader.Grip.tells };

    /// Grips tell their bytes only of a disk that tells its content.
    ghost tells_grips: { Self.Reader.Grip.tells → tells };
}
