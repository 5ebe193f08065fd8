// What a store's disk reads.
ghost use Rattle.std.specs.Prelude.{◌≡◌, ◌++◌, ◌↔◌, ◌+◌, ◌-◌, ◌^◌, ℕ, List, take, drop, length, min, OnOk, OnErr, IfOk, IsErrOf, Contains};
ghost use Rattle.std.specs.List.Sorted.{IsStrictlyIncreasing};
ghost use Rattle.flash_io.specs.Image.{Holds, HasPart, IsThere};
ghost use Rattle.replica_store.specs.Store.{Counted, HasFailed, NamesNothing, Untouched};

use crate::store::Store;
use flash_io::{Disk, FileId, Reader, read_file};
use manifest::CommitError;
use std::alloc::Global;

impl<D: Disk> Store<D> {
    /// A reader of what is gripped, with a count of faults of its own from 0 on.
    pub fn reader(&self) -> D::Reader
        ensures { D.Reader.fault_count result ≡ 0 }
    {
        self.disk.reader()
    }

    /// A hold on a file that won't be written again.
    pub fn grip(&mut self, file: FileId) -> Result<<D::Reader as Reader>::Grip, CommitError>
        requires there { D.tells → IsThere (D.files self.old.disk) file }
        ensures named { NamesNothing D.Disk self.old self.new }
        ensures tells { D.tells → OnOk result D.Reader.Grip.tells }
        ensures bytes { D.tells → IfOk result (λ g. Holds (D.files self.old.disk) file (D.Reader.Grip.bytes g)) }
        ensures untouched { Untouched D.Disk self.old self.new }
        ensures counted { Counted D.Disk self.old self.new }
        ensures device { IsErrOf result CommitError.Device → HasFailed D.Disk self.old self.new }
    {
        let grip = self.disk.grip(file)?;
        Ok(grip)
    }

    /// Appends the file's bytes from `at` on, at most `len`, and answers how many. They are fewer
    /// than `len` only at the file's end. An error leaves `into` as it was.
    pub fn read(
        &mut self,
        file: FileId,
        at: u64,
        len: u32,
        into: &mut Vec<u8>,
    ) -> Result<usize, CommitError>
        requires there { D.tells → IsThere (D.files self.old.disk) file }
        ensures named { NamesNothing D.Disk self.old self.new }
        ensures appended { IfOk result (λ n. HasPart n len into.old.items into.new.items) }
        ensures told { D.tells → OnOk result ((content : List ℕ) × Holds (D.files self.old.disk) file content
            × (into.new.items ≡ into.old.items ++ take len (drop at content))) }
        ensures refused { OnErr result (into.new.items ≡ into.old.items) }
        ensures untouched { Untouched D.Disk self.old self.new }
        ensures counted { Counted D.Disk self.old self.new }
        ensures device { IsErrOf result CommitError.Device → HasFailed D.Disk self.old self.new }
    {
        let n = self.disk.read(file, at, len, into)?;
        Ok(n)
    }

    /// All bytes of a file.
    pub fn read_whole(&mut self, alloc: Global, file: FileId) -> Result<Vec<u8>, CommitError>
        requires there { D.tells → IsThere (D.files self.old.disk) file }
        ensures named { NamesNothing D.Disk self.old self.new }
        ensures told { D.tells → IfOk result (λ bytes. Holds (D.files self.old.disk) file bytes.items) }
        ensures untouched { Untouched D.Disk self.old self.new }
        ensures counted { Counted D.Disk self.old self.new }
        ensures device { IsErrOf result CommitError.Device → HasFailed D.Disk self.old self.new }
    {
        let bytes = read_file(alloc, &mut self.disk, file)?;
        Ok(bytes)
    }

    /// A file's length in bytes.
    pub fn file_len(&mut self, file: FileId) -> Result<u64, CommitError>
        requires there { D.tells → IsThere (D.files self.old.disk) file }
        ensures named { NamesNothing D.Disk self.old self.new }
        ensures length { D.tells → IfOk result (λ n. (content : List ℕ) × Holds (D.files self.old.disk) file content × (length content ≡ n)) }
        ensures untouched { Untouched D.Disk self.old self.new }
        ensures counted { Counted D.Disk self.old self.new }
        ensures failed { OnErr result (HasFailed D.Disk self.old self.new) }
    {
        match self.disk.len(file) {
            Ok(len) => Ok(len),
            Err(_) => Err(CommitError::Device),
        }
    }

    /// The numbers of the disk's files, each once, in rising order.
    pub fn list(&mut self, alloc: Global) -> Result<Vec<FileId>, CommitError>
        ensures named { NamesNothing D.Disk self.old self.new }
        ensures rising { IfOk result (λ list. IsStrictlyIncreasing list.items) }
        ensures each { D.tells → IfOk result (λ list. (file : ℕ) → Contains list.items file ↔ IsThere (D.files self.old.disk) file) }
        ensures untouched { Untouched D.Disk self.old self.new }
        ensures counted { Counted D.Disk self.old self.new }
        ensures device { IsErrOf result CommitError.Device → HasFailed D.Disk self.old self.new }
    {
        let list = self.disk.list(alloc)?;
        Ok(list)
    }

    /// Takes a reader back, and adds the count of its faults to that of the readers, which stops at
    /// the last value of a `u64`. It doesn't wreck the store.
    pub fn retire(&mut self, reader: D::Reader)
        ensures named { NamesNothing D.Disk self.old self.new }
        ensures untouched { Untouched D.Disk self.old self.new }
        ensures readers { D.reader_fault_count self.new.disk ≡ min (2 ^ 64 - 1) (D.reader_fault_count self.old.disk + D.Reader.fault_count reader) }
        ensures counted { D.fault_count self.new.disk ≡ D.fault_count self.old.disk }
        ensures spared { D.never_fails self.old.disk → D.never_fails self.new.disk }
    {
        self.disk.retire(reader);
    }
}
