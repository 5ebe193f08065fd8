// Files that are held, and their readers.
ghost use Rattle.std.specs.Prelude.{◌≡◌, ◌++◌, List, ℕ, take, drop, OnOk, OnErr, IfOk};
ghost use Rattle.flash_io.specs.Image.{HasPart};
ghost use Rattle.flash_io.specs.DiskFaults.{HasDiskCause};

use crate::fault::DiskFault;

/// A file that is held for reading. Nobody writes it again.
pub trait Gripped: Drop {
    /// Whether the bytes are told.
    ghost tells: { Type 0 };

    /// The bytes that the file had when it was gripped.
    ghost bytes: { Self → List ℕ };
}

/// Reads what grips hold. Each worker has a reader of its own.
pub trait Reader: Drop {
    type Grip: Gripped;

    /// How often a read has failed: it rises where the answer is `Failed`, and there alone. It
    /// never falls, and stops at the last value of a `u64`.
    ghost fault_count: { Self → ℕ };

    /// Appends the file's bytes from `at` on, at most `len`, and answers how many. They are fewer
    /// than `len` only at the file's end. An error leaves `into` as it was: `Failed` where the
    /// count rose, `Memory` where there wasn't memory for the bytes.
    fn read_at(
        &mut self,
        grip: &Self::Grip,
        at: u64,
        len: u32,
        into: &mut Vec<u8>,
    ) -> Result<usize, DiskFault>
        ensures appended { IfOk result (λ n. HasPart n len into.old.items into.new.items) }
        ensures told { Self.Grip.tells → OnOk result (into.new.items ≡ into.old.items ++ take len (drop at (Self.Grip.bytes grip.now))) }
        ensures kept { OnErr result (into.new.items ≡ into.old.items) }
        ensures cause { HasDiskCause (fault_count self.old) (fault_count self.new) result };
}
