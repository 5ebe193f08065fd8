// Bytes that come in, and bytes that go out.
ghost use Rattle.std.specs.Prelude.{ℕ, List, Option, ◌<◌, length, IfOk};
ghost use Rattle.std.specs.Io.{ReadsAtMost, WritesAtMost};
ghost use Rattle.std.specs.Io.KnownBytes.{ReadConsumes, WriteAppends};
ghost use Rattle.flash_io.specs.Faults.{HasCause};

/// A call didn't do its work, and the count of faults of the object that it was made on rose.
#[derive(Clone, Copy, Debug, PartialEq, Eq)]
pub struct Failed;

/// Bytes that are read once, from the first to the last.
pub trait Source {
    /// The bytes that reads will give from here on, where the source tells them.
    ghost left: { Self → Option (List ℕ) };

    /// How often a read has failed: it rises where the answer is `Failed`, and there alone. It
    /// never falls, and stops at the last value of a `u64`.
    ghost fault_count: { Self → ℕ };

    /// Reads some bytes to the front of the buffer, and answers how many. It reads none only at
    /// the end, or into an empty buffer. `Failed` takes nothing of what is left.
    fn read(&mut self, into: &mut [u8]) -> Result<usize, Failed>
        ensures bound { ReadsAtMost result into.new }
        ensures bytes { ReadConsumes (left self.old) (left self.new) result into.new }
        ensures cause { HasCause (fault_count self.old) (fault_count self.new) result };
}

/// A place that bytes are appended to.
pub trait Sink {
    /// The bytes that were written, where the sink tells them.
    ghost contents: { Self → Option (List ℕ) };

    /// How often a write has failed: it rises where the answer is `Failed`, and there alone. It
    /// never falls, and stops at the last value of a `u64`.
    ghost fault_count: { Self → ℕ };

    /// Takes bytes from the front, at least one unless there is none, and answers how many.
    /// `Failed` takes nothing.
    fn write(&mut self, from: &[u8]) -> Result<usize, Failed>
        ensures bound { WritesAtMost result from.now }
        ensures some { 0 < length from.now → IfOk result (λ count. 0 < count) }
        ensures bytes { WriteAppends (contents self.old) (contents self.new) result from.now }
        ensures cause { HasCause (fault_count self.old) (fault_count self.new) result };
}
