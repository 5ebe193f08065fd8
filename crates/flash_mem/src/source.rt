// Bytes in memory that are read.
ghost use Rattle.std.specs.Prelude.{◌≡◌, ◌≤◌, [], length, drop, Some, IsOk};
ghost use Rattle.std.specs.Io.{ReadsAtMost};
ghost use Rattle.std.specs.Io.KnownBytes.{ReadConsumes};
ghost use Rattle.flash_io.specs.Faults.{HasCause};

use crate::failing::fails;
use flash_io::{Failed, Source};
use std::alloc::Global;

/// Bytes in memory as a source. It tells what it has left.
#[derive(Drop)]
pub struct MemSource {
    bytes: Vec<u8>,
    at: usize,
    failing: Vec<u64>,
    calls: u64,
    faults: u64,
    ghost within: { at ≤ length bytes.items },
}

impl MemSource {
    /// A source that gives these bytes, and of which no call fails.
    pub fn new(alloc: Global, bytes: Vec<u8>) -> MemSource
        ensures left { ⟦<MemSource as Source>⟧.left result ≡ Some bytes.items }
        ensures count { ⟦<MemSource as Source>⟧.fault_count result ≡ 0 }
        ensures failing { result.failing.items ≡ [] }
    {
        MemSource {
            bytes,
            at: 0,
            failing: Vec::new(alloc),
            calls: 0,
            faults: 0,
        }
    }

    /// Lets these reads fail, counted from 1 since the source was made, in the place of those that
    /// were listed before.
    pub fn set_failing(&mut self, failing: Vec<u64>)
        ensures calls { self.new.calls ≡ self.old.calls }
        ensures failing { self.new.failing.items ≡ failing.items }
        ensures left { ⟦<MemSource as Source>⟧.left self.new ≡ ⟦<MemSource as Source>⟧.left self.old }
        ensures count { ⟦<MemSource as Source>⟧.fault_count self.new ≡ ⟦<MemSource as Source>⟧.fault_count self.old }
    {
        self.failing = failing;
    }
}

impl Source for MemSource {
    ghost left = { λ source. Some (drop source.at source.bytes.items) };

    ghost fault_count = { λ source. source.faults };

    /// Fills the buffer, or reads all that is left. It fails only where the call is listed.
    fn read(&mut self, into: &mut [u8]) -> Result<usize, Failed>
        ensures bound { ReadsAtMost result into.new }
        ensures bytes { ReadConsumes (⟦<MemSource as Source>⟧.left self.old) (⟦<MemSource as Source>⟧.left self.new) result into.new }
        ensures cause { HasCause (⟦<MemSource as Source>⟧.fault_count self.old) (⟦<MemSource as Source>⟧.fault_count self.new) result }
        ensures failing { self.new.failing.items ≡ self.old.failing.items }
        ensures spared { self.old.failing.items ≡ [] → IsOk result × (⟦<MemSource as Source>⟧.fault_count self.new ≡ ⟦<MemSource as Source>⟧.fault_count self.old) }
    {
        if fails(&self.failing, &mut self.calls, &mut self.faults) {
            return Err(Failed);
        }
        let (_, rest) = self.bytes.split_at(self.at);
        let count = rest.len().min(into.len());
        let (front, _) = rest.split_at(count);
        into[..count].copy_from_slice(front);
        self.at += count;
        Ok(count)
    }
}
