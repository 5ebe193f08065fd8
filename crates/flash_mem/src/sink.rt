// Bytes in memory that are written.
ghost use Rattle.std.specs.Prelude.{◌≡◌, ◌≤◌, ◌<◌, ◌-◌, min, [], length, Some, Ok, IfOk};
ghost use Rattle.std.specs.Vec.{vec_capacity};
ghost use Rattle.std.specs.Io.{WritesAtMost};
ghost use Rattle.std.specs.Io.KnownBytes.{WriteAppends};
ghost use Rattle.flash_io.specs.Faults.{HasCause};

use crate::failing::fails;
use crate::memory::Memory;
use flash_io::{Failed, Sink};
use std::alloc::Global;

/// A sink that keeps what it took, up to its room. It tells what it holds.
#[derive(Drop)]
pub struct MemSink {
    bytes: Vec<u8>,
    room: usize,
    failing: Vec<u64>,
    calls: u64,
    faults: u64,
    ghost within: { length bytes.items ≤ room },
    ghost made: { room ≤ vec_capacity bytes },
}

impl MemSink {
    /// An empty sink with room for so many bytes, of which no call fails. `Memory` where there
    /// isn't memory for the room.
    pub fn new(alloc: Global, room: usize) -> Result<MemSink, Memory>
        ensures contents { IfOk result (λ sink. ⟦<MemSink as Sink>⟧.contents sink ≡ Some []) }
        ensures count { IfOk result (λ sink. ⟦<MemSink as Sink>⟧.fault_count sink ≡ 0) }
        ensures room { IfOk result (λ sink. sink.room ≡ room) }
        ensures failing { IfOk result (λ sink. sink.failing.items ≡ []) }
    {
        let bytes = Vec::with_capacity(alloc, room)?;
        Ok(MemSink {
            bytes,
            room,
            failing: Vec::new(alloc),
            calls: 0,
            faults: 0,
        })
    }

    /// Lets these writes fail, counted from 1 since the sink was made, in the place of those that
    /// were listed before.
    pub fn set_failing(&mut self, failing: Vec<u64>)
        ensures calls { self.new.calls ≡ self.old.calls }
        ensures failing { self.new.failing.items ≡ failing.items }
        ensures contents { ⟦<MemSink as Sink>⟧.contents self.new ≡ ⟦<MemSink as Sink>⟧.contents self.old }
        ensures count { ⟦<MemSink as Sink>⟧.fault_count self.new ≡ ⟦<MemSink as Sink>⟧.fault_count self.old }
        ensures room { self.new.room ≡ self.old.room }
    {
        self.failing = failing;
    }

    /// What was written.
    pub fn as_slice(&self) -> &[u8]
        ensures { ⟦<MemSink as Sink>⟧.contents self.now ≡ Some result.now }
    {
        &self.bytes
    }
}

impl Sink for MemSink {
    ghost contents = { λ sink. Some sink.bytes.items };

    ghost fault_count = { λ sink. sink.faults };

    /// Takes what there is room for. It fails only where the call is listed, or where a piece that
    /// isn't empty finds no room.
    fn write(&mut self, from: &[u8]) -> Result<usize, Failed>
        ensures bound { WritesAtMost result from.now }
        ensures some { 0 < length from.now → IfOk result (λ count. 0 < count) }
        ensures bytes { WriteAppends (⟦<MemSink as Sink>⟧.contents self.old) (⟦<MemSink as Sink>⟧.contents self.new) result from.now }
        ensures cause { HasCause (⟦<MemSink as Sink>⟧.fault_count self.old) (⟦<MemSink as Sink>⟧.fault_count self.new) result }
        ensures kept { (self.new.room ≡ self.old.room) × (self.new.failing.items ≡ self.old.failing.items) }
        ensures spared { self.old.failing.items ≡ [] → length self.old.bytes.items < self.old.room → (result ≡ Ok (min (length from.now) (self.old.room - length self.old.bytes.items))) × (⟦<MemSink as Sink>⟧.fault_count self.new ≡ ⟦<MemSink as Sink>⟧.fault_count self.old) }
    {
        if fails(&self.failing, &mut self.calls, &mut self.faults) {
            return Err(Failed);
        }
        let count = from.len().min(self.room - self.bytes.len());
        if (count > 0 || from.is_empty()) && self.bytes.extend_from_slice(&from[..count]).is_ok() {
            return Ok(count);
        }
        self.faults = self.faults.saturating_add(1);
        Err(Failed)
    }
}
