// Bytes with several owners.
ghost use Rattle.std.specs.Prelude.{◌≡◌, ◌≤◌, [], length, take, drop, slice_range, IfOk, OnOk, OnErr};

use bytes::Bytes as Shared;
use std::alloc::{AllocError, Global};
use std::marker::Model;

/// Bytes that are shared by those who hold them, so that a cut copies no byte. Contracts see the
/// list of bytes.
#[derive(Debug, Drop)]
pub struct SharedBytes {
    bytes: Shared,
}

impl Model for SharedBytes {
    ghost use Rattle.std.specs.Prelude.{ℕ, List};

    ghost Value = { List ℕ };

    ghost view = { λ it. it.bytes };
}

impl SharedBytes {
    /// No bytes. It takes no memory.
    pub fn new() -> SharedBytes
        ensures { result ≡ [] }
    {
        SharedBytes {
            bytes: Shared::new(),
        }
    }

    /// A copy of the bytes, in one piece of memory.
    pub fn from_slice(alloc: Global, bytes: &[u8]) -> Result<SharedBytes, AllocError>
        ensures { IfOk result (λ it. it ≡ bytes.now) }
    {
        let bytes = Shared::copy_from_slice(alloc, bytes)?;
        Ok(SharedBytes { bytes })
    }

    /// The bytes of a list, which is taken over and not copied.
    pub fn from_vec(bytes: Vec<u8>) -> Result<SharedBytes, AllocError>
        ensures { IfOk result (λ it. it ≡ bytes.items) }
    {
        let bytes = Shared::from_vec(bytes)?;
        Ok(SharedBytes { bytes })
    }

    /// The number of bytes.
    pub fn len(&self) -> usize
        ensures { result ≡ length self.now }
    {
        self.bytes.len()
    }

    /// All bytes, in order.
    pub fn as_slice(&self) -> &[u8]
        ensures { result.now ≡ self.now }
    {
        self.bytes.as_slice()
    }

    /// One more owner of the same bytes. It copies none.
    pub fn share(&self) -> Result<SharedBytes, AllocError>
        ensures { IfOk result (λ it. it ≡ self.now) }
    {
        let bytes = self.bytes.clone()?;
        Ok(SharedBytes { bytes })
    }

    /// The bytes from place `from` up to but without place `to`, of which it is one more owner. It
    /// copies none.
    pub fn part(&self, from: usize, to: usize) -> Result<SharedBytes, AllocError>
        requires order { from ≤ to }
        requires within { to ≤ length self.now }
        ensures { IfOk result (λ part. part ≡ slice_range self.now from to) }
    {
        let bytes = self.bytes.slice(from..to)?;
        Ok(SharedBytes { bytes })
    }

    /// Takes the first `at` bytes off as a list of their own, which shares the memory.
    pub fn split_to(&mut self, at: usize) -> Result<SharedBytes, AllocError>
        requires { at ≤ length self.old }
        ensures front { IfOk result (λ front. front ≡ take at self.old) }
        ensures rest { OnOk result (self.new ≡ drop at self.old) }
        ensures err { OnErr result (self.new ≡ self.old) }
    {
        let bytes = self.bytes.split_to(at)?;
        Ok(SharedBytes { bytes })
    }

    /// Passes over the first bytes.
    pub fn advance(&mut self, count: usize)
        requires { count ≤ length self.old }
        ensures { self.new ≡ drop count self.old }
    {
        self.bytes.advance(count);
    }
}
