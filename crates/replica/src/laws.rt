//! Laws of replicas, which callers may use: each function does nothing when it runs, and its contract
//! is a law.
ghost use Rattle.replica.specs.Follows.{Follows};
ghost use Rattle.replica.specs.Learner.{Learner};

use flash_io::{Disk, Reader};

/// A replica follows itself, and following carries over two steps.
pub fn replicas_follow<D: Disk>()
    ensures itself { (x : Learner D D.Reader.Grip) → Follows D.Disk D.Reader.Grip.bytes x x }
    ensures on { (x y z : Learner D D.Reader.Grip) → Follows D.Disk D.Reader.Grip.bytes x y → Follows D.Disk D.Reader.Grip.bytes y z → Follows D.Disk D.Reader.Grip.bytes x z }
{}
