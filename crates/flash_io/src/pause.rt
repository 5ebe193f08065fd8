// Points at which a test may hold a worker.
use std::sync::Wait;

/// A point that a worker passes. No worker passes one while it holds the turn.
#[derive(Clone, Copy, Debug, PartialEq, Eq)]
pub enum Point {
    /// The pinned read of this number has answered, and no block was scanned yet.
    ScanBegun { read: u32 },
    /// The reply to the read of this number is made, and its snapshot released.
    ScanAnswered { read: u32 },
    /// The entry at this position was applied.
    Applied { position: u64 },
    /// A background job's files were built.
    Built,
    /// A background job's result was installed.
    Installed,
}

/// What a worker does at a point: it may wait there.
pub trait Pause {
    /// Returns when the worker may go on.
    fn at<R: Wait>(&self, rt: &R, point: Point);
}

/// The pause that returns at once.
#[derive(Clone, Copy, Debug)]
pub struct Free;

impl Pause for Free {
    fn at<R: Wait>(&self, _rt: &R, _point: Point) {}
}
