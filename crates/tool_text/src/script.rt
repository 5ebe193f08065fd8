// What a script says.
use flash_list::{Bytes, Items};
use flash_types::{Ask, Settings, Ts};

/// How many workers run on a log, and what happens at which places of it.
#[derive(Debug, Drop)]
pub struct Script {
    /// Workers that apply entries: 0 to 5.
    pub appliers: u32,
    /// Workers that flush, compact, merge and split: 0 to 5.
    pub background: u32,
    /// Workers that read: 0 to 5.
    pub scanners: u32,
    /// From which sizes on background work is due.
    pub settings: Settings,
    /// The number of entries after which the run ends, where it is to end early.
    pub stop_after: Option<u64>,
    /// What is done on the way, in the script's order.
    pub events: Events,
    /// The reads, in the script's order.
    pub reads: Reads,
}

/// Events, in the script's order.
pub type Events = Items<Event>;

/// Reads, in the script's order.
pub type Reads = Items<ScriptRead>;

/// What is done once so many entries are applied.
#[derive(Clone, Copy, Debug, PartialEq, Eq)]
pub struct Event {
    /// The number of entries: 0 to 1,048,576.
    pub at: u64,
    pub action: Action,
}

/// What an event does. It goes over the segments in rising handle order.
#[derive(Clone, Copy, Debug, PartialEq, Eq)]
pub enum Action {
    /// Each memory part is flushed.
    Flush,
    /// Each run of two or more neighbouring tiny files becomes one.
    Compact,
    /// Each delta that isn't empty is merged into the stable part.
    MergeDelta,
    /// Each segment with at least two handles is split once.
    Split,
    /// The first segment is merged with the second, the third with the fourth, and so on.
    Merge,
    /// What is applied by then outlives a crash.
    Checkpoint,
    /// The safe point becomes `ts`, where it isn't higher already.
    SafePoint { ts: Ts },
}

/// A read once so many entries are applied.
#[derive(Debug, Drop)]
pub struct ScriptRead {
    pub ask: Ask,
    /// The number of entries from which the read is made on: 0 to 1,048,576.
    pub after: u64,
}

/// A path as bytes.
pub type PathText = Bytes;

/// Why bytes are no script.
#[derive(Debug, Drop)]
pub enum ScriptError {
    /// There are more than 16,777,216 bytes.
    Limit,
    /// The bytes are no text of JSON (RFC 8259), or one whose numbers no double comes near, or that
    /// nests more than 127 deep.
    Text,
    /// The first field that isn't as it must be. The path has the names and places that lead there,
    /// places counted from 0, with dots between them, as `events.0.do`; it is a dot alone where the
    /// whole isn't an object. A name stands as its bytes are once unescaped.
    Field { path: PathText },
    /// Memory ran out.
    Memory,
}
