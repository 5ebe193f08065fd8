//! The form of a store's root and of its manifest: what their bytes say, and how they are written.
//!
//! A gated file is a front and then records, each behind a gate byte: a length in 8 bytes, and as
//! many bytes. The records before the first gate that isn't 1 count. File 0, the root, has no
//! front, and names the manifest's file; the manifest's front is a header, and its records are
//! lists of edits. Numbers are big-endian.
#![tactic(auto)]

mod apply;
mod change;
mod counting;
mod edit;
mod fault;
mod field;
mod growing;
mod header;
mod laws;
mod put;
mod recover;
mod room;
mod root;
mod slots;
mod state;
mod tops;
mod whole;

pub use apply::is_formed;
pub use change::{Ready, cancel, copied, do_all, make_ready};
pub use fault::Fault;
pub use header::{Columns, Header};
pub use laws::{edits_are_read_again, headers_are_read_again, whole_states_are_done_again};
pub use put::{put_edits, put_header};
pub use recover::{Recovered, manifest_of};
pub use root::{RootEnd, named, root_of};
pub use state::{Edit, Edits, State, StoredFile, StoredFiles, StoredSegment, StoredSegments};
pub use whole::whole_edits;
