// A log as its parts.
ghost use Rattle.std.specs.Prelude.{◌≡◌, ◌≤◌, length, IfOk};
ghost use Rattle.committed_log.specs.Log.{at};

use crate::Stop;
use crate::entries::store_of;
use crate::store::Store;
use column_block::Schema;
use log_codec::Entry;
use std::alloc::Global;
use std::marker::Model;

/// The log of a table.
#[derive(Debug, Drop)]
pub struct SmallLog<'a> {
    pub table: i64,
    pub schema: &'a Schema,
    pub entries: &'a [Entry],
}

impl<'a> Model for SmallLog<'a> {
    ghost use Rattle.committed_log.specs.Log.{Log};

    ghost Value = { Log };

    ghost view = { λ log. record { table = log.table; schema = log.schema.now; entries = log.entries.now } };
}

impl<'a> SmallLog<'a> {
    /// The store after the first entries.
    pub fn at(&self, alloc: Global, count: usize) -> Result<Store, Stop>
        requires { count ≤ length self.now.entries }
        ensures { IfOk result (λ store. store ≡ at self.now count) }
    {
        store_of(alloc, self.table, &self.entries[..count])
    }

    /// The number of entries.
    pub fn len(&self) -> usize
        ensures { result ≡ length self.now.entries }
    {
        self.entries.len()
    }
}
