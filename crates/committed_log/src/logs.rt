// A lawful log, and what admission looks up.
ghost use Rattle.std.specs.Prelude.{◌≡◌, ◌<◌, ◌≤◌, ◌^◌, ◌-◌, [], length, IfOk, IfErr, OnErr, OnOk, Some, None, Err, slice_get, take, drop, fold};
ghost use Rattle.committed_log.specs.Applied.{next_of};
ghost use Rattle.committed_log.specs.Digest.{chain, extended_by};
ghost use Rattle.committed_log.specs.Lawful.{IsLawful, IsRefusal, IsWritable, fault, pushed};
ghost use Rattle.committed_log.specs.Log.{Log, end};
ghost use Rattle.committed_log.specs.Numbers.{AreRoomy};
ghost use Rattle.committed_log.specs.Regions.{region as region_in};
ghost use Rattle.committed_log.specs.Repeats.{repeats};
ghost use Rattle.committed_log.specs.declared.unlawful.Unlawful.TheVariants as unlawful;

use crate::admit_head::{MOST_ENTRIES, region_of};
use crate::chains::extended_over;
use crate::digest::begun;
use crate::lookups::{Lookups, admit_next, empty_lookups, repeats_at};
use crate::nexts::find_next;
use crate::region::Region;
use crate::unlawful::Unlawful;
use column_block::Schema;
use flash_types::RegionId;
use log_codec::Entry;
use std::alloc::Global;
use std::marker::Model;

/// The committed log of one table: its id, its columns and its entries, each admitted after those
/// before it. Contracts see just these three, and that they are lawful.
#[derive(Drop)]
pub struct Logs {
    table: i64,
    schema: Schema,
    entries: Vec<Entry>,
    lookups: Lookups,
}

impl Model for Logs {
    ghost use Rattle.committed_log.specs.Log.{Log};

    ghost Value = { Log };

    ghost use Rattle.committed_log.specs.Indexed.{log_of, IsIndexed};

    ghost view = { log_of };

    ghost invariant = { IsIndexed };
}

impl Logs {
    /// The log with no entries of a table with these columns. It takes no memory.
    pub fn empty(alloc: Global, table: i64, schema: Schema) -> Logs
        ensures { result ≡ record { table = table; schema = schema; entries = [] } }
    {
        Logs {
            table,
            schema,
            entries: Vec::new(alloc),
            lookups: empty_lookups(alloc),
        }
    }

    /// Tells that each entry was admitted after those before it.
    pub fn told_lawful(&self)
        ensures { IsLawful self.now }
    {
        let _ = &self.table;
    }

    /// The table's id.
    pub fn table(&self) -> i64
        ensures { result ≡ self.now.table }
    {
        self.table
    }

    /// The table's columns.
    pub fn schema(&self) -> &Schema
        ensures { result.now ≡ self.now.schema }
    {
        &self.schema
    }

    /// The number of entries.
    pub fn len(&self) -> u64
        ensures { result ≡ length self.now.entries }
    {
        self.entries.len() as u64
    }

    /// The entry at a position, counted from 0.
    pub fn entry(&self, position: u64) -> &Entry
        requires { position < length self.now.entries }
        ensures { slice_get self.now.entries position ≡ Some result.now }
    {
        &self.entries[position as usize]
    }

    /// Adds an entry at the end and answers its position, or says what is wrong with it: the first
    /// fault, in the order of `Unlawful`'s variants but for those of ops, which are looked at op by
    /// op. `Memory` may stand in the place of any answer but `Count`. After an error the log is as
    /// before.
    pub fn admit(&mut self, entry: Entry) -> Result<u64, Unlawful>
        requires { IsWritable entry }
        ensures position { IfOk result (λ position. position ≡ length self.old.entries) }
        ensures lawful { OnOk result (fault self.old entry ≡ None) }
        ensures added { OnOk result (self.new ≡ pushed self.old entry) }
        ensures refusal { IfErr result (IsRefusal (fault self.old entry)) }
        ensures count { 2 ^ 20 ≤ length self.old.entries → result ≡ Err unlawful.Count }
        ensures unchanged { OnErr result (self.new ≡ self.old) }
    {
        let position = self.entries.len() as u64;
        if position >= MOST_ENTRIES {
            return Err(Unlawful::Count);
        }
        if self.entries.reserve(1).is_err() {
            return Err(Unlawful::Memory);
        }
        match admit_next(
            &mut self.lookups,
            self.table,
            &self.schema,
            &self.entries,
            &entry,
        ) {
            Ok(()) => {
                self.entries.push_reserved(entry);
                Ok(position)
            }
            Err(fault) => Err(fault),
        }
    }

    /// The position of the next entry that acts on a region, after the one that gave it this index:
    /// that of its next index, or where the entry of this index prepared it, the commit that takes it
    /// into its target. None where the log has no such entry, or never gave the region this index.
    pub fn next_of(&self, region: RegionId, index: u64) -> Option<u64>
        ensures { result ≡ next_of self.now region index }
    {
        find_next(&self.lookups.nexts, region, index)
    }

    /// The state in which the last entry leaves a region.
    pub fn region_at_end(&self, region: RegionId) -> Region
        ensures { result ≡ region_in (end self.now).regions region }
    {
        region_of(&self.lookups.tables.regions, region)
    }

    /// Whether the op at a place of an entry is a record that admission passed because it says again
    /// what its row's last commit says, as where a proposal was applied twice. It changes nothing.
    pub fn repeats(&self, position: u64, op: u32) -> bool
        requires { position < length self.now.entries }
        ensures { result ≡ repeats self.now position op }
    {
        let places = repeats_at(&self.lookups, position);
        places.as_slice().binary_search(&op).is_ok()
    }

    /// The digest of the log's header and its first `n` entries, each by its frame in a log file:
    /// SHA-256 of the header, and then for each entry of the digest so far and the frame. It hashes
    /// all of them, and takes no memory.
    pub fn chain(&self, n: u64) -> [u8; 32]
        requires { n ≤ length self.now.entries }
        ensures { result ≡ chain self.now.table self.now.schema (take n self.now.entries) }
    {
        extended_over(begun(self.table, &self.schema), &self.entries[..n as usize])
    }

    /// The digest of the first `n` entries, where that of the first `m` is given. It hashes only
    /// those between them, and takes no memory.
    pub fn extended_chain(&self, digest: [u8; 32], m: u64, n: u64) -> [u8; 32]
        requires order { m ≤ n }
        requires within { n ≤ length self.now.entries }
        ensures { result ≡ fold extended_by digest (take (n - m) (drop m self.now.entries)) }
    {
        extended_over(digest, &self.entries[m as usize..n as usize])
    }
}
