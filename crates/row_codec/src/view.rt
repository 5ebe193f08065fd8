// The reader of a row.
ghost use Rattle.std.specs.Prelude.{◌≡◌, ◌<◌, ◌≤◌, ◌+◌, ◌^◌, length, map, option_map, slice_get, nat_eq, None, Some};
ghost use Rattle.std.specs.Map.{lookup};
ghost use Rattle.row_codec.specs.Numbers.{bytes_each, first_bad_end};
ghost use Rattle.row_codec.specs.Rows.{row_at, row_behind_head, checked_row, field_of, bytes_of, ids_of, pieces, start_of};

use crate::numbers::{Numbers, Width, first_bad_end, first_fall, place_near, place_of};
use crate::row::{Field, RowError};
use byteorder::{ByteOrder, LittleEndian};
use std::marker::Model;

// The first byte of a row in format 2.
const VERSION: u8 = 128;

// The version, the flags and the two counts.
const HEAD: usize = 6;

/// A row that is read where it lies. It holds the bytes that it was read from, and copies none.
#[derive(Debug, Drop)]
pub struct RowView<'a> {
    ids: Numbers<'a>,
    nulls: Numbers<'a>,
    ends: Numbers<'a>,
    values: &'a [u8],
}

impl<'a> Model for RowView<'a> {
    ghost use Rattle.std.specs.Prelude.{ℕ, List};

    ghost Value = { List (ℕ × List ℕ) × List ℕ };

    ghost use Rattle.row_codec.specs.Rows.{row_of, AreParts};

    ghost view = { λ row. row_of row.ids row.nulls row.ends row.values.now };

    ghost invariant = { λ row. AreParts row.ids row.nulls row.ends row.values.now };
}

impl<'a> RowView<'a> {
    /// Reads a row. It takes no memory. The refusals are looked for in this order: `Short` where there
    /// is no byte, `Version`, `Short` where the values don't begin within the bytes, `Order`,
    /// `Offset`. Flags but the lowest, and bytes behind the last value, are passed over.
    #[tactic(auto, unfolding(crate::specs::Rows::row_at), using(crate::proofs::Views::ends_in_head))]
    pub fn read(bytes: &'a [u8]) -> Result<RowView<'a>, RowError>
        ensures { result ≡ row_at bytes.now }
    {
        if bytes.is_empty() {
            return Err(RowError::Short { at: 0 });
        }
        if bytes[0] != VERSION {
            return Err(RowError::Version { byte: bytes[0] });
        }
        if bytes.len() < HEAD {
            return Err(RowError::Short {
                at: bytes.len() as u64,
            });
        }
        let count = LittleEndian::read_u16(&bytes[2..]);
        let null_count = LittleEndian::read_u16(&bytes[4..]);
        if bytes[1] % 2 == 1 {
            return behind_head(bytes, Width::Four, Width::Four, count, null_count);
        }
        behind_head(bytes, Width::One, Width::Two, count, null_count)
    }

    /// What the row has in the column with this id: `None` where the row doesn't name the column.
    /// A column that the row names twice, with a value and as null, has its value. Takes time
    /// logarithmic in the number of the row's columns.
    pub fn get(&self, id: u32) -> Option<Field<'_>>
        ensures { option_map bytes_of result ≡ field_of self.now id }
    {
        if let Some(k) = place_of(&self.ids, id) {
            return Some(Field::Value(value_at(&self.ends, self.values, k)));
        }
        match place_of(&self.nulls, id) {
            Some(_) => Some(Field::Null),
            None => None,
        }
    }

    /// The bytes of the value that the column with this id has. It is looked for first at the place
    /// `near` among the columns that have a value, so that columns which are asked for in their
    /// order are found at once.
    pub fn value_near(&self, id: u32, near: u32) -> Option<&[u8]>
        ensures { option_map (λ bytes. bytes.now) result ≡ lookup (nat_eq id) self.now.0 }
    {
        match place_near(&self.ids, id, near as usize) {
            Some(k) => Some(value_at(&self.ends, self.values, k)),
            None => None,
        }
    }

    /// The number of ids that the row names, those with a value and the null ones.
    pub fn count(&self) -> u32
        ensures { result ≡ length (ids_of self.now) }
    {
        (self.ids.len() + self.nulls.len()) as u32
    }

    /// The id at a place: first those with a value, then the null ones, each list rising.
    pub fn id_at(&self, k: u32) -> u32
        requires { k < length (ids_of self.now) }
        ensures { slice_get (ids_of self.now) k ≡ Some result }
    {
        let k = k as usize;
        if k < self.ids.len() {
            return self.ids.at(k);
        }
        self.nulls.at(k - self.ids.len())
    }

    /// The number of columns that have a value.
    pub fn value_count(&self) -> u32
        ensures { result ≡ length self.now.0 }
    {
        self.ids.len() as u32
    }

    /// The id and the bytes of the value at a place among the columns that have one.
    pub fn value_at(&self, k: u32) -> (u32, &[u8])
        requires { k < length self.now.0 }
        ensures { slice_get self.now.0 k ≡ Some (result.0, result.1.now) }
    {
        let k = k as usize;
        (self.ids.at(k), value_at(&self.ends, self.values, k))
    }
}

// The value at a place, of values that end at these offsets.
fn value_at<'a>(ends: &Numbers<'_>, values: &'a [u8], k: usize) -> &'a [u8]
    requires place { k < length ends.now }
    requires within { first_bad_end (length values.now) ends.now ≡ None }
    ensures { slice_get (pieces 0 ends.now values.now) k ≡ Some result.now }
{
    let from = start_at(ends, k);
    let to = ends.at(k) as usize;
    &values[from..to]
}

// Where the value at a place starts.
fn start_at(ends: &Numbers<'_>, k: usize) -> usize
    requires { k < length ends.now }
    ensures { result ≡ start_of 0 ends.now k }
{
    if k == 0 { 0 } else { ends.at(k - 1) as usize }
}

// Reads what stands behind the head, where an id and an end offset have so many bytes.
#[tactic(auto, unfolding(crate::specs::Rows::row_behind_head))]
fn behind_head(
    bytes: &[u8],
    id: Width,
    end: Width,
    count: u16,
    null_count: u16,
) -> Result<RowView<'_>, RowError>
    ensures { result ≡ row_behind_head (bytes_each id) (bytes_each end) count null_count bytes.now }
{
    let count = count as usize;
    let null_count = null_count as usize;
    let nulls_at = HEAD + id.size() * count;
    let ends_at = nulls_at + id.size() * null_count;
    let values_at = ends_at + end.size() * count;
    if bytes.len() < values_at {
        return Err(RowError::Short {
            at: bytes.len() as u64,
        });
    }
    let ids = Numbers::new(&bytes[HEAD..], id, count);
    let nulls = Numbers::new(&bytes[nulls_at..], id, null_count);
    let ends = Numbers::new(&bytes[ends_at..], end, count);
    checked(ids, nulls, ends, &bytes[values_at..])
}

// The row of these parts, if their order is right.
#[tactic(auto, unfolding(crate::specs::Rows::checked_row))]
fn checked<'a>(
    ids: Numbers<'a>,
    nulls: Numbers<'a>,
    ends: Numbers<'a>,
    values: &'a [u8],
) -> Result<RowView<'a>, RowError>
    requires each_ends { length ends ≡ length ids }
    requires few { length ids < 2 ^ 16 }
    requires few_nulls { length nulls < 2 ^ 16 }
    ensures { result ≡ checked_row ids.entry nulls.entry ends.entry values.now }
{
    if let Some(at) = first_fall(&ids) {
        return Err(RowError::Order { at: at as u32 });
    }
    if let Some(at) = first_fall(&nulls) {
        return Err(RowError::Order {
            at: (ids.len() + at) as u32,
        });
    }
    if let Some(at) = first_bad_end(&ends, values.len()) {
        return Err(RowError::Offset { at: at as u32 });
    }
    Ok(RowView {
        ids,
        nulls,
        ends,
        values,
    })
}
