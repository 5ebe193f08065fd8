// Packed numbers.
ghost use Rattle.std.specs.Prelude.{◌≡◌, ◌≢◌, ◌<◌, ◌≤◌, ◌*◌, ◌+◌, ◌^◌, ℕ, None, drop, length, slice_index, IfSome, MatchOption};
ghost use Rattle.column_block.specs.Rising.{first_fall};
ghost use Rattle.row_codec.specs.Numbers.{numbers, bytes_each, first_bad_end};
ghost use Rattle.byteorder.specs.Endian.{little_number};

use byteorder::{ByteOrder, LittleEndian};
use std::marker::Model;

// How many bytes a number has.
#[derive(Clone, Copy, Debug, PartialEq, Eq)]
pub(crate) enum Width {
    One,
    Two,
    Four,
}

impl Width {
    pub(crate) fn size(self) -> usize
        ensures is { result ≡ bytes_each self }
        ensures small { result ≤ 4 }
    {
        match self {
            Width::One => 1,
            Width::Two => 2,
            Width::Four => 4,
        }
    }
}

// Numbers of one width, little-endian, one behind the other.
#[derive(Debug, Drop)]
pub(crate) struct Numbers<'a> {
    bytes: &'a [u8],
    width: Width,
    count: usize,
}

impl<'a> Model for Numbers<'a> {
    ghost use Rattle.std.specs.Prelude.{ℕ, List, ◌*◌, ◌≤◌, length};

    ghost Value = { List ℕ };

    ghost use Rattle.row_codec.specs.Numbers.{numbers, bytes_each};

    ghost view = { λ it. numbers (bytes_each it.width) it.count it.bytes.now };

    ghost invariant = { λ it. bytes_each it.width * it.count ≤ length it.bytes.now };
}

impl<'a> Numbers<'a> {
    // So many numbers at the front of some bytes.
    #[tactic(auto, using(crate::proofs::Lists::numbers_count))]
    pub(crate) fn new(bytes: &'a [u8], width: Width, count: usize) -> Numbers<'a>
        requires { bytes_each width * count ≤ length bytes.now }
        ensures are { result ≡ numbers (bytes_each width) count bytes.now }
        ensures len { length result ≡ count }
    {
        Numbers {
            bytes,
            width,
            count,
        }
    }

    pub(crate) fn len(&self) -> usize
        ensures { result ≡ length self.now }
    {
        self.count
    }

    // The number at a place.
    pub(crate) fn at(&self, k: usize) -> u32
        requires { k < length self.now }
        ensures { result ≡ slice_index self.now k }
    {
        number_at(self.bytes, self.width, k)
    }
}

// The number at a place, of some bytes that hold numbers of one width.
fn number_at(bytes: &[u8], width: Width, k: usize) -> u32
    requires { bytes_each width * (k + 1) ≤ length bytes.now }
    ensures { result ≡ little_number (bytes_each width) (drop (bytes_each width * k) bytes.now) }
{
    match width {
        Width::One => bytes[k] as u32,
        Width::Two => LittleEndian::read_u16(&bytes[2 * k..]) as u32,
        Width::Four => LittleEndian::read_u32(&bytes[4 * k..]),
    }
}

// The place of the first number that isn't above the one before it.
pub(crate) fn first_fall(all: &Numbers<'_>) -> Option<usize>
    ensures is { result ≡ first_fall all.now }
    ensures within { IfSome result (λ at. at < length all.now) }
{
    for i in 1..all.len() {
        if all.at(i) <= all.at(i - 1) {
            return Some(i);
        }
    }
    None
}

// The place of the first number that is below the one before it, or above the greatest that may be.
pub(crate) fn first_bad_end(all: &Numbers<'_>, most: usize) -> Option<usize>
    ensures is { result ≡ first_bad_end most all.now }
    ensures within { IfSome result (λ at. at < length all.now) }
{
    let mut before: u32 = 0;
    for i in 0..all.len() {
        let end = all.at(i);
        if end < before || end as usize > most {
            return Some(i);
        }
        before = end;
    }
    None
}

// The place of a number among numbers that rise.
pub(crate) fn place_of(all: &Numbers<'_>, number: u32) -> Option<usize>
    requires { first_fall all.now ≡ None }
    ensures { MatchOption result ((k : ℕ) → k < length all.now → slice_index all.now k ≢ number) (λ k. (k < length all.now) × (slice_index all.now k ≡ number)) }
{
    let mut low = 0;
    let mut high = all.len();
    while low < high {
        let middle = low + (high - low) / 2;
        let found = all.at(middle);
        if found == number {
            return Some(middle);
        }
        if found < number {
            low = middle + 1;
        } else {
            high = middle;
        }
    }
    None
}

// The place of a number among numbers that rise. It is looked for first at a place where it may be.
pub(crate) fn place_near(all: &Numbers<'_>, number: u32, near: usize) -> Option<usize>
    requires { first_fall all.now ≡ None }
    ensures { MatchOption result ((k : ℕ) → k < length all.now → slice_index all.now k ≢ number) (λ k. (k < length all.now) × (slice_index all.now k ≡ number)) }
{
    if near >= all.len() {
        return place_of(all, number);
    }
    let here = all.at(near);
    if here == number {
        return Some(near);
    }
    if here < number {
        return place_of(all, number);
    }
    if near == 0 {
        return None;
    }
    let before = all.at(near - 1);
    if before < number {
        return None;
    }
    place_of(all, number)
}
