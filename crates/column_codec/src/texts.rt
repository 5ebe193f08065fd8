// Optional byte lists.
ghost use Rattle.std.specs.Prelude.{◌≡◌, ◌<◌, ◌++◌, ◌∷◌, [], length, drop, slice_get, nat_eq, OnOk, OnErr, IfOk, Some};
ghost use Rattle.std.specs.Option.{option_map};
ghost use Rattle.std.specs.Cmp.Lexicographic.{pointwise};
ghost use Rattle.column_codec.specs.Texts.{texts_of, AllLieIn};
ghost use Rattle.column_codec.specs.Faults.{Gives};
ghost use Rattle.column_codec.specs.Spelling.{are_null};
ghost use Rattle.column_codec.specs.Numbers.{text_at};
ghost use Rattle.column_codec.specs.Nulls.{nulls_from};
ghost use Rattle.column_codec.specs.Lists.{values_at, value_at, repeated, given, mode_of};

use crate::fault::CodecError;
use crate::nulls::{all_null, is_null, room};
use crate::number::text_of;
use crate::values::repeated;
use flash_list::SharedBytes;
use std::alloc::{AllocError, Global};
use std::marker::Model;

// Where a text lies.
#[derive(Clone, Copy, Debug)]
pub struct Span {
    pub from: usize,
    pub to: usize,
}

/// A list of byte lists, and nulls among them. All bytes lie in one piece of memory.
#[derive(Debug, Drop)]
pub struct Texts {
    bytes: Vec<u8>,
    spans: Vec<Option<Span>>,
}

impl Model for Texts {
    ghost use Rattle.std.specs.Prelude.{ℕ, List, Option, length};
    ghost use Rattle.column_codec.specs.Texts.{texts_of, AllLieIn};

    ghost Value = { List (Option (List ℕ)) };

    ghost view = { λ it. texts_of it.bytes.items it.spans.items };

    ghost invariant = { λ it. AllLieIn (length it.bytes.items) it.spans.items };
}

impl Texts {
    /// A list with no value. It takes no memory.
    pub fn new(alloc: Global) -> Texts
        ensures { result ≡ [] }
    {
        Texts {
            bytes: Vec::new(alloc),
            spans: Vec::new(alloc),
        }
    }

    /// A list with no value, and room for so many values that have so many bytes together.
    pub fn with_room(alloc: Global, values: usize, bytes: usize) -> Result<Texts, AllocError>
        ensures { IfOk result (λ it. it ≡ []) }
    {
        let bytes = Vec::with_capacity(alloc, bytes)?;
        let spans = Vec::with_capacity(alloc, values)?;
        Ok(Texts { bytes, spans })
    }

    /// The number of values.
    pub fn len(&self) -> usize
        ensures { result ≡ length self.now }
    {
        self.spans.len()
    }

    /// The value at a place, counted from 0.
    pub fn at(&self, i: usize) -> Option<&[u8]>
        requires { i < length self.now }
        ensures { slice_get self.now i ≡ Some (option_map (λ text. text.now) result) }
    {
        match self.spans[i] {
            None => None,
            Some(span) => Some(&self.bytes[span.from..span.to]),
        }
    }

    // Where the values lie.
    pub(crate) fn spans(&self) -> &[Option<Span>]
        ensures { are_null result.now ≡ are_null self.now }
    {
        self.spans.as_slice()
    }

    /// Adds a value at the end. After `Err` the list is as before.
    pub fn push(&mut self, value: Option<&[u8]>) -> Result<(), AllocError>
        ensures ok { OnOk result (self.new ≡ self.old ++ option_map (λ text. text.now) value.entry ∷ []) }
        ensures err { OnErr result (self.new ≡ self.old) }
    {
        self.spans.reserve(1)?;
        match value {
            None => {
                let Ok(()) = self.spans.push(None) else {
                    unreachable!();
                };
                Ok(())
            }
            Some(text) => {
                let from = self.bytes.len();
                self.bytes.extend_from_slice(text)?;
                let to = self.bytes.len();
                let Ok(()) = self.spans.push(Some(Span { from, to })) else {
                    unreachable!();
                };
                Ok(())
            }
        }
    }
}

/// A list of byte lists, and nulls among them, of which each is cut with no copy: the cuts share the
/// piece of memory in which all bytes lie, and it stays while one of them does.
#[derive(Debug, Drop)]
pub struct SharedTexts {
    bytes: SharedBytes,
    spans: Vec<Option<Span>>,
}

impl Model for SharedTexts {
    ghost use Rattle.std.specs.Prelude.{ℕ, List, Option, length};
    ghost use Rattle.column_codec.specs.Texts.{texts_of, AllLieIn};

    ghost Value = { List (Option (List ℕ)) };

    ghost view = { λ it. texts_of it.bytes it.spans.items };

    ghost invariant = { λ it. AllLieIn (length it.bytes) it.spans.items };
}

impl SharedTexts {
    /// The values of a list, whose bytes are taken over and not copied.
    pub fn new(texts: Texts) -> Result<SharedTexts, AllocError>
        ensures { IfOk result (λ it. it ≡ texts) }
    {
        let Texts { bytes, spans } = texts;
        let bytes = SharedBytes::from_vec(bytes)?;
        Ok(SharedTexts { bytes, spans })
    }

    /// The number of values.
    pub fn len(&self) -> usize
        ensures { result ≡ length self.now }
    {
        self.spans.len()
    }

    /// The value at a place, counted from 0. It is one more owner of the bytes of all, and copies
    /// none.
    pub fn cut(&self, i: usize) -> Result<Option<SharedBytes>, AllocError>
        requires { i < length self.now }
        ensures { IfOk result (λ text. slice_get self.now i ≡ Some text) }
    {
        match self.spans[i] {
            None => Ok(None),
            Some(span) => {
                let text = self.bytes.part(span.from, span.to)?;
                Ok(Some(text))
            }
        }
    }
}

// Mode 0: each text that isn't null.
pub fn texts_of<'a>(
    alloc: Global,
    end: u64,
    bitmap: &[u8],
    count: u64,
    bytes: &'a [u8],
) -> Result<(Texts, &'a [u8]), CodecError>
    ensures { Gives (λ x. (x.0, x.1.now)) result (values_at (text_at end) (λ _. tt {0}) (nulls_from bitmap.now 0 count) (tt {0}) bytes.now) }
{
    let mut list = Texts::with_room(alloc, room(count, bitmap, bytes), bytes.len())?;
    let mut rest = bytes;
    for i in 0..count {
        if is_null(bitmap, i) {
            let Ok(()) = list.push(None) else {
                return Err(CodecError::Memory);
            };
        } else {
            let (text, behind) = text_of(end, rest)?;
            let Ok(()) = list.push(Some(text)) else {
                return Err(CodecError::Memory);
            };
            rest = behind;
        }
    }
    Ok((list, rest))
}

// The same text wherever none is null.
fn repeated_text(alloc: Global, bitmap: &[u8], count: u64, text: &[u8]) -> Result<Texts, AllocError>
    ensures { IfOk result (λ list. list ≡ repeated text.now (nulls_from bitmap.now 0 count)) }
{
    let bytes = Vec::from_slice(alloc, text)?;
    let span = Span {
        from: 0,
        to: text.len(),
    };
    let spans = repeated(alloc, bitmap, count, span)?;
    Ok(Texts { bytes, spans })
}

// Mode 1: one text for all that aren't null.
#[tactic(auto, unfolding(crate::specs::Lists::value_at))]
pub fn same_text<'a>(
    alloc: Global,
    end: u64,
    bitmap: &[u8],
    count: u64,
    bytes: &'a [u8],
) -> Result<(Texts, &'a [u8]), CodecError>
    ensures { Gives (λ x. (x.0, x.1.now)) result (value_at (text_at end) (nulls_from bitmap.now 0 count) (tt {0}) bytes.now) }
{
    if all_null(bitmap, count) {
        let list = repeated_text(alloc, bitmap, count, &[])?;
        return Ok((list, bytes));
    }
    let (text, rest) = text_of(end, bytes)?;
    let list = repeated_text(alloc, bitmap, count, text)?;
    Ok((list, rest))
}

// The mode that is due.
pub fn text_mode(texts: &Texts) -> u8
    ensures { result ≡ mode_of (pointwise nat_eq) (given texts.now) }
{
    for i in 0..texts.len() {
        match texts.at(i) {
            None => {}
            Some(text) => return text_mode_behind(text, texts, i + 1),
        }
    }
    0
}

// The mode that is due where this text stands before those from a place on.
fn text_mode_behind(text: &[u8], texts: &Texts, from: usize) -> u8
    ensures { result ≡ mode_of (pointwise nat_eq) (text.now ∷ given (drop from texts.now)) }
{
    let mut mode = 0;
    for i in from..texts.len() {
        match texts.at(i) {
            None => {}
            Some(other) => {
                if text != other {
                    return 0;
                }
                mode = 1;
            }
        }
    }
    mode
}
