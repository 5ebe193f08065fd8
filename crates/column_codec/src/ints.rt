// Optional signed numbers.
ghost use Rattle.std.specs.Prelude.{◌≡◌, ◌<◌, ◌++◌, ◌∷◌, [], length, slice_get, OnOk, OnErr, IfOk, IfErr, Some};
ghost use Rattle.column_codec.specs.Numbers.{AllFit};

use std::alloc::{AllocError, Global};
use std::marker::Model;

/// A list of signed numbers, and nulls among them.
#[derive(Debug, Drop)]
pub struct Ints {
    items: Vec<Option<i64>>,
}

impl Model for Ints {
    ghost use Rattle.std.specs.Prelude.{ℤ, List, Option};
    ghost use Rattle.column_codec.specs.Numbers.{AllFit};

    ghost Value = { List (Option ℤ) };

    ghost view = { λ it. it.items.items };

    ghost invariant = { λ it. AllFit it.items.items };
}

impl Ints {
    /// A list with no value. It takes no memory.
    pub fn new(alloc: Global) -> Ints
        ensures { result ≡ [] }
    {
        Ints {
            items: Vec::new(alloc),
        }
    }

    /// A list with no value, and room for so many.
    pub fn with_room(alloc: Global, values: usize) -> Result<Ints, AllocError>
        ensures { IfOk result (λ it. it ≡ []) }
    {
        let items = Vec::with_capacity(alloc, values)?;
        Ok(Ints { items })
    }

    // The list of these values.
    pub(crate) fn from_vec(items: Vec<Option<i64>>) -> Ints
        requires { AllFit items.items }
        ensures { result ≡ items.items }
    {
        Ints { items }
    }

    /// Adds a value at the end, or hands it back for want of memory.
    pub fn push(&mut self, value: Option<i64>) -> Result<(), Option<i64>>
        ensures ok { OnOk result (self.new ≡ self.old ++ value ∷ []) }
        ensures err { OnErr result (self.new ≡ self.old) }
        ensures back { IfErr result (λ back. back ≡ value) }
    {
        match self.items.push(value) {
            Ok(()) => Ok(()),
            Err(failed) => Err(failed.value),
        }
    }

    /// The number of values.
    pub fn len(&self) -> usize
        ensures { result ≡ length self.now }
    {
        self.items.len()
    }

    /// The value at a place, counted from 0.
    pub fn at(&self, i: usize) -> Option<i64>
        requires { i < length self.now }
        ensures { slice_get self.now i ≡ Some result }
    {
        self.items[i]
    }

    /// All values, in order.
    pub fn as_slice(&self) -> &[Option<i64>]
        ensures all { result.now ≡ self.now }
        ensures fit { AllFit result.now }
    {
        self.items.as_slice()
    }
}
