// Two lists of entries made one.
ghost use Rattle.std.specs.Prelude.{◌≡◌, ◌++◌, ◌∷◌, [], fold, IfOk, OnOk};
ghost use Rattle.delta_index.specs.Indexes.{AreRising, put};

use crate::Memory;
use crate::gather::Entry;
use std::alloc::Global;
use std::cmp::Ordering;

// The entries of both in order. Where a pair stands in both, the newer file's stays.
pub fn merged(alloc: Global, old: &[Entry], new: &[Entry]) -> Result<Vec<Entry>, Memory>
    requires { AreRising new.now }
    ensures { IfOk result (λ all. all.items ≡ fold put old.now new.now) }
{
    let mut all = Vec::new(alloc);
    let mut olds = old;
    let mut news = new;
    while let Some((next, more)) = news.split_first() {
        match olds.split_first() {
            None => {
                add(&mut all, *next)?;
                news = more;
            }
            Some((first, others)) => match first.0.cmp(&next.0) {
                Ordering::Less => {
                    add(&mut all, *first)?;
                    olds = others;
                }
                Ordering::Equal => {
                    add(&mut all, (first.0, next.1))?;
                    olds = others;
                    news = more;
                }
                Ordering::Greater => {
                    add(&mut all, *next)?;
                    news = more;
                }
            },
        }
    }
    add_all(&mut all, olds)?;
    Ok(all)
}

fn add(all: &mut Vec<Entry>, entry: Entry) -> Result<(), Memory>
    ensures { OnOk result (all.new.items ≡ all.old.items ++ entry ∷ []) }
{
    match all.push(entry) {
        Ok(()) => Ok(()),
        Err(_) => Err(Memory),
    }
}

pub fn add_all(all: &mut Vec<Entry>, more: &[Entry]) -> Result<(), Memory>
    ensures { OnOk result (all.new.items ≡ all.old.items ++ more.now) }
{
    match all.extend_from_slice(more) {
        Ok(()) => Ok(()),
        Err(_) => Err(Memory),
    }
}
