ghost use Rattle.version_array.specs.Levels.{chunk_at, set_in, set_below};
ghost use Rattle.std.specs.Prelude.{◌≡◌, ◌<◌, ◌++◌, length, replicate, slice_get, slice_set, OnOk, OnErr, IfOk};

use crate::shared::{NoMemory, Shared};
use std::alloc::Global;
use std::marker::Model;
use std::sync::Arc;

/// Some items in a row behind one pointer, which the versions of a list share.
#[derive(Debug, Drop)]
pub(crate) struct Chunk<T> {
    items: Arc<Vec<T>, Global>,
}

impl<T> Model for Chunk<T> {
    ghost use Rattle.std.specs.Prelude.{List};
    ghost use Rattle.std.specs.Arc.{arc_value};

    ghost Value = { List T };

    ghost view = { λ chunk. (arc_value chunk.items).items };
}

impl<T> Chunk<T> {
    /// The item at a place of the chunk.
    pub(crate) fn get(&self, at: usize) -> &T
        requires { at < length self.now }
        ensures { slice_get self.now at ≡ Some result.now }
    {
        &self.items[at]
    }

    /// The same chunk, with one more owner.
    pub(crate) fn again(&self) -> Result<Chunk<T>, NoMemory>
        ensures { IfOk result (λ same. same ≡ self.now) }
    {
        Ok(Chunk {
            items: Arc::try_clone(&self.items)?,
        })
    }
}

impl<T: Shared + Drop> Chunk<T> {
    /// A chunk with the value at each of its places.
    pub(crate) fn filled(alloc: Global, width: usize, value: T) -> Result<Chunk<T>, NoMemory>
        ensures { IfOk result (λ chunk. chunk ≡ replicate width value) }
    {
        let mut items = Vec::with_capacity(alloc, width)?;
        for _ in 0..width {
            items.push(value.share(alloc)?)?;
        }
        Ok(Chunk {
            items: Arc::new(alloc, items)?,
        })
    }

    /// The chunk with the item at one place changed. Its other items are shared.
    pub(crate) fn with(&self, alloc: Global, at: usize, value: T) -> Result<Chunk<T>, NoMemory>
        requires { at < length self.now }
        ensures { IfOk result (λ chunk. chunk ≡ slice_set self.now at value) }
    {
        let held = self.items.as_slice();
        let mut items = Vec::with_capacity(alloc, held.len())?;
        push_shares(alloc, &mut items, &held[..at])?;
        items.push(value)?;
        push_shares(alloc, &mut items, &held[at + 1..])?;
        Ok(Chunk {
            items: Arc::new(alloc, items)?,
        })
    }

    /// Changes the item at one place: where the chunk lies, if no other version shares it, and else in a chunk of its own, which
    /// shares the other items. Without memory the chunk stays as it is, and the value is dropped.
    pub(crate) fn set(&mut self, alloc: Global, at: usize, value: T) -> Result<(), NoMemory>
        requires { at < length self.old }
        ensures ok { OnOk result (self.new ≡ slice_set self.old at value) }
        ensures err { OnErr result (self.new ≡ self.old) }
    {
        match Arc::get_mut(&mut self.items) {
            Some(items) => items[at] = value,
            None => *self = self.with(alloc, at, value)?,
        }
        Ok(())
    }
}

impl<T: Shared + Drop> Chunk<Chunk<T>> {
    /// Changes the item at one place of one of its chunks, in the same way.
    pub(crate) fn set_in(
        &mut self,
        alloc: Global,
        chunk: usize,
        at: usize,
        value: T,
    ) -> Result<(), NoMemory>
        requires there { chunk < length self.old }
        requires within { at < length (chunk_at self.old chunk) }
        ensures ok { OnOk result (self.new ≡ set_in self.old chunk at value) }
        ensures err { OnErr result (self.new ≡ self.old) }
    {
        match Arc::get_mut(&mut self.items) {
            Some(items) => items[chunk].set(alloc, at, value),
            None => {
                let changed = self.get(chunk).with(alloc, at, value)?;
                *self = self.with(alloc, chunk, changed)?;
                Ok(())
            }
        }
    }
}

impl<T: Shared + Drop> Chunk<Chunk<Chunk<T>>> {
    /// Changes the item at one place of a chunk of one of its chunks, in the same way.
    pub(crate) fn set_below(
        &mut self,
        alloc: Global,
        middle: usize,
        bottom: usize,
        at: usize,
        value: T,
    ) -> Result<(), NoMemory>
        requires there { middle < length self.old }
        requires below { bottom < length (chunk_at self.old middle) }
        requires within { at < length (chunk_at (chunk_at self.old middle) bottom) }
        ensures ok { OnOk result (self.new ≡ set_below self.old middle bottom at value) }
        ensures err { OnErr result (self.new ≡ self.old) }
    {
        match Arc::get_mut(&mut self.items) {
            Some(items) => items[middle].set_in(alloc, bottom, at, value),
            None => {
                let below = self.get(middle).get(bottom).with(alloc, at, value)?;
                let changed = self.get(middle).with(alloc, bottom, below)?;
                *self = self.with(alloc, middle, changed)?;
                Ok(())
            }
        }
    }
}

impl<T: Shared + Drop> Shared for Chunk<T> {
    fn share(&self, _alloc: Global) -> Result<Chunk<T>, NoMemory> {
        self.again()
    }
}

// Puts a share of each item at the end of `items`.
fn push_shares<T: Shared + Drop>(
    alloc: Global,
    items: &mut Vec<T>,
    more: &[T],
) -> Result<(), NoMemory>
    ensures { OnOk result (items.new.items ≡ items.old.items ++ more.now) }
{
    for item in more {
        items.push(item.share(alloc)?)?;
    }
    Ok(())
}
