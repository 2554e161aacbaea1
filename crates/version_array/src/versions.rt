ghost use Rattle.std.specs.Prelude.{◌≡◌, ◌<◌, ◌≤◌, length, replicate, slice_get, slice_set, IfOk, OnOk, OnErr};

use crate::chunk::Chunk;
use crate::shared::{NoMemory, Shared};
use std::alloc::Global;
use std::marker::Model;

// How many items a full chunk has.
const WIDTH: usize = 128;

/// The most places that a list has: three levels of chunks of 128 items hold no more.
pub const MOST_PLACES: usize = WIDTH * WIDTH * WIDTH;

/// One version of a list. A version made from another shares with it all chunks but those on the
/// way to the changed place.
#[derive(Debug, Drop)]
pub struct VersionArray<T> {
    len: usize,
    root: Chunk<Chunk<Chunk<T>>>,
}

impl<T> Model for VersionArray<T> {
    ghost use Rattle.std.specs.Prelude.{List};
    ghost use Rattle.version_array.specs.Levels.{values_of, IsLaid};

    ghost Value = { List T };

    ghost view = { λ version. values_of version.len version.root };

    ghost invariant = { λ version. IsLaid version.len version.root };
}

impl<T> VersionArray<T> {
    /// How many places the list has, the same in each version.
    pub fn len(&self) -> usize
        ensures places { result ≡ length self.now }
        ensures most { result ≤ MOST_PLACES }
    {
        self.len
    }

    /// The value at a place, by way of three chunks.
    pub fn get(&self, place: usize) -> &T
        requires { place < length self.now }
        ensures { slice_get self.now place ≡ Some result.now }
    {
        let row = self.root.get(place / WIDTH / WIDTH);
        row.get(place / WIDTH % WIDTH).get(place % WIDTH)
    }

    /// This version once more, in constant time: it allocates nothing and copies no value.
    pub fn share(&self) -> Result<VersionArray<T>, NoMemory>
        ensures same { IfOk result (λ version. version ≡ self.now) }
        ensures most { IfOk result (λ version. length version ≤ MOST_PLACES) }
    {
        Ok(VersionArray {
            len: self.len,
            root: self.root.again()?,
        })
    }
}

impl<T: Shared + Drop> VersionArray<T> {
    /// A list with the value at each of its places. Chunks that hold the same are one chunk, so
    /// 128 shares of the value at most are made, however long the list is.
    pub fn filled(alloc: Global, len: usize, value: T) -> Result<VersionArray<T>, NoMemory>
        requires { len ≤ MOST_PLACES }
        ensures values { IfOk result (λ version. version ≡ replicate len value) }
        ensures most { IfOk result (λ version. length version ≤ MOST_PLACES) }
    {
        let bottoms = len.div_ceil(WIDTH);
        let bottom = Chunk::filled(alloc, len.min(WIDTH), value)?;
        let middle = Chunk::filled(alloc, bottoms.min(WIDTH), bottom)?;
        let root = Chunk::filled(alloc, bottoms.div_ceil(WIDTH), middle)?;
        Ok(VersionArray { len, root })
    }

    /// Changes the value at one place of this version; each other version stays as it is. A chunk on the way that no other version
    /// shares is changed where it lies; from the first shared one on, the chunks are made anew, and their other items are shared one by
    /// one. Without memory the list stays as it is, and the value is dropped.
    pub fn set(&mut self, alloc: Global, place: usize, value: T) -> Result<(), NoMemory>
        requires { place < length self.old }
        ensures changed { OnOk result (self.new ≡ slice_set self.old place value) }
        ensures kept { OnErr result (self.new ≡ self.old) }
    {
        let bottom = place / WIDTH;
        self.root.set_below(alloc, bottom / WIDTH, bottom % WIDTH, place % WIDTH, value)
    }

    /// The list with the value at one place changed; this version stays as it is. Three chunks are
    /// made anew, and the other values of the lowest one, 127 at most, are shared one by one.
    /// Without memory the value is dropped.
    pub fn with(&self, alloc: Global, place: usize, value: T) -> Result<VersionArray<T>, NoMemory>
        requires { place < length self.now }
        ensures changed { IfOk result (λ version. version ≡ slice_set self.now place value) }
        ensures most { IfOk result (λ version. length version ≤ MOST_PLACES) }
    {
        let mut changed = self.share()?;
        changed.set(alloc, place, value)?;
        Ok(changed)
    }
}
