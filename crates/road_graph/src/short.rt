ghost use Rattle.std.specs.Prelude.{◌≡◌, List, [], ◌∷◌, ◌++◌, OnOk, OnErr, IfOk};

use ride_base::NoMemory;
use smallvec::SmallVec;
use std::alloc::Global;
use std::default::MadeWith;
use std::marker::Model;

/// A list whose one item, where there is one alone, lies in the value itself; contracts see it as the list.
#[derive(Debug, Drop)]
pub(crate) struct Short<T> {
    held: SmallVec<T, 1>,
}

impl<T> Model for Short<T> {
    ghost Value = { List T };

    ghost view = { λ s. s.held.items };
}

impl<T> Short<T> {
    pub(crate) fn as_slice(&self) -> &[T]
        ensures { result.now ≡ self.now }
    {
        self.held.as_slice()
    }
}

impl<T: MadeWith<Global> + Drop> Short<T> {
    /// No items. It takes no memory.
    pub(crate) fn new(alloc: Global) -> Short<T>
        ensures { result ≡ [] }
    {
        Short {
            held: SmallVec::new(alloc),
        }
    }

    /// The one item. It takes no memory.
    pub(crate) fn one(alloc: Global, item: T) -> Short<T>
        ensures { result ≡ item ∷ [] }
    {
        Short {
            held: SmallVec::from_buf(alloc, [item]),
        }
    }

    /// Puts an item at the end, and takes no memory for the first. A refused push drops the item and changes nothing else.
    pub(crate) fn push(&mut self, item: T) -> Result<(), NoMemory>
        ensures ok { OnOk result (self.new ≡ self.old ++ item ∷ []) }
        ensures err { OnErr result (self.new ≡ self.old) }
    {
        self.held.push(item)?;
        Ok(())
    }
}

impl<T: MadeWith<Global> + Copy> Short<T> {
    /// A copy of the items of a slice. It takes no memory for one.
    pub(crate) fn from_slice(alloc: Global, items: &[T]) -> Result<Short<T>, NoMemory>
        ensures { IfOk result (λ s. s ≡ items.now) }
    {
        Ok(Short {
            held: SmallVec::from_slice(alloc, items)?,
        })
    }
}

impl<T: PartialEq> PartialEq for Short<T> {
    ghost use Rattle.std.specs.Cmp.Lexicographic.{pointwise};

    ghost eq = { λ x y. pointwise T.eq x y };

    ghost use Rattle.std.specs.Cmp.Lexicographic.{lists_per};

    ghost laws = { lists_per T.laws };

    fn eq(&self, other: &Self) -> bool {
        self.as_slice() == other.as_slice()
    }
}

impl<T: Eq> Eq for Short<T> {
    ghost use Rattle.std.specs.Cmp.Lexicographic.{lists_equiv};

    ghost laws = { lists_equiv T.Eq.laws };
}
