ghost use Rattle.std.specs.Prelude.{◌≡◌, IfOk};

use std::alloc::{AllocError, Global};

/// Want of memory. A pointer whose count of owners is full counts as such.
pub type NoMemory = AllocError;

/// A value of which an equal one can be had, at best without a copy of what it holds.
pub trait Shared: Sized {
    /// An equal value. Without memory there is none, and this one stays as it is.
    fn share(&self, alloc: Global) -> Result<Self, NoMemory>
        ensures { IfOk result (λ same. same ≡ self.now) };
}

impl Shared for u32 {
    fn share(&self, _alloc: Global) -> Result<u32, NoMemory> {
        Ok(*self)
    }
}

impl Shared for u64 {
    fn share(&self, _alloc: Global) -> Result<u64, NoMemory> {
        Ok(*self)
    }
}
