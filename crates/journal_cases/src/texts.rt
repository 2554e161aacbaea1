ghost use Rattle.std.specs.Prelude.{◌<◌, ◌≤◌, IfOk, IsSome};

use journal_text::{Group, GroupFault, Groups};
use ride_base::{LARGEST_TEXT, Lines, MemoryShelf, Shelf};
use std::alloc::Global;
use std::test::Fail;

/// A shelf with the journal begun, which moves at most so many bytes by a read.
pub(crate) fn begun(alloc: Global, text: &[u8], most: usize) -> Result<MemoryShelf, Fail>
    requires { 0 < most }
    ensures { IfOk result (λ shelf. IsSome shelf.begun) }
{
    let mut shelf = MemoryShelf::new(alloc);
    shelf.put(alloc, "journal", text)?;
    shelf.pieces(most);
    shelf.begin("journal")?;
    Ok(shelf)
}

/// A journal that is read.
#[derive(Drop)]
pub(crate) struct Journal {
    groups: Groups,
    lines: Lines,
}

impl Journal {
    pub(crate) fn new(alloc: Global) -> Journal {
        Journal {
            groups: Groups::new(alloc),
            lines: Lines::new(alloc, LARGEST_TEXT),
        }
    }

    /// The next group. It is asked for again where the shelf failed, or memory was wanted, at most twenty times.
    pub(crate) fn next(
        &mut self,
        alloc: Global,
        shelf: &mut MemoryShelf,
    ) -> Result<Option<Group>, GroupFault>
        requires { IsSome shelf.old.begun }
        ensures { IsSome shelf.new.begun }
    {
        'asks: for _ in 0..20 {
            match self.groups.next(alloc, &mut self.lines, shelf) {
                Err(GroupFault::Fault) => {}
                Err(GroupFault::NoMemory) => {}
                answer => return answer,
            }
        }
        self.groups.next(alloc, &mut self.lines, shelf)
    }
}

/// What the groups of a journal are: how many there are up to the end or a bad line, the sum of the numbers of their first lines, and
/// the bad line.
pub(crate) fn survey(
    alloc: Global,
    shelf: &mut MemoryShelf,
) -> Result<(u32, u64, Option<u64>), GroupFault>
    requires { IsSome shelf.old.begun }
    ensures { IsSome shelf.new.begun }
{
    let mut journal = Journal::new(alloc);
    let mut sum = 0_u64;
    'groups: for count in 0..100_000_u32 {
        match journal.next(alloc, shelf) {
            Ok(Some(group)) => sum = sum.wrapping_add(group.line),
            Ok(None) => return Ok((count, sum, None)),
            Err(GroupFault::Form { line }) => return Ok((count, sum, Some(line))),
            Err(fault) => return Err(fault),
        }
    }
    Err(GroupFault::Fault)
}
