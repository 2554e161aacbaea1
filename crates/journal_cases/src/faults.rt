ghost use Rattle.std.specs.Prelude.{◌≤◌, IfOk, IsSome};

use crate::texts::{begun, survey};
use journal_text::{GroupFault, Groups};
use ride_base::{LARGEST_TEXT, Lines, MemoryShelf, Shelf};
use std::alloc::Global;
use std::process::Abort;
use std::test::Fail;

const JOURNAL: &[u8] =
    b"r 1 2 4 0 1\na 1 1 0 0 34 12 32\ng 0 1 2\ng 1 2 3 4\nt 12\ns 1 1 p 2 10 12\n";

/// A shelf with the journal begun, which moves at most three bytes by a read, and at which these reads fail.
fn failing(alloc: Global, first: u64, second: u64) -> Result<MemoryShelf, Fail>
    ensures { IfOk result (λ shelf. IsSome shelf.begun) }
{
    let mut shelf = MemoryShelf::new(alloc);
    shelf.put(alloc, "journal", JOURNAL)?;
    shelf.pieces(3);
    shelf.fail(alloc, "journal", first)?;
    shelf.fail(alloc, "journal", second)?;
    shelf.begin("journal")?;
    Ok(shelf)
}

fn check(rt: &impl Abort, alloc: Global, first: u64, second: u64) -> Result<(), Fail> {
    let mut shelf = failing(alloc, first, second)?;
    let found = survey(alloc, &mut shelf)?;
    assert_eq!(rt; found, (3, 8, None), "{} {}", first, second);
    Ok(())
}

/// Wherever the shelf fails, the group is begun again and no line is lost.
#[test]
fn reading_goes_on_after_a_fault(rt: HostRuntime) -> Result<(), Fail> {
    for read in 1..35_u64 {
        check(&rt, rt.alloc(), read, read + 1)?;
        check(&rt, rt.alloc(), read, read + 3)?;
    }
    Ok(())
}

/// The fault that comes in the place of a group, where one comes.
fn fault(
    alloc: Global,
    groups: &mut Groups,
    lines: &mut Lines,
    shelf: &mut MemoryShelf,
) -> Option<GroupFault>
    requires { IsSome shelf.old.begun }
    ensures { IsSome shelf.new.begun }
{
    groups.next(alloc, lines, shelf).err()
}

#[test]
fn a_fault_is_told(rt: HostRuntime) -> Result<(), Fail> {
    let mut shelf = failing(rt.alloc(), 3, 30)?;
    let mut groups = Groups::new(rt.alloc());
    let mut lines = Lines::new(rt.alloc(), LARGEST_TEXT);
    let told = fault(rt.alloc(), &mut groups, &mut lines, &mut shelf);
    assert!(rt; told == Some(GroupFault::Fault));
    let told = fault(rt.alloc(), &mut groups, &mut lines, &mut shelf);
    assert!(rt; told == None);
    Ok(())
}

/// Whether each of three calls tells that bad line.
fn stays_bad(alloc: Global, text: &[u8], limit: u64, line: u64) -> Result<bool, Fail>
    requires { limit ≤ 1_073_741_824 }
{
    let mut shelf = begun(alloc, text, 100)?;
    let mut groups = Groups::new(alloc);
    let mut lines = Lines::new(alloc, limit);
    let bad = Some(GroupFault::Form { line });
    let first = fault(alloc, &mut groups, &mut lines, &mut shelf) == bad;
    let second = fault(alloc, &mut groups, &mut lines, &mut shelf) == bad;
    let third = fault(alloc, &mut groups, &mut lines, &mut shelf) == bad;
    Ok(first && second && third)
}

#[test]
fn a_bad_line_is_told_again(rt: HostRuntime) -> Result<(), Fail> {
    assert!(rt; stays_bad(rt.alloc(), b"a 1 1 0 0 34 12 32\nz\nz\n", LARGEST_TEXT, 2)?);
    Ok(())
}

/// A text that is too large is bad at the line where it is.
#[test]
fn a_large_text_is_bad(rt: HostRuntime) -> Result<(), Fail> {
    assert!(rt; stays_bad(rt.alloc(), b"y 1\nx 1 unknown\n", 10, 2)?);
    Ok(())
}

/// A line of so many bytes, behind two that are a group.
fn long_text(alloc: Global, count: usize) -> Result<Vec<u8>, Fail> {
    let mut text = Vec::new(alloc);
    text.extend_from_slice(b"t 3\nx back 5\n")?;
    let padding = vec![in alloc; b'z'; count]?;
    text.extend_from_slice(padding.as_slice())?;
    Ok(text)
}

/// A line that is too long is bad, behind a whole group and its walks.
#[test]
fn a_long_line_is_bad(rt: HostRuntime) -> Result<(), Fail> {
    let text = long_text(rt.alloc(), 65_537)?;
    let mut shelf = begun(rt.alloc(), text.as_slice(), 100_000)?;
    assert_eq!(rt; survey(rt.alloc(), &mut shelf)?, (1, 1, Some(3)));
    Ok(())
}
