ghost use Rattle.std.specs.Prelude.{◌<◌, IfOk, IsSome};

use ride_base::{
    BeginFault, Failed, HostShelf, HostSink, Items, Line, LineFault, Lines, MemoryShelf,
    MemorySink, NoMemory, Shelf, Sink, number, whole, write_whole,
};
use std::alloc::Global;
use std::fmt::Display;
use std::process::Abort;
use std::test::Fail;
use std::{fs, io};

const TEXT: &[u8] = b"a\r\n\nb";

/// A shelf with the text begun, which moves at most so many bytes by a read.
fn begun(alloc: Global, text: &[u8], most: usize) -> Result<MemoryShelf, Fail>
    requires { 0 < most }
    ensures { IfOk result (λ shelf. IsSome shelf.begun) }
{
    let mut shelf = MemoryShelf::new(alloc);
    shelf.put(alloc, "text", text)?;
    shelf.pieces(most);
    shelf.begin("text")?;
    Ok(shelf)
}

fn is_line(line: &Line, number: u64, bytes: &[u8], ended: bool) -> bool {
    line.number == number && line.bytes.as_slice() == bytes && line.ended == ended
}

/// Whether the next line has this number and these bytes, and a line end behind it or none.
fn gives(
    alloc: Global,
    lines: &mut Lines,
    shelf: &mut MemoryShelf,
    number: u64,
    bytes: &[u8],
    ended: bool,
) -> bool
    requires { IsSome shelf.old.begun }
    ensures { IsSome shelf.new.begun }
{
    match lines.next(alloc, shelf) {
        Ok(Some(line)) => is_line(&line, number, bytes, ended),
        _ => false,
    }
}

/// Whether the text is at its end.
fn ends(alloc: Global, lines: &mut Lines, shelf: &mut MemoryShelf) -> bool
    requires { IsSome shelf.old.begun }
    ensures { IsSome shelf.new.begun }
{
    matches!(lines.next(alloc, shelf), Ok(None))
}

/// The fault that comes in the place of a line, where one comes.
fn fault(alloc: Global, lines: &mut Lines, shelf: &mut MemoryShelf) -> Option<LineFault>
    requires { IsSome shelf.old.begun }
    ensures { IsSome shelf.new.begun }
{
    lines.next(alloc, shelf).err()
}

/// Whether the rest of the text that is begun fits a limit, and is this.
fn is_whole(alloc: Global, shelf: &mut MemoryShelf, limit: u64, text: &[u8]) -> bool
    requires { IsSome shelf.old.begun }
    ensures { IsSome shelf.new.begun }
{
    match whole(alloc, shelf, limit) {
        Ok(given) => given.as_slice() == text,
        Err(_) => false,
    }
}

/// So many bytes, and then others.
fn padded(alloc: Global, count: usize, rest: &[u8]) -> Result<Vec<u8>, NoMemory> {
    let mut text = vec![in alloc; b'x'; count]?;
    text.extend_from_slice(rest)?;
    Ok(text)
}

fn check_lines(rt: &impl Abort, alloc: Global, shelf: &mut MemoryShelf)
    requires { IsSome shelf.old.begun }
{
    let mut lines = Lines::new(alloc, 5);
    assert!(rt; gives(alloc, &mut lines, shelf, 1, b"a", true));
    assert!(rt; gives(alloc, &mut lines, shelf, 2, b"", true));
    assert!(rt; gives(alloc, &mut lines, shelf, 3, b"b", false));
    assert!(rt; ends(alloc, &mut lines, shelf));
}

#[test]
fn lines_come_in_order(rt: HostRuntime) -> Result<(), Fail> {
    check_lines(&rt, rt.alloc(), &mut begun(rt.alloc(), TEXT, 1)?);
    check_lines(&rt, rt.alloc(), &mut begun(rt.alloc(), TEXT, 100)?);
    Ok(())
}

/// Whether the next line, read into this one, has this number and these bytes, and a line end behind it or none.
fn reads(
    lines: &mut Lines,
    shelf: &mut MemoryShelf,
    line: &mut Line,
    number: u64,
    bytes: &[u8],
    ended: bool,
) -> bool
    requires { IsSome shelf.old.begun }
    ensures { IsSome shelf.new.begun }
{
    lines.read_line(shelf, line) == Ok(true)
        && is_line(line, number, bytes, ended)
        && lines.given() == number
}

fn check_reads(rt: &impl Abort, alloc: Global, shelf: &mut MemoryShelf)
    requires { IsSome shelf.old.begun }
{
    let mut lines = Lines::new(alloc, 5);
    let mut line = Line::new(alloc);
    assert!(rt; reads(&mut lines, shelf, &mut line, 1, b"a", true));
    assert!(rt; reads(&mut lines, shelf, &mut line, 2, b"", true));
    assert!(rt; reads(&mut lines, shelf, &mut line, 3, b"b", false));
    assert!(rt; ends(alloc, &mut lines, shelf));
}

#[test]
fn lines_are_read_into_one(rt: HostRuntime) -> Result<(), Fail> {
    check_reads(&rt, rt.alloc(), &mut begun(rt.alloc(), TEXT, 1)?);
    Ok(())
}

#[test]
fn a_reader_at_the_end_reads_no_more(rt: HostRuntime) -> Result<(), Fail> {
    let mut shelf = begun(rt.alloc(), TEXT, 100)?;
    shelf.fail(rt.alloc(), "text", 3)?;
    check_lines(&rt, rt.alloc(), &mut shelf);
    Ok(())
}

fn check_stop(rt: &impl Abort, alloc: Global, shelf: &mut MemoryShelf)
    requires { IsSome shelf.old.begun }
{
    let mut lines = Lines::new(alloc, 4);
    assert!(rt; gives(alloc, &mut lines, shelf, 1, b"a", true));
    assert!(rt; gives(alloc, &mut lines, shelf, 2, b"", true));
    assert_eq!(rt; fault(alloc, &mut lines, shelf), Some(LineFault::Large));
    assert_eq!(rt; fault(alloc, &mut lines, shelf), Some(LineFault::Large));
}

#[test]
fn a_stopped_reader_answers_the_same(rt: HostRuntime) -> Result<(), Fail> {
    check_stop(&rt, rt.alloc(), &mut begun(rt.alloc(), TEXT, 1)?);
    Ok(())
}

/// Whether the text's first line is this.
fn is_first(alloc: Global, text: &[u8], line: &[u8]) -> Result<bool, Fail> {
    let mut shelf = begun(alloc, text, 1000)?;
    Ok(gives(
        alloc,
        &mut Lines::new(alloc, 100_000),
        &mut shelf,
        1,
        line,
        true,
    ))
}

/// Whether the first line is this in a text of so many bytes and then others.
fn is_padded(alloc: Global, rest: &[u8], line: &[u8]) -> Result<bool, Fail> {
    let text = padded(alloc, line.len(), rest)?;
    is_first(alloc, &text, line)
}

/// The fault that comes in the place of the text's first line.
fn first_fault(alloc: Global, text: &[u8]) -> Result<Option<LineFault>, Fail> {
    let mut shelf = begun(alloc, text, 1000)?;
    Ok(fault(alloc, &mut Lines::new(alloc, 100_000), &mut shelf))
}

#[test]
fn the_longest_line_is_given(rt: HostRuntime) -> Result<(), Fail> {
    let line = padded(rt.alloc(), 65_535, b"")?;
    assert!(rt; is_padded(rt.alloc(), b"\r\n", &line)?);
    Ok(())
}

#[test]
fn a_longer_line_is_refused(rt: HostRuntime) -> Result<(), Fail> {
    let text = padded(rt.alloc(), 65_536, b"\r\n")?;
    assert_eq!(rt; first_fault(rt.alloc(), &text)?, Some(LineFault::Long));
    Ok(())
}

#[test]
fn the_whole_text_fits_its_limit(rt: HostRuntime) -> Result<(), Fail> {
    let mut shelf = begun(rt.alloc(), TEXT, 2)?;
    assert!(rt; is_whole(rt.alloc(), &mut shelf, 5, TEXT));
    Ok(())
}

#[test]
fn a_larger_text_is_refused(rt: HostRuntime) -> Result<(), Fail> {
    let mut shelf = begun(rt.alloc(), TEXT, 2)?;
    let refused = whole(rt.alloc(), &mut shelf, 4).err();
    assert_eq!(rt; refused, Some(LineFault::Large));
    Ok(())
}

fn check_later(rt: &impl Abort, alloc: Global, shelf: &mut MemoryShelf) -> Result<(), Fail>
    requires { IsSome shelf.old.begun }
{
    shelf.put(alloc, "text", b"new")?;
    assert!(rt; is_whole(alloc, shelf, 9, b"old"));
    shelf.begin("text")?;
    assert!(rt; is_whole(alloc, shelf, 9, b"new"));
    assert_eq!(rt; shelf.begin("other"), Err(BeginFault::Failed));
    Ok(())
}

#[test]
fn the_later_text_counts(rt: HostRuntime) -> Result<(), Fail> {
    check_later(&rt, rt.alloc(), &mut begun(rt.alloc(), b"old", 100)?)
}

fn check_failing_read(rt: &impl Abort, alloc: Global, shelf: &mut MemoryShelf)
    requires { IsSome shelf.old.begun }
{
    let mut lines = Lines::new(alloc, 5);
    assert_eq!(rt; fault(alloc, &mut lines, shelf), Some(LineFault::Fault));
    assert!(rt; gives(alloc, &mut lines, shelf, 1, b"a", true));
}

#[test]
fn listed_reads_fail(rt: HostRuntime) -> Result<(), Fail> {
    let mut shelf = begun(rt.alloc(), TEXT, 2)?;
    shelf.fail(rt.alloc(), "text", 2)?;
    check_failing_read(&rt, rt.alloc(), &mut shelf);
    Ok(())
}

#[test]
fn listed_begins_fail(rt: HostRuntime) -> Result<(), Fail> {
    let mut shelf = begun(rt.alloc(), TEXT, 2)?;
    shelf.fail(rt.alloc(), "text", 0)?;
    assert_eq!(rt; shelf.begin("text"), Err(BeginFault::Failed));
    Ok(())
}

#[test]
fn the_sink_takes_what_fits(rt: HostRuntime) -> Result<(), Fail> {
    let mut sink = MemorySink::new(rt.alloc(), 2)?;
    assert_eq!(rt; sink.put(b"abc"), Ok(2));
    assert_eq!(rt; sink.put(b"c"), Err(Failed));
    assert_eq!(rt; sink.taken(), b"ab".as_slice());
    Ok(())
}

#[test]
fn a_listed_put_fails(rt: HostRuntime) -> Result<(), Fail> {
    let mut sink = MemorySink::new(rt.alloc(), 2)?;
    sink.fail(rt.alloc(), 2)?;
    assert_eq!(rt; write_whole(&mut sink, b"a"), Ok(()));
    assert_eq!(rt; write_whole(&mut sink, b"b"), Err(Failed));
    assert_eq!(rt; write_whole(&mut sink, b"c"), Ok(()));
    assert_eq!(rt; sink.taken(), b"ac".as_slice());
    Ok(())
}

/// Whether the file that the test wrote is read back.
fn reads_back<S: Shelf>(alloc: Global, shelf: &mut S) -> Result<bool, Fail> {
    shelf.begin("read_back.txt")?;
    let text = whole(alloc, shelf, 100)?;
    Ok(text.as_slice() == b"from a file\n".as_slice())
}

fn reads_line_back<S: Shelf>(alloc: Global, shelf: &mut S) -> Result<bool, Fail> {
    shelf.begin("read_back.txt")?;
    match Lines::new(alloc, 100).next(alloc, shelf)? {
        Some(line) => Ok(is_line(&line, 1, b"from a file", true)),
        None => Ok(false),
    }
}

#[test]
fn a_file_is_read_back(rt: HostRuntime) -> Result<(), Fail> {
    fs::write(&rt, "read_back.txt", b"from a file\n")?;
    let mut shelf = HostShelf::new(&rt, rt.alloc());
    assert!(rt; reads_back(rt.alloc(), &mut shelf)?);
    assert!(rt; reads_line_back(rt.alloc(), &mut shelf)?);
    assert_eq!(rt; shelf.begin("no_such_file.txt"), Err(BeginFault::Failed));
    fs::remove_file(&rt, "read_back.txt")?;
    Ok(())
}

#[test]
fn the_standard_output_takes_bytes(rt: HostRuntime) -> Result<(), Fail> {
    let mut sink = HostSink::new(&rt);
    let taken = sink.put(b"taken\n")?;
    assert!(rt; taken >= 1);
    assert_eq!(rt; write_whole(&mut sink, b"taken\n"), Ok(()));
    Ok(())
}

/// An output that takes at most so many bytes by a write.
#[derive(Drop)]
struct Narrow {
    most: usize,
}

impl Print for Narrow {
    fn print<D: Display + Drop>(&self, value: D) -> io::Result<()> {
        let _ = value;
        Ok(())
    }

    fn println<D: Display + Drop>(&self, value: D) -> io::Result<()> {
        let _ = value;
        Ok(())
    }

    fn write_all(&self, bytes: &[u8]) -> io::Result<()> {
        let _ = bytes;
        Ok(())
    }

    fn write_some(&self, bytes: &[u8]) -> io::Result<usize> {
        Ok(bytes.len().min(self.most))
    }
}

#[test]
fn a_short_write_is_told(rt: HostRuntime) {
    let narrow = Narrow { most: 2 };
    assert_eq!(rt; HostSink::new(&narrow).put(b"abc"), Ok(2));
}

#[test]
fn a_write_of_no_byte_fails(rt: HostRuntime) {
    let closed = Narrow { most: 0 };
    assert_eq!(rt; HostSink::new(&closed).put(b"abc"), Err(Failed));
}

fn is_copied(alloc: Global, items: &Items<u32>) -> Result<bool, NoMemory> {
    Ok(Items::from_slice(alloc, items.as_slice())? == *items)
}

#[test]
fn items_keep_what_is_pushed(rt: HostRuntime) -> Result<(), Fail> {
    let mut items = Items::new(rt.alloc());
    assert!(rt; items.is_empty());
    items.push(7u32)?;
    assert_eq!(rt; items.len(), 1);
    assert_eq!(rt; items.as_slice(), [7u32].as_slice());
    assert!(rt; is_copied(rt.alloc(), &items)?);
    Ok(())
}

#[test]
fn items_are_copied(rt: HostRuntime) -> Result<(), Fail> {
    let mut copied = Items::from_slice(rt.alloc(), [7u32, 9].as_slice())?;
    assert_eq!(rt; copied.as_slice(), [7u32, 9].as_slice());
    copied.refill([5u32].as_slice())?;
    assert_eq!(rt; copied.into_vec().as_slice(), [5u32].as_slice());
    Ok(())
}

#[test]
fn numbers_are_digits(rt: HostRuntime) {
    assert_eq!(rt; number(b"0042", 42), Some(42));
    assert_eq!(rt; number(b"43", 42), None);
    assert_eq!(rt; number(b"18446744073709551615", u64::MAX), Some(u64::MAX));
    assert_eq!(rt; number(b"18446744073709551616", u64::MAX), None);
    assert_eq!(rt; number(b"", 42), None);
    assert_eq!(rt; number(b"-1", 42), None);
}
