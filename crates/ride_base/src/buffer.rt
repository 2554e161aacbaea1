ghost use Rattle.std.specs.Prelude.{◌≡◌, ◌≢◌, ℕ, true, ◌<◌, ◌≤◌, ◌+◌, ◌++◌, List, [], length, take, drop, position, Option, Some, None, OnOk, OnErr, IfOk, IsOk, IsSome, Err};
ghost use Rattle.std.specs.List.{position_or_len};
ghost use Rattle.std.specs.Str.Lines.{strip_carriage_return};
ghost use Rattle.ride_base.specs.Outside.{CountRose, CountStays, OnlyRead};
ghost use Rattle.ride_base.specs.Pieces.{is_line_end, longest_line};
ghost use Rattle.ride_base.specs.Buffers.{Brings, IsScanOf, IsWithinARead, LosesNothing};
ghost use Rattle.ride_base.specs.Reader.{HasNoLineEnd, longest_read, most_held};

use crate::items::{Items, NoMemory};
use crate::outside::{Failed, Shelf};
use std::alloc::Global;
use std::marker::Model;

/// The bytes that one read asks for.
const PIECE: usize = 16384;

/// Why no further bytes were read.
#[derive(Clone, Copy, Debug, PartialEq, Eq)]
pub enum ReadFault {
    /// The shelf failed.
    Failed,
    NoMemory,
}

/// What a scan for the end of the first line came to.
#[derive(Clone, Copy, Debug)]
pub enum LineScan {
    /// So many bytes stand before its line end.
    Ended(usize),
    /// No line end was read, and there are more bytes than the line may have.
    Past,
    /// No line end was read, and the text is at its end.
    Last,
}

/// Bytes that were read and not given. Bytes that were given stay before `start` until the next read, and the `searched` bytes
/// behind it have no line end. In all they are at most those of a longest line and of one read, 81,920.
#[derive(Drop)]
pub struct Buffer {
    bytes: Vec<u8>,
    start: usize,
    searched: usize,
}

impl Model for Buffer {
    ghost use Rattle.std.specs.Prelude.{List, ℕ, drop, ◌≤◌, length};
    ghost use Rattle.ride_base.specs.Reader.{IsSearched, most_held};

    ghost Value = { List ℕ };

    ghost view = { λ a. drop a.start a.bytes.items };

    ghost invariant = { λ a. IsSearched a.start a.searched a.bytes.items
        × (length a.bytes.items ≤ most_held) };
}

impl Buffer {
    /// No bytes. It takes no memory.
    pub fn new(alloc: Global) -> Buffer
        ensures { result ≡ [] }
    {
        Buffer {
            bytes: Vec::new(alloc),
            start: 0,
            searched: 0,
        }
    }

    /// How many bytes there are.
    pub fn len(&self) -> usize
        ensures { result ≡ length self.now }
    {
        self.bytes.len() - self.start
    }

    /// How many bytes stand before the first line end.
    fn find(&mut self) -> Option<usize>
        ensures found { result ≡ position is_line_end self.old }
        ensures kept { self.new ≡ self.old }
    {
        let pending = &self.bytes[self.start..];
        let found = find_end(pending, self.searched);
        self.searched = found.unwrap_or(pending.len());
        found
    }

    /// Reads once more, and answers how many bytes came: 0 only at the end of the text.
    fn read<S: Shelf>(&mut self, shelf: &mut S) -> Result<usize, ReadFault>
        requires begun { (S.seen shelf.old).begun ≡ true }
        requires few { length self.old ≤ longest_line }
        ensures ok { IfOk result (Brings self.old (S.seen shelf.old) self.new (S.seen shelf.new)) }
        ensures small { IfOk result (λ k. k ≤ longest_read) }
        ensures held { length self.new ≤ most_held }
        ensures kept { OnErr result (self.new ≡ self.old) }
        ensures left { OnErr result ((S.seen shelf.new).left ≡ (S.seen shelf.old).left) }
        ensures unread { result ≡ Err ReadFault.NoMemory → shelf.new ≡ shelf.old }
        ensures rose { result ≡ Err ReadFault.Failed
            → CountRose (S.seen shelf.old) (S.seen shelf.new) }
        ensures quiet { (S.seen shelf.old).quiet ≡ true → IsOk result
            → CountStays (S.seen shelf.old) (S.seen shelf.new) }
        ensures surely { (S.seen shelf.old).sure ≡ true → result ≡ Err ReadFault.Failed → ⊥ }
        ensures shelf { OnlyRead (S.seen shelf.old) (S.seen shelf.new) }
    {
        self.bytes.drain(..self.start);
        self.start = 0;
        read_piece(shelf, &mut self.bytes)
    }

    /// Reads until a line end is there, or more bytes than `most`, or the text is at its end.
    pub fn scan<S: Shelf>(&mut self, shelf: &mut S, most: usize) -> Result<LineScan, ReadFault>
        requires begun { (S.seen shelf.old).begun ≡ true }
        requires most { most ≤ longest_line }
        requires held { length self.old ≤ most_held }
        ensures scan { IfOk result (IsScanOf self.new most (S.seen shelf.new).left) }
        ensures unread { LosesNothing self.old (S.seen shelf.old) self.new (S.seen shelf.new) }
        ensures held { length self.new ≤ most_held }
        ensures unended { OnErr result (HasNoLineEnd self.new) }
        ensures few { OnErr result (length self.new ≤ most) }
        ensures rose { result ≡ Err ReadFault.Failed
            → CountRose (S.seen shelf.old) (S.seen shelf.new) }
        ensures quiet { (S.seen shelf.old).quiet ≡ true → result ≢ Err ReadFault.Failed
            → CountStays (S.seen shelf.old) (S.seen shelf.new) }
        ensures surely { (S.seen shelf.old).sure ≡ true → result ≡ Err ReadFault.Failed → ⊥ }
        ensures holds { IsSome (position is_line_end self.old) → shelf.new ≡ shelf.old }
        ensures near { IsWithinARead most self.old (S.seen shelf.old).left (S.seen shelf.new).left }
        ensures shelf { OnlyRead (S.seen shelf.old) (S.seen shelf.new) }
    {
        loop {
            if let Some(at) = self.find() {
                return Ok(LineScan::Ended(at));
            }
            if self.len() > most {
                return Ok(LineScan::Past);
            }
            if self.read(shelf)? == 0 {
                return Ok(LineScan::Last);
            }
        }
    }

    /// Takes the line of so many bytes and its end off the front, into `line`. The line loses one CR at its end.
    pub fn cut_line(&mut self, at: usize, line: &mut Items<u8>) -> Result<(), NoMemory>
        requires { position is_line_end self.old ≡ Some at }
        ensures line { OnOk result (line.new ≡ strip_carriage_return (take at self.old)) }
        ensures rest { OnOk result (self.new ≡ drop (at + 1) self.old) }
        ensures err { OnErr result (self.new ≡ self.old) }
    {
        let pending = &self.bytes[self.start..];
        line.refill(stripped(&pending[..at]))?;
        self.start += at + 1;
        self.searched = 0;
        Ok(())
    }

    /// Takes all the bytes, into `line`.
    pub fn cut_all(&mut self, line: &mut Items<u8>) -> Result<(), NoMemory>
        ensures line { OnOk result (line.new ≡ self.old) }
        ensures rest { OnOk result (self.new ≡ []) }
        ensures err { OnErr result (self.new ≡ self.old) }
    {
        line.refill(&self.bytes[self.start..])?;
        self.bytes.clear();
        self.start = 0;
        self.searched = 0;
        Ok(())
    }
}

/// How many bytes stand before the first line end, where the first `searched` have none.
fn find_end(bytes: &[u8], searched: usize) -> Option<usize>
    requires { searched ≤ position_or_len is_line_end bytes.now }
    ensures { result ≡ position is_line_end bytes.now }
{
    let found = first_end(&bytes[searched..])?;
    Some(searched + found)
}

/// How many bytes stand before the first line end.
fn first_end(bytes: &[u8]) -> Option<usize>
    ensures { result ≡ position is_line_end bytes.now }
{
    bytes.iter().position(|b| *b == b'\n')
}

/// The bytes without one CR at their end.
fn stripped(bytes: &[u8]) -> &[u8]
    ensures { result.now ≡ strip_carriage_return bytes.now }
{
    let n = bytes.len();
    if n > 0 && bytes[n - 1] == b'\r' {
        &bytes[..n - 1]
    } else {
        bytes
    }
}

/// Reads once to the end of the bytes, and answers how many came: 0 only at the end of the text. Memory is taken before the read,
/// so that no byte of the text is lost.
pub fn read_piece<S: Shelf>(shelf: &mut S, bytes: &mut Vec<u8>) -> Result<usize, ReadFault>
    requires { (S.seen shelf.old).begun ≡ true }
    ensures ok { IfOk result
        (Brings bytes.old.items (S.seen shelf.old) bytes.new.items (S.seen shelf.new)) }
    ensures small { IfOk result (λ k. k ≤ longest_read) }
    ensures kept { OnErr result (bytes.new.items ≡ bytes.old.items) }
    ensures left { OnErr result ((S.seen shelf.new).left ≡ (S.seen shelf.old).left) }
    ensures unread { result ≡ Err ReadFault.NoMemory → shelf.new ≡ shelf.old }
    ensures rose { result ≡ Err ReadFault.Failed → CountRose (S.seen shelf.old) (S.seen shelf.new) }
    ensures quiet { (S.seen shelf.old).quiet ≡ true → IsOk result
        → CountStays (S.seen shelf.old) (S.seen shelf.new) }
    ensures surely { (S.seen shelf.old).sure ≡ true → result ≡ Err ReadFault.Failed → ⊥ }
    ensures shelf { OnlyRead (S.seen shelf.old) (S.seen shelf.new) }
{
    let filled = bytes.len();
    if bytes.resize(filled + PIECE, 0).is_err() {
        return Err(ReadFault::NoMemory);
    }
    match shelf.read(&mut bytes[filled..]) {
        Ok(count) => {
            bytes.truncate(filled + count);
            Ok(count)
        }
        Err(Failed) => {
            bytes.truncate(filled);
            Err(ReadFault::Failed)
        }
    }
}
