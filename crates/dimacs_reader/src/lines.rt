ghost use Rattle.std.specs.Prelude.{◌≡◌, ◌≢◌, ℕ, ◌+◌, true, List, Some, None, IsOk, Ok, Err};
ghost use Rattle.ride_base.specs.Outside.{CountRose, CountStays, OnlyRead};
ghost use Rattle.ride_base.specs.Pieces.{largest_text};
ghost use Rattle.ride_base.specs.Reader.{new_reader};
ghost use Rattle.dimacs_reader.specs.Calls.{GivesNext, HasReadNoMore, ReadsNear, RefusesNext, StaysBehind, StaysReadFrom};
ghost use Rattle.dimacs_reader.specs.Reading.{CountsLine, fault_at as fault_of};
ghost use Rattle.dimacs_reader.specs.Refusals.{IsReadFrom};

use crate::faults::GraphFault;
use ride_base::{LARGEST_TEXT, Line, LineFault, Lines, Shelf};
use std::alloc::Global;
use std::marker::Model;

/// The lines of the text that is begun on a shelf, with faults that name the line.
#[derive(Drop)]
pub struct CountedLines {
    lines: Lines,
}

impl Model for CountedLines {
    ghost use Rattle.ride_base.specs.Reader.{Reader};

    ghost Value = { Reader };

    ghost view = { λ a. a.lines };
}

impl CountedLines {
    /// The lines of a text that may have 2^30 bytes. It takes no memory.
    pub fn new(alloc: Global) -> CountedLines
        ensures fresh { result ≡ new_reader largest_text }
        ensures none { (text : List ℕ) → IsReadFrom text result (Some text) }
    {
        CountedLines {
            lines: Lines::new(alloc, LARGEST_TEXT),
        }
    }

    /// The number of the line behind those that were given.
    pub fn next_number(&self) -> u64
        ensures { result ≡ self.now.given + 1 }
    {
        self.lines.given() + 1
    }

    /// Reads the next line into `line`, and answers whether there was one. There is none exactly at the end of the text; nothing is
    /// said of what `line` then is, nor after an error.
    pub fn read_line<S: Shelf>(
        &mut self,
        shelf: &mut S,
        line: &mut Line,
    ) -> Result<bool, GraphFault>
        requires begun { (S.seen shelf.old).begun ≡ true }
        requires unstopped { self.old.stopped ≡ None }
        ensures gives { GivesNext self.old (S.seen shelf.old) result line.new
            self.new (S.seen shelf.new) }
        ensures counts { CountsLine self.old result line.new self.new }
        ensures goes { IsOk result
            → StaysReadFrom self.old (S.seen shelf.old) self.new (S.seen shelf.new) }
        ensures unread { result ≡ Err GraphFault.Fault
            → HasReadNoMore self.old (S.seen shelf.old) (S.seen shelf.new) }
        ensures numbered { RefusesNext self.old result }
        ensures near { ReadsNear self.old (S.seen shelf.old) (S.seen shelf.new) }
        ensures wanted { result ≡ Err GraphFault.NoMemory
            → StaysBehind self.old (S.seen shelf.old) (S.seen shelf.new) }
        ensures unstopped { IsOk result → self.new.stopped ≡ None }
        ensures fault { result ≡ Err GraphFault.Fault
            → CountRose (S.seen shelf.old) (S.seen shelf.new) }
        ensures quiet { (S.seen shelf.old).quiet ≡ true → result ≢ Err GraphFault.Fault
            → CountStays (S.seen shelf.old) (S.seen shelf.new) }
        ensures surely { (S.seen shelf.old).sure ≡ true → result ≡ Err GraphFault.Fault → ⊥ }
        ensures shelf { OnlyRead (S.seen shelf.old) (S.seen shelf.new) }
    {
        match self.lines.read_line(shelf, line) {
            Ok(read) => Ok(read),
            Err(fault) => Err(fault_at(self.next_number(), fault)),
        }
    }
}

/// Why no line with that number is given.
fn fault_at(line: u64, fault: LineFault) -> GraphFault
    ensures { result ≡ fault_of line fault }
{
    match fault {
        LineFault::Fault => GraphFault::Fault,
        LineFault::Long | LineFault::Large => GraphFault::Limit { line },
        LineFault::NoMemory => GraphFault::NoMemory,
    }
}
