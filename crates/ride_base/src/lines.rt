ghost use Rattle.std.specs.Prelude.{◌≡◌, ◌≢◌, ℕ, ◌<◌, ◌≤◌, ◌+◌, List, [], true, false, Ok, length, min, cond, position, Option, Some, None, IfSome, IsSome, Err};
ghost use Rattle.ride_base.specs.Outside.{CountRose, CountStays, OnlyRead};
ghost use Rattle.ride_base.specs.Pieces.{is_line_end, largest_text, longest_line};
ghost use Rattle.ride_base.specs.Reader.{HasNoLineEnd, most_held, most_line, new_reader};
ghost use Rattle.ride_base.specs.Buffers.{limit_at as limit_of, limit_past as past_limit};
ghost use Rattle.ride_base.specs.Limits.{shown_limit};
ghost use Rattle.ride_base.specs.Reading.{Counts, GivesOneMore, IsNear, ShowsNoLimit, SpendsNext, SpendsStill, StaysOver, StaysStopped, TellsAtEnd, TellsNext, TellsStill, fault_of, limit_after, line_read, over_after};
ghost use Rattle.ride_base.specs.Prefixes.{AreGiven, HasReadGiven};

use crate::buffer::{Buffer, LineScan, ReadFault};
use crate::items::{Items, NoMemory};
use crate::outside::Shelf;
use std::alloc::Global;
use std::marker::Model;
use thiserror::Error;

/// The most bytes that a line may have before its line end, a CR among them.
const LONGEST_LINE: u64 = 65536;

/// The most bytes that a text of lines may have, 2^30.
pub const LARGEST_TEXT: u64 = 1 << 30;

/// A line of a text, where it stands in it.
#[derive(Debug, PartialEq, Eq, Drop)]
pub struct Line {
    /// Its number, from 1; 0 where no line was read into it yet.
    pub number: u64,
    /// Its bytes, at most 65,536, without its LF and one CR before it.
    pub bytes: Items<u8>,
    /// Whether an LF stood behind it: only the last line of a text may have none, and then keeps its CR.
    pub ended: bool,
}

impl Line {
    /// A line to be read into. It has the number 0 and no bytes, and takes no memory.
    pub fn new(alloc: Global) -> Line
        ensures { result ≡ record { number = 0; bytes = []; ended = false } }
    {
        Line {
            number: 0,
            bytes: Items::new(alloc),
            ended: false,
        }
    }
}

/// Why there is no further line, or no text.
#[derive(Clone, Copy, Debug, PartialEq, Eq, Error)]
pub enum LineFault {
    /// The shelf failed, and its count of faults rose. The next call goes on.
    #[error("the text can't be read")]
    Fault,
    /// More than 65,536 bytes stand before a line end. Each further call answers the same.
    #[error("a line is longer than 65536 bytes")]
    Long,
    /// The text has more bytes than it may have. Each further call answers the same.
    #[error("the text is too large")]
    Large,
    /// There was no memory for the next line, or to read it. No byte is lost, and the next call goes on.
    #[error("out of memory")]
    NoMemory,
}

impl From<NoMemory> for LineFault {
    ghost use Rattle.std.specs.Prelude.{◌≡◌};
    ghost use Rattle.ride_base.specs.declared.lines.LineFault.TheVariants.{NoMemory};

    ghost from_gives = { λ _ e. e ≡ NoMemory };

    fn from(_: NoMemory) -> LineFault {
        LineFault::NoMemory
    }
}

impl From<ReadFault> for LineFault {
    ghost use Rattle.std.specs.Prelude.{◌≡◌};
    ghost use Rattle.ride_base.specs.Reading.{fault_of_read};

    ghost from_gives = { λ r e. e ≡ fault_of_read r };

    fn from(fault: ReadFault) -> LineFault {
        match fault {
            ReadFault::Failed => LineFault::Fault,
            ReadFault::NoMemory => LineFault::NoMemory,
        }
    }
}

/// A limit that a text met, and at which it is refused.
#[derive(Clone, Copy, Debug)]
pub enum Limit {
    Long,
    Large,
}

impl Limit {
    fn fault(self) -> LineFault
        ensures { IfSome (shown_limit (Some self)) (λ limit. result ≡ fault_of limit) }
    {
        match self {
            Limit::Long => LineFault::Long,
            Limit::Large => LineFault::Large,
        }
    }
}

/// The lines of the text that is begun on a shelf. A reader is of one text: once it was at its end, it reads no other that is begun
/// then.
#[derive(Drop)]
pub struct Lines {
    pending: Buffer,
    given: u64,
    room: u64,
    stopped: Option<Limit>,
    over: bool,
}

impl Model for Lines {
    ghost use Rattle.std.specs.Prelude.{◌+◌, ◌≤◌, length};
    ghost use Rattle.ride_base.specs.Pieces.{largest_text};
    ghost use Rattle.ride_base.specs.Reader.{Reader, most_held};
    ghost use Rattle.ride_base.specs.Limits.{shown_limit};

    ghost Value = { Reader };

    ghost view = { λ a. record {
      pending = a.pending;
      given = a.given;
      room = a.room;
      stopped = shown_limit a.stopped;
      over = a.over;
    } };

    ghost invariant = { λ a. (a.given + a.room ≤ largest_text) × (length a.pending ≤ most_held) };
}

impl Lines {
    /// The lines of a text that may have so many bytes. It takes no memory.
    pub fn new(alloc: Global, limit: u64) -> Lines
        requires { limit ≤ largest_text }
        ensures fresh { result ≡ new_reader limit }
        ensures none { (text : List ℕ) → AreGiven limit text [] result (Some text) }
    {
        Lines {
            pending: Buffer::new(alloc),
            given: 0,
            room: limit,
            stopped: None,
            over: false,
        }
    }

    /// How many lines were given.
    pub fn given(&self) -> u64
        ensures given { result ≡ self.now.given }
        ensures few { result + self.now.room ≤ largest_text }
    {
        self.given
    }

    /// The next line, without its LF and one CR before it; a last line without LF counts if it has a byte, and keeps its CR. None
    /// comes exactly at the end of the text. It reads only while it holds no whole line,
    /// and no more once it was at the end of the text.
    pub fn next<S: Shelf>(
        &mut self,
        alloc: Global,
        shelf: &mut S,
    ) -> Result<Option<Line>, LineFault>
        requires { (S.seen shelf.old).begun ≡ true }
        ensures tells { TellsNext self.old (S.seen shelf.old) result self.new (S.seen shelf.new) }
        ensures spends { SpendsNext self.old (S.seen shelf.old) self.new (S.seen shelf.new) }
        ensures counts { Counts self.old result self.new }
        ensures stops { self.new.stopped ≡ limit_after result }
        ensures over { self.new.over ≡ over_after self.old.over result }
        ensures ended { StaysOver None self.old shelf.old result self.new shelf.new }
        ensures again { StaysStopped self.old shelf.old result self.new shelf.new }
        ensures goes { GivesOneMore self.old (S.seen shelf.old) result self.new (S.seen shelf.new) }
        ensures failed { result ≡ Err LineFault.Fault
            → HasReadGiven self.old (S.seen shelf.old) (S.seen shelf.new) }
        ensures rose { result ≡ Err LineFault.Fault
            → CountRose (S.seen shelf.old) (S.seen shelf.new) }
        ensures quiet { (S.seen shelf.old).quiet ≡ true → result ≢ Err LineFault.Fault
            → CountStays (S.seen shelf.old) (S.seen shelf.new) }
        ensures unended { result ≡ Err LineFault.Fault → HasNoLineEnd self.new.pending }
        ensures few { result ≡ Err LineFault.Fault → length self.new.pending ≤ most_line self.old }
        ensures wanted { result ≡ Err LineFault.NoMemory → ShowsNoLimit self.new }
        ensures surely { (S.seen shelf.old).sure ≡ true → result ≡ Err LineFault.Fault → ⊥ }
        ensures holds { IsSome (position is_line_end self.old.pending) → shelf.new ≡ shelf.old }
        ensures near { IsNear self.old (S.seen shelf.old) (S.seen shelf.new) }
        ensures held { length self.new.pending ≤ most_held }
        ensures shelf { OnlyRead (S.seen shelf.old) (S.seen shelf.new) }
    {
        let mut line = Line::new(alloc);
        match self.read_line(shelf, &mut line) {
            Ok(true) => Ok(Some(line)),
            Ok(false) => Ok(None),
            Err(fault) => Err(fault),
        }
    }

    /// Reads the next line as `next` does, into a line that is there, and answers whether there was one. So a whole text is read in
    /// the memory of one line. Where no line was read, nothing is said of what `line` then is.
    pub fn read_line<S: Shelf>(&mut self, shelf: &mut S, line: &mut Line) -> Result<bool, LineFault>
        requires { (S.seen shelf.old).begun ≡ true }
        ensures tells { TellsNext self.old (S.seen shelf.old) (line_read result line.new)
            self.new (S.seen shelf.new) }
        ensures spends { SpendsNext self.old (S.seen shelf.old) self.new (S.seen shelf.new) }
        ensures counts { Counts self.old (line_read result line.new) self.new }
        ensures stops { self.new.stopped ≡ limit_after (line_read result line.new) }
        ensures over { self.new.over ≡ over_after self.old.over (line_read result line.new) }
        ensures ended { StaysOver false self.old shelf.old result self.new shelf.new }
        ensures again { StaysStopped self.old shelf.old result self.new shelf.new }
        ensures goes { GivesOneMore self.old (S.seen shelf.old) (line_read result line.new)
            self.new (S.seen shelf.new) }
        ensures failed { result ≡ Err LineFault.Fault
            → HasReadGiven self.old (S.seen shelf.old) (S.seen shelf.new) }
        ensures rose { result ≡ Err LineFault.Fault
            → CountRose (S.seen shelf.old) (S.seen shelf.new) }
        ensures quiet { (S.seen shelf.old).quiet ≡ true → result ≢ Err LineFault.Fault
            → CountStays (S.seen shelf.old) (S.seen shelf.new) }
        ensures unended { result ≡ Err LineFault.Fault → HasNoLineEnd self.new.pending }
        ensures few { result ≡ Err LineFault.Fault → length self.new.pending ≤ most_line self.old }
        ensures wanted { result ≡ Err LineFault.NoMemory → ShowsNoLimit self.new }
        ensures surely { (S.seen shelf.old).sure ≡ true → result ≡ Err LineFault.Fault → ⊥ }
        ensures holds { IsSome (position is_line_end self.old.pending) → shelf.new ≡ shelf.old }
        ensures near { IsNear self.old (S.seen shelf.old) (S.seen shelf.new) }
        ensures held { length self.new.pending ≤ most_held }
        ensures shelf { OnlyRead (S.seen shelf.old) (S.seen shelf.new) }
    {
        if let Some(limit) = self.stopped {
            return Err(limit.fault());
        }
        if self.over {
            return Ok(false);
        }
        let most = self.room.min(LONGEST_LINE) as usize;
        match self.pending.scan(shelf, most)? {
            LineScan::Ended(at) => self.ended_line(at, line),
            LineScan::Past => Err(self.stop_past()),
            LineScan::Last => self.last_line(line),
        }
    }

    /// Gives the line of so many bytes at the front of what was read, or stops there.
    fn ended_line(&mut self, at: usize, line: &mut Line) -> Result<bool, LineFault>
        requires at { position is_line_end self.old.pending ≡ Some at }
        requires stopped { self.old.stopped ≡ None }
        requires goes_on { self.old.over ≡ false }
        ensures tells { TellsStill self.old (line_read result line.new) self.new }
        ensures spends { SpendsStill self.old self.new }
        ensures counts { Counts self.old (line_read result line.new) self.new }
        ensures stops { self.new.stopped ≡ limit_after (line_read result line.new) }
        ensures over { self.new.over ≡ over_after false (line_read result line.new) }
        ensures held { length self.new.pending ≤ most_held }
        ensures fault { result ≡ Err LineFault.Fault → ⊥ }
        ensures wanted { result ≡ Err LineFault.NoMemory → ShowsNoLimit self.new }
    {
        if let Some(limit) = limit_at(at, true, self.room) {
            self.stopped = Some(limit);
            return Err(limit.fault());
        }
        self.pending.cut_line(at, &mut line.bytes)?;
        self.room -= at as u64 + 1;
        self.given += 1;
        line.number = self.given;
        line.ended = true;
        Ok(true)
    }

    /// Gives what was read as the last line, or stops there.
    fn last_line(&mut self, line: &mut Line) -> Result<bool, LineFault>
        requires unended { HasNoLineEnd self.old.pending }
        requires stopped { self.old.stopped ≡ None }
        requires goes_on { self.old.over ≡ false }
        ensures tells { TellsAtEnd self.old (line_read result line.new) self.new }
        ensures spends { SpendsStill self.old self.new }
        ensures counts { Counts self.old (line_read result line.new) self.new }
        ensures stops { self.new.stopped ≡ limit_after (line_read result line.new) }
        ensures over { self.new.over ≡ over_after false (line_read result line.new) }
        ensures held { length self.new.pending ≤ most_held }
        ensures fault { result ≡ Err LineFault.Fault → ⊥ }
        ensures wanted { result ≡ Err LineFault.NoMemory → ShowsNoLimit self.new }
    {
        let length = self.pending.len();
        if length == 0 {
            self.over = true;
            return Ok(false);
        }
        if let Some(limit) = limit_at(length, false, self.room) {
            self.stopped = Some(limit);
            return Err(limit.fault());
        }
        self.pending.cut_all(&mut line.bytes)?;
        self.room -= length as u64;
        self.given += 1;
        self.over = true;
        line.number = self.given;
        line.ended = false;
        Ok(true)
    }

    /// Stops where more was read than a line may have, and answers why.
    fn stop_past(&mut self) -> LineFault
        requires unended { HasNoLineEnd self.old.pending }
        requires past { most_line self.old < length self.old.pending }
        requires stopped { self.old.stopped ≡ None }
        requires goes_on { self.old.over ≡ false }
        ensures tells { TellsStill self.old (Err result) self.new }
        ensures spends { SpendsStill self.old self.new }
        ensures counts { Counts self.old (Err result) self.new }
        ensures stops { self.new.stopped ≡ limit_after (Err result) }
        ensures over { self.new.over ≡ false }
        ensures held { length self.new.pending ≤ most_held }
        ensures fault { result ≡ LineFault.Fault → ⊥ }
        ensures wanted { result ≡ LineFault.NoMemory → ⊥ }
    {
        let limit = limit_past(self.room);
        self.stopped = Some(limit);
        limit.fault()
    }
}

/// The limit that a text met where more bytes were read than a line or the text may have, none of which is a line end.
fn limit_past(room: u64) -> Limit
    ensures { shown_limit (Some result) ≡ Some (past_limit room) }
{
    if room < LONGEST_LINE {
        Limit::Large
    } else {
        Limit::Long
    }
}

/// The limit that a line of that length meets, with or without its end, where there is room for so many bytes.
fn limit_at(length: usize, ended: bool, room: u64) -> Option<Limit>
    ensures { shown_limit result ≡ limit_of length (length + cond ended 1 0) room }
{
    let length = length as u64;
    if length > LONGEST_LINE && room >= LONGEST_LINE {
        Some(Limit::Long)
    } else if length > room || ended && length == room {
        Some(Limit::Large)
    } else {
        None
    }
}
