ghost use Rattle.std.specs.Prelude.{◌≡◌, ◌≢◌, ◌≤◌, ◌+◌, true, false, cond, IsOk, IfOk, IfErr, OnErr, None, Ok, Err, length};
ghost use Rattle.ride_base.specs.Outside.{CountRose, CountStays, OnlyRead};
ghost use Rattle.ride_base.specs.Reader.{most_held};
ghost use Rattle.journal_text.specs.Drafts.{Takes};
ghost use Rattle.journal_text.specs.Readers.{new_groups, moment, MayReadAny, TellsNext, CountsNext, StaysReading, StaysBad, StaysAtEnd, bad_after};
ghost use Rattle.journal_text.specs.Readers.{held_at, StaysAhead, LeavesBehind, bytes_left, FillsAtEnd, IsForm, IsDraftHeld, taken_line, taken_behind, begun};
ghost use Rattle.journal_text.specs.Readers.{IsUntaken, is_over_with, group_of_held};

use crate::draft::Draft;
use crate::groups::Group;
use crate::heads::head_of;
use ride_base::{Line, LineFault, Lines, NoMemory, Shelf};
use std::alloc::Global;
use std::marker::Model;
use std::mem;
use thiserror::Error;

/// Why there is no further group.
#[derive(Clone, Copy, Debug, PartialEq, Eq, Error)]
pub enum GroupFault {
    /// This line is the first bad one. A line that is too long is bad, and so is the place where the text is too large. Each further
    /// call answers the same.
    #[error("line {line} is no line of a group")]
    Form { line: u64 },
    /// The shelf failed, and its count of faults rose. The next call begins the same group again.
    #[error("the journal can't be read")]
    Fault,
    /// There was no memory for the group. No line is lost, and the next call begins the same group again.
    #[error("out of memory")]
    NoMemory,
}

impl From<NoMemory> for GroupFault {
    ghost use Rattle.std.specs.Prelude.{◌≡◌};
    ghost use Rattle.journal_text.specs.declared.reader.GroupFault.TheVariants.{NoMemory};

    ghost from_gives = { λ _ e. e ≡ NoMemory };

    fn from(_: NoMemory) -> GroupFault {
        GroupFault::NoMemory
    }
}

/// What stands behind the lines that a group took.
#[derive(Clone, Copy)]
enum Behind {
    /// The line that is held.
    Next,
    /// The end of the text.
    End,
    /// A line that is too long, or the place where the text is too large.
    Refused,
}

/// What was read and is in no group yet: the lines of a group as far as they were taken, and the line behind them.
#[derive(Drop)]
struct Held {
    draft: Option<Draft>,
    line: Line,
    has_line: bool,
}

impl Held {
    /// Reads the line behind those that were taken, where none is held.
    fn fill<S: Shelf>(&mut self, lines: &mut Lines, shelf: &mut S) -> Result<Behind, GroupFault>
        requires { (S.seen shelf.old).begun ≡ true }
        ensures draft { self.new.draft ≡ self.old.draft }
        ensures stays { StaysAhead (held_at self.old lines.old (S.seen shelf.old))
            (held_at self.new lines.new (S.seen shelf.new)) }
        ensures behind { IfOk result (λ b. LeavesBehind
            (held_at self.old lines.old (S.seen shelf.old))
            b self.new lines.new (S.seen shelf.new)) }
        ensures shorter { self.old.has_line ≡ false
            → IfOk result (λ b. bytes_left b lines.new ≤ lines.old.room) }
        ensures ended { FillsAtEnd self.old lines.old shelf.old result
            self.new lines.new shelf.new }
        ensures formed { IfErr result (λ fault. IsForm fault → ⊥) }
        ensures rose { result ≡ Err GroupFault.Fault
            → CountRose (S.seen shelf.old) (S.seen shelf.new) }
        ensures quiet { (S.seen shelf.old).quiet ≡ true → result ≢ Err GroupFault.Fault
            → CountStays (S.seen shelf.old) (S.seen shelf.new) }
        ensures surely { (S.seen shelf.old).sure ≡ true → result ≡ Err GroupFault.Fault → ⊥ }
        ensures held { length lines.old.pending ≤ most_held
            → length lines.new.pending ≤ most_held }
        ensures shelf { OnlyRead (S.seen shelf.old) (S.seen shelf.new) }
    {
        if self.has_line {
            return Ok(Behind::Next);
        }
        match lines.read_line(shelf, &mut self.line) {
            Ok(true) => {
                self.has_line = true;
                Ok(Behind::Next)
            }
            Ok(false) => Ok(Behind::End),
            Err(LineFault::Long) => Ok(Behind::Refused),
            Err(LineFault::Large) => Ok(Behind::Refused),
            Err(LineFault::Fault) => Err(GroupFault::Fault),
            Err(LineFault::NoMemory) => Err(GroupFault::NoMemory),
        }
    }

    /// Takes the line that stands behind those that were taken, and has that number, into the group, and answers whether it goes on
    /// with it, or begins one. Where it doesn't, where no line is there, and at want of memory, nothing changes.
    fn take(&mut self, alloc: Global, behind: Behind, number: u64) -> Result<bool, NoMemory>
        requires { IsDraftHeld self.old }
        ensures ok { IfOk result
            (λ taken. Takes (taken_behind behind self.old number) self.old taken self.new) }
        ensures err { OnErr result (self.new ≡ self.old) }
        ensures next { OnErr result (behind ≡ Behind.Next) }
    {
        match behind {
            Behind::Next => self.take_line(alloc, number),
            Behind::End => Ok(false),
            Behind::Refused => Ok(false),
        }
    }

    /// The same of the line that is held.
    fn take_line(&mut self, alloc: Global, number: u64) -> Result<bool, NoMemory>
        requires { IsDraftHeld self.old }
        ensures ok { IfOk result
            (λ taken. Takes (taken_line self.old number) self.old taken self.new) }
        ensures err { OnErr result (self.new ≡ self.old) }
    {
        let taken = match &mut self.draft {
            Some(draft) => draft.add(alloc, self.line.bytes.as_slice())?,
            None => self.begin(alloc, number),
        };
        if taken {
            self.has_line = false;
        }
        Ok(taken)
    }

    /// Begins a group with the line that is held, which has that number, and answers whether it is the first line of one.
    fn begin(&mut self, alloc: Global, number: u64) -> bool
        requires { self.old.draft ≡ None }
        ensures { Takes (begun self.old number) self.old result self.new }
    {
        match head_of(self.line.bytes.as_slice()) {
            Some(head) => {
                self.draft = Some(Draft::new(alloc, number, head));
                true
            }
            None => false,
        }
    }

    /// Takes lines as long as they belong to the group, and answers what stands behind them.
    fn read<S: Shelf>(
        &mut self,
        alloc: Global,
        lines: &mut Lines,
        shelf: &mut S,
    ) -> Result<Behind, GroupFault>
        requires begun { (S.seen shelf.old).begun ≡ true }
        requires drafted { IsDraftHeld self.old }
        ensures drafted { IsDraftHeld self.new }
        ensures stays { StaysAhead (held_at self.old lines.old (S.seen shelf.old))
            (held_at self.new lines.new (S.seen shelf.new)) }
        ensures behind { IfOk result (λ b. LeavesBehind
            (held_at self.old lines.old (S.seen shelf.old))
            b self.new lines.new (S.seen shelf.new)) }
        ensures untaken { IfOk result (λ b. IsUntaken b self.new lines.new.given) }
        ensures ended { FillsAtEnd self.old lines.old shelf.old result
            self.new lines.new shelf.new }
        ensures formed { IfErr result (λ fault. IsForm fault → ⊥) }
        ensures rose { result ≡ Err GroupFault.Fault
            → CountRose (S.seen shelf.old) (S.seen shelf.new) }
        ensures quiet { (S.seen shelf.old).quiet ≡ true → result ≢ Err GroupFault.Fault
            → CountStays (S.seen shelf.old) (S.seen shelf.new) }
        ensures surely { (S.seen shelf.old).sure ≡ true → result ≡ Err GroupFault.Fault → ⊥ }
        ensures held { length lines.old.pending ≤ most_held
            → length lines.new.pending ≤ most_held }
        ensures shelf { OnlyRead (S.seen shelf.old) (S.seen shelf.new) }
    {
        let mut behind = self.fill(lines, shelf)?;
        'lines: while self.take(alloc, behind, lines.given())? {
            behind = self.fill(lines, shelf)?;
        }
        Ok(behind)
    }

    /// Whether what was taken is a whole group to which what stands behind it belongs no more, or nothing was taken and the text is
    /// at its end.
    fn is_over(&self, behind: Behind) -> bool
        requires { IsDraftHeld self.now }
        ensures { result ≡
            is_over_with self.now.draft self.now.has_line self.now.line.bytes behind }
    {
        match &self.draft {
            Some(draft) => {
                draft.is_whole() && !(self.has_line && draft.goes_on(self.line.bytes.as_slice()))
            }
            None => matches!(behind, Behind::End),
        }
    }

    /// The group that was taken, where one was begun, which is then held no more.
    fn cut(&mut self, alloc: Global) -> Option<Group>
        ensures group { result ≡ group_of_held self.old.draft }
        ensures rest { self.new ≡ record self.old { draft = None } }
    {
        match mem::replace(&mut self.draft, None) {
            Some(draft) => Some(draft.into_group(alloc)),
            None => None,
        }
    }
}

/// The groups of a journal, read from the lines of a text. It holds the lines of one group, and the line behind them.
#[derive(Drop)]
pub struct Groups {
    held: Held,
    bad: Option<u64>,
}

impl Model for Groups {
    ghost use Rattle.journal_text.specs.Readers.{GroupReader, reader_of, IsDraftHeld};

    ghost Value = { GroupReader };

    ghost view = { λ a. reader_of a.held a.bad };

    ghost invariant = { λ a. IsDraftHeld a.held };
}

impl Groups {
    /// A reader of groups that has read nothing. It takes no memory.
    pub fn new(alloc: Global) -> Groups
        ensures fresh { result ≡ new_groups }
        ensures reads { MayReadAny result }
    {
        Groups {
            held: Held {
                draft: None,
                line: Line::new(alloc),
                has_line: false,
            },
            bad: None,
        }
    }

    /// The next group. It is given exactly where the next lines are those of a group in form and the line behind them doesn't belong
    /// to it, and None comes exactly at the end of the text. At a fault and at want of memory no line is lost: the next call begins
    /// the same group again. A group is whole only where the line behind it was read, or the end; that line is held for the next
    /// call. `lines` is the same at each call.
    pub fn next<S: Shelf>(
        &mut self,
        alloc: Global,
        lines: &mut Lines,
        shelf: &mut S,
    ) -> Result<Option<Group>, GroupFault>
        requires { (S.seen shelf.old).begun ≡ true }
        ensures tells { TellsNext (moment self.old lines.old (S.seen shelf.old)) result
            (moment self.new lines.new (S.seen shelf.new)) }
        ensures counts { CountsNext (moment self.old lines.old (S.seen shelf.old)) result
            (moment self.new lines.new (S.seen shelf.new)) }
        ensures reads { StaysReading (moment self.old lines.old (S.seen shelf.old))
            (moment self.new lines.new (S.seen shelf.new)) }
        ensures stops { self.new.bad ≡ bad_after result }
        ensures again { StaysBad self.old lines.old shelf.old result
            self.new lines.new shelf.new }
        ensures ended { StaysAtEnd self.old lines.old shelf.old result
            self.new lines.new shelf.new }
        ensures few { IsOk result → length self.new.held ≤ 1 }
        ensures rose { result ≡ Err GroupFault.Fault
            → CountRose (S.seen shelf.old) (S.seen shelf.new) }
        ensures quiet { (S.seen shelf.old).quiet ≡ true → result ≢ Err GroupFault.Fault
            → CountStays (S.seen shelf.old) (S.seen shelf.new) }
        ensures surely { (S.seen shelf.old).sure ≡ true → result ≡ Err GroupFault.Fault → ⊥ }
        ensures held { length lines.old.pending ≤ most_held
            → length lines.new.pending ≤ most_held }
        ensures shelf { OnlyRead (S.seen shelf.old) (S.seen shelf.new) }
    {
        if let Some(line) = self.bad {
            return Err(GroupFault::Form { line });
        }
        let behind = self.held.read(alloc, lines, shelf)?;
        if self.held.is_over(behind) {
            return Ok(self.held.cut(alloc));
        }
        let line = bad_number(self.held.has_line, lines);
        self.bad = Some(line);
        Err(GroupFault::Form { line })
    }
}

/// The number of the line that is held, which is the last one given, or of the one behind those given.
fn bad_number(has_line: bool, lines: &Lines) -> u64
    ensures { result ≡ cond has_line lines.now.given (lines.now.given + 1) }
{
    if has_line {
        lines.given()
    } else {
        lines.given() + 1
    }
}
