ghost use Rattle.std.specs.Prelude.{◌≡◌, ℕ, ◌+◌, ◌<◌, ◌≤◌, ◌^◌, ◌++◌, ◌∷◌, [], List, Bool, true, false, IsTrue, length, take, drop, min, slice_get, MatchOption, IfSome, is_some, Option, Some, None, OnOk, OnErr, IfOk, IsOk};
ghost use Rattle.ride_base.specs.Outside.{Absent, Rose, MovesInto, OnlyRead};
ghost use Rattle.ride_base.specs.Stored.{Store, Puts, ReadsText, BeginsText, RefusesText, store_seen, lists_none, empty_store, empty_basin, with_text, with_failing, with_failing_put, held_in, left_in, is_listed, holds_at, name_of};

use crate::items::{Items, NoMemory};
use crate::outside::{BeginFault, Failed, Shelf, Sink};
use std::alloc::Global;
use std::marker::Model;

/// A text, under its name.
#[derive(Debug, Drop)]
pub struct StoredText {
    pub name: Items<u8>,
    pub bytes: Items<u8>,
}

/// A call of a name that fails: 0 is its `begin`, and its reads are counted from 1.
#[derive(Debug, Drop)]
pub struct FailingCall {
    pub name: Items<u8>,
    pub call: u64,
}

/// How far the text that is begun was read.
#[derive(Clone, Copy, Debug)]
pub struct Progress {
    pub text: usize,
    pub at: usize,
    pub reads: u64,
}

/// A shelf over memory, which fails at listed calls and at a `begin` of a name that it doesn't hold.
#[derive(Drop)]
pub struct MemoryShelf {
    alloc: Global,
    texts: Items<StoredText>,
    failing: Items<FailingCall>,
    names: Items<Items<u8>>,
    most: usize,
    begun: Option<Progress>,
    faults: u64,
}

impl Model for MemoryShelf {
    ghost use Rattle.std.specs.Prelude.{◌<◌, length};
    ghost use Rattle.std.specs.Option.{ForSome};
    ghost use Rattle.ride_base.specs.Stored.{Store, shown};

    ghost Value = { Store };

    ghost view = { λ a. record {
      texts = a.texts;
      failing = a.failing;
      names = a.names;
      most = a.most;
      begun = shown a.texts a.begun;
      faults = a.faults;
    } };

    ghost invariant = { λ a. (0 < a.most) × ForSome a.begun (λ p. p.text < length a.texts) };
}

impl MemoryShelf {
    /// A shelf with no text, which is sure. It takes no memory.
    pub fn new(alloc: Global) -> MemoryShelf
        ensures { result ≡ empty_store }
    {
        MemoryShelf {
            alloc,
            texts: Items::new(alloc),
            failing: Items::new(alloc),
            names: Items::new(alloc),
            most: usize::MAX,
            begun: None,
            faults: 0,
        }
    }

    /// Puts a text under a name. It takes the place of an earlier one at the next `begin`, and a text that is begun goes on. After an
    /// error the shelf is as it was.
    pub fn put(&mut self, alloc: Global, name: &str, bytes: &[u8]) -> Result<(), NoMemory>
        ensures ok { OnOk result (self.new ≡ with_text self.old name.now bytes.now) }
        ensures err { OnErr result (self.new ≡ self.old) }
    {
        let name = Items::from_slice(alloc, name.as_bytes())?;
        let bytes = Items::from_slice(alloc, bytes)?;
        self.texts.push(StoredText { name, bytes })
    }

    /// Moves at most so many bytes by each read from now on, 1 or more.
    pub fn pieces(&mut self, most: usize)
        requires { 0 < most }
        ensures { self.new ≡ record self.old { most = most } }
    {
        self.most = most;
    }

    /// Lists a call of a name as failing: 0 is its `begin`, and its reads are counted from 1 at each `begin`. After an error the shelf
    /// is as it was.
    pub fn fail(&mut self, alloc: Global, name: &str, call: u64) -> Result<(), NoMemory>
        ensures ok { OnOk result (self.new ≡ with_failing self.old name.now call) }
        ensures err { OnErr result (self.new ≡ self.old) }
    {
        let name = Items::from_slice(alloc, name.as_bytes())?;
        self.failing.push(FailingCall { name, call })
    }
}

impl Shelf for MemoryShelf {
    ghost use Rattle.ride_base.specs.Stored.{store_seen};

    ghost seen = { store_seen };

    fn begin(&mut self, name: &str) -> Result<(), BeginFault>
        ensures begun { OnOk result (BeginsText self.old name.now self.new) }
        ensures refused { result ≡ Err BeginFault.Failed → RefusesText self.old name.now self.new }
        ensures unmade { result ≡ Err BeginFault.NoMemory → self.new ≡ self.old }
        ensures counted { self.old.faults ≤ self.new.faults }
        ensures rose { result ≡ Err BeginFault.Failed → Rose self.old.faults self.new.faults }
        ensures surely { lists_none self.old.failing ≡ true → result ≡ Err BeginFault.Failed
            → held_in self.old.texts name.now ≡ Absent }
    {
        let name = name.as_bytes();
        let Ok(copy) = Items::from_slice(self.alloc, name) else {
            return Err(BeginFault::NoMemory);
        };
        if self.names.push(copy).is_err() {
            return Err(BeginFault::NoMemory);
        }
        let fails = lists(self.failing.as_slice(), name, 0);
        match last_of(self.texts.as_slice(), name) {
            Some(text) if !fails => {
                self.begun = Some(Progress {
                    text,
                    at: 0,
                    reads: 0,
                });
                Ok(())
            }
            _ => {
                self.begun = None;
                self.faults = self.faults.saturating_add(1);
                Err(BeginFault::Failed)
            }
        }
    }

    fn read(&mut self, piece: &mut [u8]) -> Result<usize, Failed>
        requires begun { is_some self.old.begun ≡ true }
        requires room { 0 < length piece.old }
        ensures exact { ReadsText self.old self.new piece.old piece.new result }
        ensures shelf { OnlyRead (store_seen self.old) (store_seen self.new) }
        ensures ok { IfOk result
            (MovesInto (store_seen self.old) (store_seen self.new) piece.old piece.new) }
        ensures err { OnErr result (left_in self.new ≡ left_in self.old) }
        ensures rose { OnErr result (Rose self.old.faults self.new.faults) }
        ensures quiet { OnOk result (self.new.faults ≡ self.old.faults) }
        ensures surely { lists_none self.old.failing ≡ true → IsOk result }
    {
        let Some(place) = self.begun else {
            return Ok(0);
        };
        let text = &self.texts.as_slice()[place.text];
        let reads = place.reads.saturating_add(1);
        if lists(self.failing.as_slice(), text.name.as_slice(), reads) {
            self.begun = Some(Progress { reads, ..place });
            self.faults = self.faults.saturating_add(1);
            return Err(Failed);
        }
        let count = pour(text.bytes.as_slice(), place.at, self.most, piece);
        self.begun = Some(Progress {
            at: place.at + count,
            reads,
            ..place
        });
        Ok(count)
    }
}

/// Whether a call of a name is listed.
fn lists(failing: &[FailingCall], name: &[u8], call: u64) -> bool
    ensures { result ≡ is_listed failing.now name.now call }
{
    for listed in failing {
        if listed.call == call && listed.name.as_slice() == name {
            return true;
        }
    }
    false
}

/// The place of the last text of a name.
fn last_of(texts: &[StoredText], name: &[u8]) -> Option<usize>
    ensures text { holds_at texts.now result ≡ held_in texts.now name.now }
    ensures within { IfSome result (λ i. i < length texts.now) }
    ensures named { IfSome result (λ i. name_of (slice_get texts.now i) ≡ name.now) }
{
    let mut last = None;
    for (i, text) in texts.iter().enumerate() {
        if text.name.as_slice() == name {
            last = Some(i);
        }
    }
    last
}

/// Copies what lies behind a place, as far as it goes, fits the piece and is at most so much.
fn pour(bytes: &[u8], at: usize, most: usize, piece: &mut [u8]) -> usize
    ensures count { result ≡ min (min (length piece.old) most) (length (drop at bytes.now)) }
    ensures moved { piece.new ≡ take result (drop at bytes.now) ++ drop result piece.old }
{
    if bytes.len() <= at {
        return 0;
    }
    let rest = &bytes[at..];
    let count = piece.len().min(most).min(rest.len());
    piece[..count].copy_from_slice(&rest[..count]);
    count
}

/// A sink over memory, which fails at listed calls and where it has no room left.
#[derive(Drop)]
pub struct MemorySink {
    taken: Vec<u8>,
    room: usize,
    failing: Items<u64>,
    puts: u64,
    faults: u64,
}

impl Model for MemorySink {
    ghost use Rattle.std.specs.Prelude.{◌≤◌, vec_capacity, length};
    ghost use Rattle.ride_base.specs.Stored.{Basin};

    ghost Value = { Basin };

    ghost view = { λ a. record {
      taken = a.taken.items;
      room = a.room;
      failing = a.failing;
      puts = a.puts;
      faults = a.faults;
    } };

    ghost invariant = { λ a. a.room ≤ vec_capacity a.taken };
}

impl MemorySink {
    /// A sink with room for so many bytes, which it takes at once. After an error there is none.
    pub fn new(alloc: Global, room: usize) -> Result<MemorySink, NoMemory>
        ensures { IfOk result (λ s. s ≡ empty_basin room) }
    {
        let mut taken = Vec::new(alloc);
        taken.try_reserve(room)?;
        Ok(MemorySink {
            taken,
            room,
            failing: Items::new(alloc),
            puts: 0,
            faults: 0,
        })
    }

    /// The bytes taken so far.
    pub fn taken(&self) -> &[u8]
        ensures { result.now ≡ self.now.taken }
    {
        self.taken.as_slice()
    }

    /// Lists a put as failing, counted from 1. After an error the sink is as it was.
    pub fn fail(&mut self, alloc: Global, call: u64) -> Result<(), NoMemory>
        ensures ok { OnOk result (self.new ≡ with_failing_put self.old call) }
        ensures err { OnErr result (self.new ≡ self.old) }
    {
        self.failing.push(call)
    }
}

impl Sink for MemorySink {
    ghost use Rattle.ride_base.specs.Stored.{basin_seen};

    ghost seen = { basin_seen };

    fn put(&mut self, piece: &[u8]) -> Result<usize, Failed>
        requires { 0 < length piece.now }
        ensures exact { Puts self.old self.new piece.now result }
        ensures counted { self.old.faults ≤ self.new.faults }
        ensures rose { OnErr result (Rose self.old.faults self.new.faults) }
        ensures quiet { IsOk result → self.new.faults ≡ self.old.faults }
    {
        self.puts = self.puts.saturating_add(1);
        let left = self.room.saturating_sub(self.taken.len());
        if self.failing.as_slice().contains(&self.puts) || left == 0 {
            self.faults = self.faults.saturating_add(1);
            return Err(Failed);
        }
        let count = left.min(piece.len());
        if self.taken.extend_from_slice(&piece[..count]).is_err() {
            unreachable!();
        }
        Ok(count)
    }
}
