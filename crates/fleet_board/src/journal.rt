//! What desks noted, with room that is kept.
ghost use Rattle.std.specs.Prelude.{◌≡◌, ℕ, ◌+◌, ◌-◌, ◌<◌, ◌≤◌, [], ◌∷◌, ◌++◌, drop, length, map, IfOk, OnErr, OnOk};
ghost use Rattle.fleet_board.specs.Journals.{pair_of};

use board_core::Entry;
use ride_base::NoMemory;
use std::alloc::Global;
use std::marker::Model;

/// An entry, with the number of the desk that noted it.
#[derive(Debug, PartialEq, Eq, Drop)]
pub struct Noted {
    /// The desk.
    pub desk: u64,
    /// The entry.
    pub entry: Entry,
}

/// All entries that were noted, in order, with room for those that are owed: each claim will be ended, and an open board shut.
#[derive(Debug, Drop)]
pub(crate) struct Journal {
    noted: Vec<Noted>,
    owed: usize,
}

impl Model for Journal {
    ghost use Rattle.std.specs.Prelude.{◌+◌, ◌-◌, ◌≤◌, map, vec_capacity, vec_len};
    ghost use Rattle.fleet_board.specs.Journals.{JournalState, pair_of};

    ghost Value = { JournalState };

    ghost view = { λ j. record {
      noted = map pair_of j.noted.items;
      owed = j.owed;
      room = vec_capacity j.noted - vec_len j.noted;
    } };

    ghost invariant = { λ j. vec_len j.noted + j.owed ≤ vec_capacity j.noted };
}

impl Journal {
    /// No entry, with room for the one that shuts the board.
    pub(crate) fn opened(alloc: Global) -> Result<Journal, NoMemory>
        ensures noted { IfOk result (λ journal. journal.noted ≡ []) }
        ensures owed { IfOk result (λ journal. journal.owed ≡ 1) }
    {
        Ok(Journal {
            noted: Vec::with_capacity(alloc, 1)?,
            owed: 1,
        })
    }

    /// How many entries there are.
    pub(crate) fn count(&self) -> u64
        ensures { result ≡ length self.now.noted }
    {
        self.noted.len() as u64
    }

    /// Makes room for so many entries, at most 2, beside those that are owed. After an error nothing has changed.
    pub(crate) fn reserve(&mut self, more: usize) -> Result<(), NoMemory>
        requires { more ≤ 2 }
        ensures noted { self.new.noted ≡ self.old.noted }
        ensures owed { self.new.owed ≡ self.old.owed }
        ensures room { OnOk result (self.old.owed + more ≤ self.new.room) }
    {
        self.noted.reserve(self.owed + more)
    }

    /// Notes an entry by which none is owed less or more.
    pub(crate) fn note(&mut self, desk: u64, entry: Entry)
        requires { self.old.owed < self.old.room }
        ensures noted { self.new.noted ≡ self.old.noted ++ (desk, entry) ∷ [] }
        ensures owed { self.new.owed ≡ self.old.owed }
    {
        self.noted.push_reserved(Noted { desk, entry });
    }

    /// Notes an entry after which one more is owed.
    pub(crate) fn note_claim(&mut self, desk: u64, entry: Entry)
        requires { self.old.owed + 2 ≤ self.old.room }
        ensures noted { self.new.noted ≡ self.old.noted ++ (desk, entry) ∷ [] }
        ensures owed { self.new.owed ≡ self.old.owed + 1 }
    {
        self.noted.push_reserved(Noted { desk, entry });
        self.owed += 1;
    }

    /// Notes an entry that was owed.
    pub(crate) fn note_owed(&mut self, desk: u64, entry: Entry)
        requires { 1 ≤ self.old.owed }
        ensures noted { self.new.noted ≡ self.old.noted ++ (desk, entry) ∷ [] }
        ensures owed { self.new.owed + 1 ≡ self.old.owed }
    {
        self.noted.push_reserved(Noted { desk, entry });
        self.owed -= 1;
    }

    /// The entries from an index on.
    pub(crate) fn since(&self, index: usize) -> &[Noted]
        requires { index ≤ length self.now.noted }
        ensures { map pair_of result.now ≡ drop index self.now.noted }
    {
        &self.noted[index..]
    }

    /// The entries.
    pub(crate) fn into_noted(self) -> Vec<Noted>
        ensures { map pair_of result.items ≡ self.noted }
    {
        self.noted
    }
}
