//! A caller's token.
ghost use Rattle.std.specs.Prelude.{◌≡◌};

use crate::view::SeatView;
use atomic_table::Badge;
use std::marker::Model;

/// A caller's token: its number, its family, and what it has seen. It has no lock while a turn has it.
#[derive(Drop)]
pub struct Desk<Entry, Origin> {
    pub(crate) badge: Badge<SeatView<Entry, Origin>>,
    pub(crate) number: u64,
    pub(crate) family: u64,
}

impl<Entry, Origin> Model for Desk<Entry, Origin> {
    ghost use Rattle.turn_lock.specs.Desks.{DeskState};

    ghost Value = { DeskState Entry Origin };

    ghost use Rattle.turn_lock.specs.Views.{desk_state, IsResting};

    ghost view = { λ d. desk_state d.number d.family d.badge.table_id d.badge.views };

    ghost invariant = { λ d. IsResting d.number d.family d.badge.views };
}

impl<Entry, Origin> Desk<Entry, Origin> {
    /// Its number, counted from 0.
    pub fn number(&self) -> u64
        ensures { result ≡ self.now.number }
    {
        self.number
    }

    /// How many desks are folded into it, itself included.
    pub fn family(&self) -> u64
        ensures { result ≡ self.now.family }
    {
        self.family
    }
}
