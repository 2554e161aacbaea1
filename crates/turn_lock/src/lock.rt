//! The lock.
ghost use Rattle.std.specs.Prelude.{◌≡◌};

use crate::desk::Desk;
use crate::recorded::Recorded;
use crate::rule::LockTable;
use std::marker::Model;

/// A lock round a value, which desks take in turns. The value stands for one growing list of entries, each noted by a desk.
#[derive(Drop)]
pub struct TurnLock<V: Recorded> {
    pub(crate) table: LockTable<V, V::Entry, V::Origin>,
    pub(crate) desks: u64,
}

impl<V: Recorded> Model for TurnLock<V> {
    ghost use Rattle.std.specs.Prelude.{◌≡◌};
    ghost use Rattle.turn_lock.specs.Desks.{IsSized, LockState};

    ghost Value = { LockState V.Origin };

    ghost view = { λ l. record {
      table = l.table.shared.table_id;
      desks = l.table.shared.key.desks;
      origin = l.table.shared.key.origin.origin;
    } };

    ghost invariant = { λ l. (l.desks ≡ l.table.shared.key.desks)
        × IsSized l.table.shared.table_id };
}

/// There was no memory. The value comes back.
#[derive(Drop)]
pub struct NewFault<V> {
    pub value: V,
}

/// The desk's family lacks a desk of the lock. The lock and the desk come back, with the number of desks that were asked for and of those in the family.
#[derive(Drop)]
pub struct Unjoined<V: Recorded> {
    pub lock: TurnLock<V>,
    pub desk: Desk<V::Entry, V::Origin>,
    pub made: u64,
    pub family: u64,
}
