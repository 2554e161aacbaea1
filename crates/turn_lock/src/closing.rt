//! How desks are joined, and a lock is closed.
ghost use Rattle.std.specs.Prelude.{◌≡◌, ◌+◌, Some, OnOk, IfOk, IfErr};
ghost use Rattle.turn_lock.specs.Desks.{IsJoinOf, IsUnjoined, IsValueOf};

use crate::desk::Desk;
use crate::lock::{TurnLock, Unjoined};
use crate::plays::{FoldIn, LookAtJoin};
use crate::recorded::Recorded;
use crate::rule::TICKET;
use atomic_table::Badge;
use std::mem;

impl<V: Recorded> TurnLock<V> {
    /// Folds the other desk, whose number has to follow those of the first one's family, into the first. That has then seen the longer
    /// of the two lists that they had seen, and its family has both families.
    pub fn join(&self, desk: &mut Desk<V::Entry, V::Origin>, other: Desk<V::Entry, V::Origin>)
        requires lock { (desk.old.lock ≡ Some self.now) × (other.lock ≡ Some self.now) }
        requires next { other.number ≡ desk.old.number + desk.old.family }
        ensures { IsJoinOf desk.old other desk.new }
    {
        let badge = mem::replace(&mut desk.badge, Badge::blank());
        let mut chair = self.seat(badge, desk.number, desk.family);
        let Desk {
            badge,
            number,
            family,
        } = other;
        let theirs = self.seat(badge, number, family);
        let shared = &self.table.shared;
        shared.join_seat::<FoldIn>(&mut chair, theirs);
        // What the word holds doesn't matter: the load tells what both desks had seen.
        shared.load::<LookAtJoin>(&mut chair, TICKET);
        desk.badge = chair.into_badge();
        desk.family += family;
    }

    /// Gives the value, where the desk's family has all desks that were made. Else the lock and the desk come back.
    pub fn close(self, desk: Desk<V::Entry, V::Origin>) -> Result<V, Unjoined<V>>
        requires { desk.lock ≡ Some self }
        ensures ok { IfOk result (IsValueOf V.noted V.IsFrom self desk) }
        ensures whole { OnOk result (desk.family ≡ self.desks) }
        ensures unjoined { IfErr result (λ u. IsUnjoined self desk u.lock u.desk u.made u.family) }
    {
        if desk.family != self.desks {
            let (made, family) = (self.desks, desk.family);
            return Err(Unjoined {
                lock: self,
                desk,
                made,
                family,
            });
        }
        let Desk {
            badge,
            number,
            family,
        } = desk;
        let chair = self.seat(badge, number, family);
        let TurnLock { table, desks: _ } = self;
        let mut closed = table.close_with(chair);
        let slot = closed.take(0);
        closed.free();
        Ok(slot.unwrap())
    }
}
