//! A turn at the lock.
ghost use Rattle.std.specs.Prelude.{◌≡◌, ◌^◌, ◌<◌, true, false, length, Some, None, IfSome};
ghost use Rattle.turn_lock.specs.Noted.{Follows, IsLeft};
ghost use Rattle.turn_lock.specs.Desks.{GainsOwn, KeepsOthers, KeepsOwn};
ghost use Rattle.turn_lock.specs.Views.{IsRestingAt, IsSeated, desk_state, seen_of};

use crate::desk::Desk;
use crate::lock::TurnLock;
use crate::recorded::Recorded;
use crate::rule::Chair;
use crate::steps::{count_step, draw_ticket, serve_next, wait_for_turn};
use crate::view::SeatView;
use atomic_table::Badge;
use std::marker::Model;
use std::mem;
use std::sync::Wait;

/// A turn: no other desk has the value until it is spent by `leave`.
pub struct Turn<'a, V: Recorded> {
    desk: &'a mut Desk<V::Entry, V::Origin>,
    lock: &'a TurnLock<V>,
    held: Held<V>,
    ghost at_lock: { held.desk.lock ≡ Some lock.now },
}

/// What a turn has taken of its desk and of the lock.
pub struct Held<V: Recorded> {
    chair: Chair<V, V::Entry, V::Origin>,
    number: u64,
    family: u64,
    entered: u64,
    value: Option<V>,
}

impl<V: Recorded> Model for Held<V> {
    ghost use Rattle.turn_lock.specs.Desks.{TurnState};

    ghost Value = { TurnState V.Entry V.Origin };

    ghost use Rattle.turn_lock.specs.Views.{turn_state, IsHeld};

    ghost view = { λ h. turn_state h.number h.family h.chair.table_id h.chair.me.0 h.value };

    ghost invariant = { λ h.
        IsHeld V.noted V.IsFrom h.number h.family h.entered h.chair.me h.value };
}

impl<V: Recorded> TurnLock<V> {
    /// Waits for a turn. A lock gives at most 2^62 turns; after that it waits for ever.
    pub fn enter<'a, R: Wait + Sync>(
        &'a self,
        rt: &R,
        desk: &'a mut Desk<V::Entry, V::Origin>,
    ) -> Turn<'a, V>
        requires { desk.old.lock ≡ Some self.now }
        ensures same_desk { result.desk.ghost_name ≡ desk.entry.ghost_name }
        ensures turn { (result.held.desk ≡ desk.old) × (result.held.taken ≡ false) }
        ensures few { length result.held.list < 2 ^ 62 }
        ensures found { Follows desk.old.number desk.old.family desk.old.seen result.held.list }
    {
        let badge = mem::replace(&mut desk.badge, Badge::blank());
        let (number, family) = (desk.number, desk.family);
        let held = self.hold(rt, badge, number, family);
        Turn {
            desk,
            lock: self,
            held,
        }
    }

    // The seat of the desk with this badge and these numbers.
    pub(crate) fn seat(
        &self,
        badge: Badge<SeatView<V::Entry, V::Origin>>,
        number: u64,
        family: u64,
    ) -> Chair<V, V::Entry, V::Origin>
        requires { IsRestingAt self.now number family badge.table_id badge.views }
        ensures { IsSeated number family self.now (seen_of badge.views) result.table_id result.me }
    {
        badge.into_seat()
    }

    // Takes the value for the desk with this badge and these numbers.
    fn hold<R: Wait>(
        &self,
        rt: &R,
        badge: Badge<SeatView<V::Entry, V::Origin>>,
        number: u64,
        family: u64,
    ) -> Held<V>
        requires { IsRestingAt self.now number family badge.table_id badge.views }
        ensures turn { (result.desk ≡ desk_state number family badge.table_id badge.views)
            × (result.taken ≡ false) }
        ensures few { length result.list < 2 ^ 62 }
        ensures found { Follows number family (seen_of badge.views) result.list }
    {
        let shared = &self.table.shared;
        let mut chair = self.seat(badge, number, family);
        let ticket = draw_ticket::<V>(shared, &mut chair);
        wait_for_turn::<V, R>(rt, shared, &mut chair, ticket);
        let value = shared.exchange(&mut chair, 0, None).unwrap();
        let entered = value.noted_count();
        Held {
            chair,
            number,
            family,
            entered,
            value: Some(value),
        }
    }
}

impl<'a, V: Recorded> Turn<'a, V> {
    /// Takes the value, once in a turn. It stands for the list that the turn found.
    pub fn take(&mut self) -> V
        requires { self.old.held.taken ≡ false }
        ensures same_desk { self.new.desk.ghost_name ≡ self.old.desk.ghost_name }
        ensures turn { self.new.held ≡ record self.old.held { taken = true } }
        ensures list { V.noted result ≡ self.old.held.list }
        ensures origin { IfSome self.old.held.desk.lock (λ lock. V.IsFrom lock.origin result) }
    {
        self.held.take()
    }

    /// Gives the value back, and serves the next ticket. The list of the value is the one that the turn found, or that with one entry of the desk more.
    pub fn leave(self, value: V)
        requires taken { self.held.taken ≡ true }
        requires origin { IfSome self.held.desk.lock (λ lock. V.IsFrom lock.origin value) }
        requires list { IsLeft self.held.desk.number self.held.list (V.noted value) }
        ensures desk { self.exit.0.now ≡ record self.entry.held.desk { seen = V.noted value } }
        ensures same { KeepsOwn self.entry.held (V.noted value) self.exit.0.now }
        ensures more { GainsOwn self.entry.held (V.noted value) self.exit.0.now }
        ensures others { KeepsOthers self.entry.held.desk self.exit.0.now }
    {
        let Turn { desk, lock, held } = self;
        *desk = lock.put(held, value);
    }
}

impl<V: Recorded> Held<V> {
    fn take(&mut self) -> V
        requires { self.old.taken ≡ false }
        ensures turn { self.new ≡ record self.old { taken = true } }
        ensures list { V.noted result ≡ self.old.list }
        ensures origin { IfSome self.old.desk.lock (λ lock. V.IsFrom lock.origin result) }
    {
        self.value.take().unwrap()
    }
}

impl<V: Recorded> TurnLock<V> {
    // Gives the value back, and gives the desk as it is then.
    fn put(&self, held: Held<V>, value: V) -> Desk<V::Entry, V::Origin>
        requires taken { held.taken ≡ true }
        requires lock { held.desk.lock ≡ Some self.now }
        requires origin { V.IsFrom self.now.origin value }
        requires list { IsLeft held.desk.number held.list (V.noted value) }
        ensures desk { result ≡ record held.desk { seen = V.noted value } }
        ensures same { KeepsOwn held (V.noted value) result }
        ensures more { GainsOwn held (V.noted value) result }
        ensures others { KeepsOthers held.desk result }
    {
        let Held {
            mut chair,
            number,
            family,
            entered,
            value: taken,
        } = held;
        forget_none(taken);
        let shared = &self.table.shared;
        let count = value.noted_count();
        let value = Some(value);
        count_step::<V>(shared, &mut chair, entered, count, &value);
        let empty = shared.exchange(&mut chair, 0, value);
        forget_none(empty);
        serve_next::<V>(shared, &mut chair);
        let badge = chair.into_badge();
        Desk {
            badge,
            number,
            family,
        }
    }
}

// Lets an empty slot go.
fn forget_none<V>(slot: Option<V>)
    requires { slot ≡ None }
{
    match slot {
        None => {}
        Some(_) => unreachable!(),
    }
}
