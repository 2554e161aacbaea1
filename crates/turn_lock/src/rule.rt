//! The table under the lock, and its rule.
use crate::recorded::Recorded;
use crate::view::{Key, SeatView};
use atomic_table::{Seat, Shared, Table, TableRule};
use std::alloc::Global;
use std::marker::PhantomData;

/// The word of the tickets that were drawn.
pub const TICKET: usize = 0;

/// The word of the ticket that is served.
pub const SERVING: usize = 1;

/// The word of the number of entries.
pub const COUNT: usize = 2;

/// The word of the number of desks.
pub const MADE: usize = 3;

/// So many turns does a lock give.
pub const MOST_TURNS: u64 = 1 << 62;

/// The rule, over values of `V`.
pub struct Turns<V> {
    of: PhantomData<V>,
}

impl<V: Recorded> TableRule<Option<V>, SeatView<V::Entry, V::Origin>, Key<V::Origin>> for Turns<V> {
    ghost use Rattle.turn_lock.specs.declared.view.SeatView.TheVariants.{Living};
    ghost use Rattle.turn_lock.specs.Rule.{IsRuled, opening_view};

    ghost holds = { λ key. IsRuled V.noted V.IsFrom key };

    ghost first = { λ key. Living (opening_view key) };
}

/// The table of a lock: its four words, its slot and its views.
pub type LockTable<V, E, O> = Table<Option<V>, SeatView<E, O>, Key<O>, Turns<V>, Global>;

/// What all desks share of it.
pub type SharedTable<V, E, O> = Shared<Option<V>, SeatView<E, O>, Key<O>, Turns<V>>;

/// A desk's seat at it during a call.
pub type Chair<V, E, O> = Seat<Option<V>, SeatView<E, O>>;
