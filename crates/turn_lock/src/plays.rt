//! What each step on the table tells.
ghost use Rattle.turn_lock.specs.Steps.{drew_ticket, looked_for_turn, counted, served, drew_number, looked, cut_left, cut_right, joined};
ghost use Rattle.turn_lock.specs.declared.view.SeatView.TheVariants.{Spent};

use crate::recorded::Recorded;
use crate::view::SeatView;
use atomic_table::{Join, Play, Split};
use std::marker::PhantomData;

pub struct DrawTicket;

impl<V, E, O> Play<Option<V>, SeatView<E, O>> for DrawTicket {
    ghost then = { drew_ticket };
}

pub struct LookForTurn<V> {
    of: PhantomData<V>,
}

impl<V: Recorded> Play<Option<V>, SeatView<V::Entry, V::Origin>> for LookForTurn<V> {
    ghost then = { looked_for_turn V.noted V.IsFrom };
}

pub struct Count<V> {
    of: PhantomData<V>,
}

impl<V: Recorded> Play<Option<V>, SeatView<V::Entry, V::Origin>> for Count<V> {
    ghost then = { counted V.noted V.IsFrom };
}

pub struct ServeNext;

impl<V, E, O> Play<Option<V>, SeatView<E, O>> for ServeNext {
    ghost then = { served };
}

pub struct DrawNumber;

impl<V, E, O> Play<Option<V>, SeatView<E, O>> for DrawNumber {
    ghost then = { drew_number };
}

pub struct LookAtJoin;

impl<V, E, O> Play<Option<V>, SeatView<E, O>> for LookAtJoin {
    ghost then = { looked };
}

pub struct SplitOff;

impl<E, O> Split<SeatView<E, O>> for SplitOff {
    ghost left = { cut_left };

    ghost right = { cut_right };
}

pub struct FoldIn;

impl<E, O> Join<SeatView<E, O>> for FoldIn {
    ghost both = { joined };

    ghost spent = { Spent };
}
