//! What a seat at the table knows. No value of these types is made, but for the key.
ghost use Rattle.std.specs.Prelude.{◌≡◌};

use std::collections::LinkedList;
use std::marker::{Model, PhantomData};

/// How far a desk is in its turn.
pub enum Stage<E> {
    /// It has no ticket.
    Free,
    /// The number of a desk that it drew, and has not split off yet.
    Drawn(u64),
    /// What was seen on either side of a join, with the size of the first family. It has no ticket.
    Joined(LinkedList<(u64, E)>, u64, LinkedList<(u64, E)>),
    /// Its ticket.
    Waiting(u64),
    /// Its ticket and the list that it found. The value is out with it.
    Entered(u64, LinkedList<(u64, E)>),
    /// Its ticket. The value is out with it, and its count step is made.
    Counted(u64),
}

/// What a living desk knows.
pub struct View<E, O> {
    pub number: u64,
    pub family: u64,
    /// How many numbers it has drawn.
    pub drawn: u64,
    pub desks: u64,
    pub origin: O,
    pub seen: LinkedList<(u64, E)>,
    pub stage: Stage<E>,
}

/// A desk that lives, or one that was joined to another.
pub enum SeatView<E, O> {
    Spent,
    Living(View<E, O>),
}

/// An origin that a caller picks. It has no bytes.
#[derive(Drop)]
pub struct Chosen<O> {
    marker: PhantomData<O>,
    pub ghost origin: { O },
}

impl<O> Model for Chosen<O> {
    ghost use base.Fml.{ftrue};

    ghost also_owns = { λ _. ftrue };
}

impl<O> Chosen<O> {
    pub fn pick() -> Chosen<O>
        ghost picked: { O }
        ensures { result.origin ≡ picked }
    {
        Chosen {
            marker: PhantomData,
        }
    }
}

/// What a table is told once: how many desks it may have, and the origin of its value.
#[derive(Drop)]
pub struct Key<O> {
    pub desks: u64,
    pub origin: Chosen<O>,
}
