ghost use Rattle.std.specs.Prelude.{◌≡◌, [], IfOk, IfErr, length, replicate};
ghost use Rattle.interleave_core.specs.Worlds.{StartsOver};
ghost use Rattle.interleave_core.specs.declared.holding.Holding.TheVariants as holding;

use crate::holding::Holding;
use board_core::{Board, Entry};
use std::alloc::{AllocError, Global};
use stop_schedule::FleetIndex;

/// A board, the journal of its entries, and actors, who are the desks 0, 1 and so on by their index.
#[derive(Debug, Drop)]
pub struct World<I: FleetIndex> {
    pub(crate) board: Board<I>,
    pub(crate) journal: Vec<Entry>,
    pub(crate) actors: Vec<Holding<I>>,
}

/// Want of memory for a world, whose board is handed back.
#[derive(Debug, Drop)]
pub struct WorldFault<I: FleetIndex> {
    /// The board.
    pub board: Board<I>,
}

/// So many actors, of whom each holds nothing. After an error nothing is left of them.
fn idle_actors<I: Drop>(alloc: Global, actors: usize) -> Result<Vec<Holding<I>>, AllocError>
    ensures { IfOk result (λ idle. idle.items ≡ replicate actors holding.Nothing) }
{
    let mut idle = Vec::new(alloc);
    idle.reserve(actors)?;
    'adding: for _actor in 0..actors {
        idle.push_reserved(Holding::Nothing);
    }
    Ok(idle)
}

impl<I: FleetIndex + Drop> World<I> {
    /// A world of a board and so many actors, who hold nothing, with an empty journal.
    pub fn new(alloc: Global, board: Board<I>, actors: usize) -> Result<World<I>, WorldFault<I>>
        ensures board { IfOk result (λ world. world.board ≡ board) }
        ensures journal { IfOk result (λ world. world.journal.items ≡ []) }
        ensures actors { IfOk result
            (λ world. world.actors.items ≡ replicate actors holding.Nothing) }
        ensures many { IfOk result (λ world. length world.actors.items ≡ actors) }
        ensures over { IfOk result (StartsOver I.fits board) }
        ensures back { IfErr result (λ fault. fault.board ≡ board) }
    {
        match idle_actors(alloc, actors) {
            Ok(idle) => Ok(World {
                board,
                journal: Vec::new(alloc),
                actors: idle,
            }),
            Err(AllocError) => Err(WorldFault { board }),
        }
    }
}

impl<I: FleetIndex> World<I> {
    /// The board.
    pub fn board(&self) -> &Board<I>
        ensures { result.now ≡ self.now.board }
    {
        &self.board
    }

    /// The entries of all events so far, in order.
    pub fn journal(&self) -> &[Entry]
        ensures { result.now ≡ self.now.journal.items }
    {
        self.journal.as_slice()
    }
}
