//! The shared board: how it is made, joined and ended.
ghost use Rattle.std.specs.Prelude.{◌≡◌, ◌+◌, ◌<◌, ◌≤◌, [], IfErr, IfOk, OnOk};
ghost use Rattle.road_graph.specs.Graphs.{IsGraph};
ghost use Rattle.stop_schedule.specs.Fleets.{IsGoodView};
ghost use Rattle.turn_lock.specs.Desks.{IsJoinOf, IsUnjoined};
ghost use Rattle.board_core.specs.BoardViews.{board_of};
ghost use Rattle.fleet_board.specs.Openings.{IsOpening, Opening};
ghost use Rattle.fleet_board.specs.Records.{IsRecordOf};
ghost use Rattle.fleet_board.specs.Turns.{AreOpened, Ends, IsDeskOf};

use crate::journal::{Journal, Noted};
use crate::origin::Origin;
use crate::recorded::RecordedBoard;
use board_core::{Board, Entry, Fleet};
use insertion_cost::Pricer;
use std::alloc::Global;
use std::thread::Threads;
use stop_schedule::FleetIndex;
use turn_lock::{Desk, NewFault, TurnLock, Unjoined};

/// A caller's token at a shared board: its number, and what it has seen.
pub type BoardDesk = Desk<Entry, Origin>;

/// A board that many desks use at once, in turns, with the pricer of its graph.
#[derive(Drop)]
pub struct FleetBoard<I: FleetIndex, P: Pricer<Fleet<I>>> {
    pub(crate) lock: TurnLock<RecordedBoard<I>>,
    pub(crate) pricer: P,
}

/// There was no memory. The board and the pricer come back.
#[derive(Drop)]
pub struct BoardFault<I: FleetIndex, P> {
    /// The board.
    pub board: Board<I>,
    /// The pricer.
    pub pricer: P,
}

/// The desk's family lacks a desk of the board. Both come back, with the number of desks that were asked for and of those in the family.
#[derive(Drop)]
pub struct UnjoinedBoard<I: FleetIndex, P: Pricer<Fleet<I>>> {
    /// The shared board.
    pub board: FleetBoard<I, P>,
    /// The desk.
    pub desk: BoardDesk,
    /// How many desks were made.
    pub made: u64,
    /// How many are in the family.
    pub family: u64,
}

impl<I: FleetIndex + Drop, P: Pricer<Fleet<I>>> FleetBoard<I, P> {
    /// A shared board with so many desks, numbered from 0 in order. There may be up to 65,536. The board has made no entry, the pricer's
    /// graph has its number of nodes, and its fleet is good over that graph.
    pub fn new<R: Threads>(
        rt: &R,
        alloc: Global,
        board: Board<I>,
        pricer: P,
        desks: u32,
    ) -> Result<(FleetBoard<I, P>, Vec<BoardDesk>), BoardFault<I, P>>
        requires desks { (0 < desks) × (desks ≤ 65536) }
        requires graph { IsGraph (P.graph pricer) }
        requires opening { IsOpening
            (record { board = board_of board; graph = P.graph pricer }) }
        requires good { IsGoodView
            (I.fits board.fleet.index) (P.graph pricer) (board_of board).fleet }
        ensures ok { IfOk result (λ made. AreOpened
            (board_of board) (P.graph pricer) desks made.0.lock made.1.items) }
        ensures pricer { IfOk result (λ made. made.0.pricer ≡ pricer) }
        ensures board { IfErr result (λ fault. fault.board ≡ board) }
        ensures back { IfErr result (λ fault. fault.pricer ≡ pricer) }
    {
        let Ok(journal) = Journal::opened(alloc) else {
            return Err(BoardFault { board, pricer });
        };
        lay(rt, alloc, RecordedBoard { board, journal }, pricer, desks)
    }

    /// The pricer. It takes no turn and doesn't wait.
    pub fn pricer(&self) -> &P
        ensures { result.now ≡ self.now.pricer }
    {
        &self.pricer
    }

    /// Folds the other desk, whose number has to follow those of the first one's family, into the first. That has then seen the longer of
    /// the two lists that they had seen, and its family has both families. A claim of the other desk can't be ended any more.
    pub fn join(&self, desk: &mut BoardDesk, other: BoardDesk)
        requires desk { IsDeskOf (P.graph self.now.pricer) self.now.lock desk.old }
        requires other { IsDeskOf (P.graph self.now.pricer) self.now.lock other }
        requires next { other.number ≡ desk.old.number + desk.old.family }
        ensures joined { IsJoinOf desk.old other desk.new }
        ensures desk { IsDeskOf (P.graph self.now.pricer) self.now.lock desk.new }
    {
        self.lock.join(desk, other);
    }

    /// Gives the board and all that was noted, where the desk's family has all desks that were made. Else the shared board and the desk
    /// come back. It takes no memory.
    pub fn finish(self, desk: BoardDesk) -> Result<(Board<I>, Vec<Noted>), UnjoinedBoard<I, P>>
    where
        P: Drop,
        requires { IsDeskOf (P.graph self.pricer) self.lock desk }
        ensures ok { IfOk result (λ ended.
            Ends I.fits (P.graph self.pricer) self.lock desk ended.0 ended.1.items) }
        ensures whole { OnOk result (desk.family ≡ self.lock.desks) }
        ensures unjoined { IfErr result (λ u.
            IsUnjoined self.lock desk u.board.lock u.desk u.made u.family) }
        ensures pricer { IfErr result (λ u. u.board.pricer ≡ self.pricer) }
    {
        let FleetBoard { lock, pricer } = self;
        match lock.close(desk) {
            Ok(value) => {
                let RecordedBoard { board, journal } = value;
                Ok((board, journal.into_noted()))
            }
            Err(unjoined) => {
                let Unjoined {
                    lock,
                    desk,
                    made,
                    family,
                } = unjoined;
                Err(UnjoinedBoard {
                    board: FleetBoard { lock, pricer },
                    desk,
                    made,
                    family,
                })
            }
        }
    }
}

/// A lock round a record of an opening, with the pricer of its graph, and its desks.
fn lay<R: Threads, I: FleetIndex + Drop, P: Pricer<Fleet<I>>>(
    rt: &R,
    alloc: Global,
    value: RecordedBoard<I>,
    pricer: P,
    desks: u32,
) -> Result<(FleetBoard<I, P>, Vec<BoardDesk>), BoardFault<I, P>>
    ghost origin: { Opening }
    requires desks { (0 < desks) × (desks ≤ 65536) }
    requires list { value.journal.noted ≡ [] }
    requires origin { IsRecordOf I.fits origin value }
    ensures ok { IfOk result (λ made.
        AreOpened origin.board origin.graph desks made.0.lock made.1.items) }
    ensures pricer { IfOk result (λ made. made.0.pricer ≡ pricer) }
    ensures board { IfErr result (λ fault. fault.board ≡ value.board) }
    ensures back { IfErr result (λ fault. fault.pricer ≡ pricer) }
{
    match TurnLock::new(rt, alloc, value, desks) {
        Ok((lock, row)) => Ok((FleetBoard { lock, pricer }, row)),
        Err(NewFault { value }) => {
            let RecordedBoard { board, journal: _ } = value;
            Err(BoardFault { board, pricer })
        }
    }
}
