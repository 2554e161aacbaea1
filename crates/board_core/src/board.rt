ghost use Rattle.std.specs.Prelude.{◌≡◌, IfOk, option_copied, option_map};
ghost use Rattle.board_core.specs.BoardCalls.{FitsStarts};
ghost use Rattle.board_core.specs.BoardViews.{board_of, request_of};
ghost use Rattle.board_core.specs.Boards.{opening_board, answer_of, is_cancelled, oldest_unheld};
ghost use Rattle.stop_schedule.specs.Bounds.{AreVehicles};

use crate::arrivals::Arrivals;
use crate::fleet::Fleet;
use crate::waiting::Queue;
use insertion_cost::Decision;
use ride_base::{NoMemory, RequestNo};
use std::alloc::Global;
use std::collections::{BTreeMap, BTreeSet};
use std::marker::Model;
use stop_schedule::{FleetIndex, FleetView, Params, Request, Vehicle};

/// A fleet with its clock, the requests that wait, the answers and what was cancelled. Each call that makes an entry raises the version
/// by one, and a board makes fewer than 2^62 entries.
#[derive(Debug, Drop)]
pub struct Board<I: FleetIndex> {
    pub(crate) nodes: u32,
    pub(crate) fleet: Fleet<I>,
    // when each vehicle reaches its next stop
    pub(crate) arrivals: Arrivals,
    pub(crate) closed: bool,
    pub(crate) waiting: Queue,
    pub(crate) answers: BTreeMap<RequestNo, Decision>,
    pub(crate) cancelled: BTreeSet<RequestNo>,
}

impl<I: FleetIndex> Model for Board<I> {
    ghost use Rattle.board_core.specs.BoardKept.{WithIndex, IsKept, with_index};

    ghost Value = { WithIndex I };

    ghost view = { λ b.
        with_index b.nodes b.fleet b.closed b.waiting b.answers.entries b.cancelled.keys };

    ghost invariant = { λ b. IsKept I.fits
        (with_index b.nodes b.fleet b.closed b.waiting b.answers.entries b.cancelled.keys)
        b.arrivals };
}

impl<I: FleetIndex + Drop> Board<I> {
    /// The board before any entry: all vehicles at their starts, the clock at 0. After an error nothing is left of it.
    pub fn opening(
        alloc: Global,
        nodes: u32,
        params: Params,
        fleet: &[Vehicle],
        index: I,
    ) -> Result<Board<I>, NoMemory>
        requires vehicles { AreVehicles nodes fleet.now }
        requires index { FitsStarts (I.fits index) nodes params fleet.now }
        ensures value { IfOk result
            (λ board. board_of board ≡ opening_board nodes params fleet.now) }
        ensures index { IfOk result (λ board. board.fleet.index ≡ index) }
    {
        let fleet = Fleet::opening(alloc, nodes, params, fleet, index)?;
        let arrivals = Arrivals::never(alloc, fleet.count())?;
        Ok(Board {
            nodes,
            fleet,
            arrivals,
            closed: false,
            waiting: Queue::new(alloc),
            answers: BTreeMap::new(alloc),
            cancelled: BTreeSet::new(alloc),
        })
    }
}

impl<I: FleetIndex> Board<I> {
    /// The fleet as it is.
    pub fn fleet(&self) -> &Fleet<I>
        ensures { result.now ≡ self.now.fleet }
    {
        &self.fleet
    }

    /// The oldest waiting request that no desk holds.
    pub fn waiting(&self) -> Option<&Request>
        ensures { option_copied result ≡ option_map request_of (oldest_unheld (board_of self.now)) }
    {
        match self.waiting.oldest_unheld() {
            Some(waiting) => Some(&waiting.request),
            None => None,
        }
    }

    /// The answer to a request that doesn't wait any more.
    pub fn answer(&self, no: RequestNo) -> Option<&Decision>
        ensures { option_copied result ≡ answer_of (board_of self.now) no }
    {
        self.answers.get(&no)
    }

    /// Whether the riders of a request cancelled.
    pub fn cancelled(&self, no: RequestNo) -> bool
        ensures { result ≡ is_cancelled (board_of self.now) no }
    {
        self.cancelled.contains(&no)
    }

    /// Whether the board takes no more requests.
    pub fn is_closed(&self) -> bool
        ensures { result ≡ (board_of self.now).closed }
    {
        self.closed
    }
}
