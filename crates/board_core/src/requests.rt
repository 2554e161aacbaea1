ghost use Rattle.std.specs.Prelude.{◌≡◌, ◌<◌, ◌^◌, ◌==◌, ◌&&◌, ◌||◌, nat_lt, false, OnErr, IfOk, IsSome};
ghost use Rattle.board_core.specs.BoardViews.{board_of, Enters, IsClaimed, IsHeld};
ghost use Rattle.board_core.specs.Boards.{oldest_unheld, was_accepted};
ghost use Rattle.board_core.specs.Steps.{refusal};
ghost use Rattle.board_core.specs.declared.entry.Entry.TheVariants as entry;
ghost use Rattle.road_graph.specs.Roads.{is_node};

use crate::board::Board;
use crate::entry::{Reason, Submitted};
use crate::waiting::Waiting;
use ride_base::{NoMemory, RequestNo};
use road_graph::NodeNo;
use stop_schedule::{FleetIndex, LATEST_MOMENT, Request};

impl<I: FleetIndex> Board<I> {
    /// Submits a request, which waits or is refused. After an error nothing has changed.
    pub fn submit(&mut self, request: Request) -> Result<Submitted, NoMemory>
        requires { self.old.fleet.version < 2 ^ 62 }
        ensures ok { IfOk result (λ submitted.
            Enters (board_of self.old) (entry.Submit request submitted) (board_of self.new)) }
        ensures err { OnErr result (board_of self.new ≡ board_of self.old) }
        ensures index { self.new.fleet.index ≡ self.old.fleet.index }
    {
        if let Some(reason) = self.refusal(&request) {
            self.fleet.version += 1;
            return Ok(Submitted::Refused(reason));
        }
        self.waiting.push(Waiting {
            request,
            holder: None,
        })?;
        self.fleet.version += 1;
        Ok(Submitted::Accepted)
    }

    /// The first reason for which a request is refused.
    fn refusal(&self, request: &Request) -> Option<Reason>
        ensures { result ≡ refusal (board_of self.now) request.now }
    {
        if self.closed {
            Some(Reason::Closed)
        } else if !(self.has_node(request.pickup) && self.has_node(request.dropoff)) {
            Some(Reason::Place)
        } else if is_no_party(request.riders, request.spaces) {
            Some(Reason::Riders)
        } else if request.moment < self.fleet.clock || request.moment > LATEST_MOMENT {
            Some(Reason::Moment)
        } else if self.was_accepted(request.no) {
            Some(Reason::Repeated)
        } else {
            None
        }
    }

    fn has_node(&self, node: NodeNo) -> bool
        ensures { result ≡ is_node (board_of self.now).nodes node }
    {
        1 <= node.0 && node.0 <= self.nodes
    }

    fn was_accepted(&self, no: RequestNo) -> bool
        ensures { result ≡ was_accepted (board_of self.now) no }
    {
        self.waiting.find(no).is_some() || self.answers.contains_key(&no)
    }

    /// Gives a desk the oldest waiting request that none holds. Where there is none, nothing changes.
    pub fn claim(&mut self, desk: u64) -> Option<Request>
        requires { IsSome (oldest_unheld (board_of self.old)) → self.old.fleet.version < 2 ^ 62 }
        ensures value { IsClaimed (board_of self.old) desk result (board_of self.new) }
        ensures index { self.new.fleet.index ≡ self.old.fleet.index }
    {
        let request = self.waiting.oldest_unheld()?.request;
        self.waiting.hold(request.no, Some(desk));
        self.fleet.version += 1;
        Some(request)
    }

    /// Takes a request back from the desk that holds it. It keeps its place in the order.
    pub fn back(&mut self, no: RequestNo)
        requires version { self.old.fleet.version < 2 ^ 62 }
        requires held { IsHeld (board_of self.old) no }
        ensures value { Enters (board_of self.old) (entry.Back no) (board_of self.new) }
        ensures index { self.new.fleet.index ≡ self.old.fleet.index }
    {
        self.waiting.hold(no, None);
        self.fleet.version += 1;
    }

    /// Closes the board: it takes no more requests.
    pub fn shut(&mut self)
        requires version { self.old.fleet.version < 2 ^ 62 }
        requires open { (board_of self.old).closed ≡ false }
        ensures value { Enters (board_of self.old) entry.Shut (board_of self.new) }
        ensures index { self.new.fleet.index ≡ self.old.fleet.index }
    {
        self.closed = true;
        self.fleet.version += 1;
    }
}

/// Whether the riders on seats or those in wheelchair spaces are above 16, or there is none of either.
fn is_no_party(riders: u32, spaces: u32) -> bool
    ensures { result ≡ (nat_lt 16 riders || nat_lt 16 spaces || ((riders == 0) && (spaces == 0))) }
{
    riders > 16 || spaces > 16 || riders == 0 && spaces == 0
}
