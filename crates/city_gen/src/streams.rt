ghost use Rattle.std.specs.Prelude.{◌≡◌, IfOk};
ghost use Rattle.city_gen.specs.Draws.{after};
ghost use Rattle.city_gen.specs.Streams.{drawn_ride, lines_from, ride_count};

use crate::draws::Draws;
use crate::roads::NODES;
use input_tables::StreamLine;
use ride_base::{Items, NoMemory, RequestNo};
use road_graph::NodeNo;
use std::alloc::Global;
use stop_schedule::Request;

/// How many requests a city has.
const RIDES: u32 = 500;

/// Makes the lines of the stream: for each request, numbered from 1, the clock moves on, and then it is submitted.
pub(crate) fn make_lines(alloc: Global, draws: &mut Draws) -> Result<Items<StreamLine>, NoMemory>
    ensures { IfOk result (λ l. l ≡ lines_from ride_count 1 0 draws.old.state) }
{
    let mut lines = Vec::with_capacity(alloc, 2 * RIDES as usize)?;
    let mut now = 0;
    for place in 0..RIDES {
        now += u64::from(draws.below(12));
        lines.push(StreamLine::Move(now))?;
        lines.push(StreamLine::Ride(draw_ride(place + 1, now, draws)))?;
    }
    Ok(Items::from_vec(lines))
}

/// The request of a number at a moment: its pickup is drawn, then its dropoff, then how many riders take a seat.
#[tactic(auto, unfolding(crate::specs::Draws::after))]
fn draw_ride(no: u32, now: u64, draws: &mut Draws) -> Request
    ensures ride { result ≡ drawn_ride no now draws.old.state }
    ensures state { draws.new.state ≡ after 3 draws.old.state }
{
    let pickup = 1 + draws.below(NODES);
    let dropoff = 1 + draws.below(NODES);
    let riders = 1 + draws.below(2);
    Request {
        no: RequestNo(u64::from(no)),
        pickup: NodeNo(pickup),
        dropoff: NodeNo(dropoff),
        moment: now,
        riders,
        spaces: 0,
    }
}
