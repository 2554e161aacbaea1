ghost use Rattle.std.specs.Prelude.{◌≡◌, Some, None, MatchOption};
ghost use Rattle.journal_text.specs.LineParts.{behind_space_of};
ghost use Rattle.journal_text.specs.LineHeads.{head_in, at_end, with_request, request_at_end, ride_in, spaces_at_end, claim_in};
ghost use Rattle.journal_text.specs.LineHeads.{place_ahead, prices_at_end, offer_in, clock_in, behind_in, behind_request, word_for};
ghost use Rattle.journal_text.specs.LineHeads.{refusal_in, reason_in, cancel_refusal_in, cancel_reason_in};
ghost use Rattle.journal_text.specs.LineHeads.{positions_at_end, removal_in, stay_at_end, served_in, kind_ahead};
ghost use Rattle.journal_text.specs.declared.heads.Head.TheVariants as head;

use crate::fields::{
    behind_space, next_32, next_large, next_node, next_number, next_request, next_vehicle,
};
use board_core::{CancelReason, Reason, Submitted};
use ride_base::{RequestNo, VehicleNo};
use road_graph::NodeNo;
use stop_advance::Served;
use stop_schedule::{Insertion, Request, StopKind};

/// The latest clock.
const LATEST_CLOCK: u64 = 1 << 40;

/// The largest position in a list of stops.
const LARGEST_POSITION: u64 = 64;

/// An offer without its walks.
#[derive(Clone, Copy)]
pub(crate) struct OfferHead {
    pub(crate) no: VehicleNo,
    pub(crate) at: Insertion,
    pub(crate) cost: u64,
    pub(crate) leave: u64,
    pub(crate) arrive: u64,
}

/// A removal without its walks.
#[derive(Clone, Copy)]
pub(crate) struct RemovalHead {
    pub(crate) no: VehicleNo,
    pub(crate) pickup: usize,
    pub(crate) dropoff: usize,
}

/// What the lines of a group say that no walk, stop or certificate stands on.
#[derive(Clone, Copy)]
pub(crate) enum Head {
    /// A request was submitted.
    Ride(Request, Submitted),
    Claim(RequestNo, u64),
    Back(RequestNo),
    /// A vehicle took a request.
    Offer(RequestNo, OfferHead),
    /// No vehicle could.
    Nobody(RequestNo),
    /// The clock moved.
    Clock(u64),
    /// The clock was to move to the first moment, and stayed at the second.
    Behind(u64, u64),
    /// Riders cancel, and what became of it is not read yet.
    Asked(RequestNo),
    /// A cancellation was refused.
    Declined(RequestNo, CancelReason),
    /// The stops of a request were taken out.
    Removal(RequestNo, RemovalHead),
    Shut,
}

/// What the first line of a group says. None exactly where it is the first line of none.
pub(crate) fn head_of(line: &[u8]) -> Option<Head>
    ensures { result ≡ head_in line.now }
{
    let (letter, rest) = line.split_first()?;
    match *letter {
        b'r' => ride_of(rest),
        b'k' => claim_of(rest),
        b'b' => back_of(rest),
        b'a' => offer_of(rest),
        b'n' => nobody_of(rest),
        b't' => clock_of(rest),
        b'y' => asked_of(rest),
        b'z' => shut_of(rest),
        _ => None,
    }
}

/// ` ID` behind `b`
fn back_of(bytes: &[u8]) -> Option<Head>
    ensures { result ≡ with_request head.Back (request_at_end bytes.now) }
{
    let no = only_request(bytes)?;
    Some(Head::Back(no))
}

/// ` ID` behind `n`
fn nobody_of(bytes: &[u8]) -> Option<Head>
    ensures { result ≡ with_request head.Nobody (request_at_end bytes.now) }
{
    let no = only_request(bytes)?;
    Some(Head::Nobody(no))
}

/// ` ID` behind `y`
fn asked_of(bytes: &[u8]) -> Option<Head>
    ensures { result ≡ with_request head.Asked (request_at_end bytes.now) }
{
    let no = only_request(bytes)?;
    Some(Head::Asked(no))
}

/// Nothing behind `z`
fn shut_of(bytes: &[u8]) -> Option<Head>
    ensures { result ≡ at_end head.Shut bytes.now }
{
    if bytes.is_empty() {
        Some(Head::Shut)
    } else {
        None
    }
}

/// The number of a request where nothing stands behind it.
fn only_request(bytes: &[u8]) -> Option<RequestNo>
    ensures { result ≡ request_at_end bytes.now }
{
    let (no, rest) = next_request(bytes)?;
    if rest.is_empty() { Some(no) } else { None }
}

/// ` ID P D T Q`, and ` S` where it isn't 0.
fn ride_of(bytes: &[u8]) -> Option<Head>
    ensures { result ≡ ride_in bytes.now }
{
    let (no, rest) = next_request(bytes)?;
    let (pickup, rest) = next_node(rest)?;
    let (dropoff, rest) = next_node(rest)?;
    let (moment, rest) = next_large(rest)?;
    let (riders, rest) = next_32(rest)?;
    let spaces = spaces_of(rest)?;
    Some(Head::Ride(
        Request {
            no,
            pickup,
            dropoff,
            moment,
            riders,
            spaces,
        },
        Submitted::Accepted,
    ))
}

/// The wheelchair spaces at the end of a request: none where nothing is left, and else a number that isn't 0.
fn spaces_of(bytes: &[u8]) -> Option<u32>
    ensures { result ≡ spaces_at_end bytes.now }
{
    if bytes.is_empty() {
        return Some(0);
    }
    let (spaces, rest) = next_32(bytes)?;
    if rest.is_empty() && spaces > 0 {
        Some(spaces)
    } else {
        None
    }
}

/// ` ID DESK`
fn claim_of(bytes: &[u8]) -> Option<Head>
    ensures { result ≡ claim_in bytes.now }
{
    let (no, rest) = next_request(bytes)?;
    let (desk, rest) = next_large(rest)?;
    if rest.is_empty() {
        Some(Head::Claim(no, desk))
    } else {
        None
    }
}

/// ` ID VEHICLE I J COST DEP ARR`
fn offer_of(bytes: &[u8]) -> Option<Head>
    ensures { result ≡ offer_in bytes.now }
{
    let (no, rest) = next_request(bytes)?;
    let (vehicle, rest) = next_vehicle(rest)?;
    let (at, rest) = next_place(rest)?;
    let (cost, leave, arrive) = last_prices(rest)?;
    Some(Head::Offer(
        no,
        OfferHead {
            no: vehicle,
            at,
            cost,
            leave,
            arrive,
        },
    ))
}

/// ` I J` in front, in their order, and what stands behind them.
fn next_place(bytes: &[u8]) -> Option<(Insertion, &[u8])>
    ensures { MatchOption result (place_ahead bytes.now ≡ None)
        (λ cut. place_ahead bytes.now ≡ Some (cut.0, cut.1.now)) }
{
    let (i, rest) = next_number(bytes, LARGEST_POSITION)?;
    let (j, rest) = next_number(rest, LARGEST_POSITION)?;
    if j < i {
        return None;
    }
    let at = Insertion {
        i: i as usize,
        j: j as usize,
    };
    Some((at, rest))
}

/// ` COST DEP ARR` at the end of a line
fn last_prices(bytes: &[u8]) -> Option<(u64, u64, u64)>
    ensures { result ≡ prices_at_end bytes.now }
{
    let (cost, rest) = next_large(bytes)?;
    let (leave, rest) = next_large(rest)?;
    let (arrive, rest) = next_large(rest)?;
    if rest.is_empty() {
        Some((cost, leave, arrive))
    } else {
        None
    }
}

/// ` T`
fn clock_of(bytes: &[u8]) -> Option<Head>
    ensures { result ≡ clock_in bytes.now }
{
    let (now, rest) = next_number(bytes, LATEST_CLOCK)?;
    if rest.is_empty() {
        Some(Head::Clock(now))
    } else {
        None
    }
}

/// ` back CLOCK` behind `x`
pub(crate) fn behind_of(bytes: &[u8]) -> Option<u64>
    ensures { result ≡ behind_in bytes.now }
{
    let rest = bytes.strip_prefix(b" back")?;
    let (clock, rest) = next_number(rest, LATEST_CLOCK)?;
    if rest.is_empty() { Some(clock) } else { None }
}

/// What stands behind the number of that request.
fn behind_number_of(bytes: &[u8], asked: RequestNo) -> Option<&[u8]>
    ensures { MatchOption result (behind_request bytes.now asked ≡ None)
        (λ rest. behind_request bytes.now asked ≡ Some rest.now) }
{
    let (found, rest) = next_request(bytes)?;
    if found.0 == asked.0 { Some(rest) } else { None }
}

/// The word behind the number of that request.
fn word_behind(bytes: &[u8], asked: RequestNo) -> Option<&[u8]>
    ensures { MatchOption result (word_for bytes.now asked ≡ None)
        (λ word. word_for bytes.now asked ≡ Some word.now) }
{
    behind_space(behind_number_of(bytes, asked)?)
}

/// ` ID REASON` behind `x`, of the request of that number
pub(crate) fn refusal_of(bytes: &[u8], asked: RequestNo) -> Option<Reason>
    ensures { result ≡ refusal_in bytes.now asked }
{
    reason_of(word_behind(bytes, asked)?)
}

fn reason_of(word: &[u8]) -> Option<Reason>
    ensures { result ≡ reason_in word.now }
{
    if word == b"closed".as_slice() {
        Some(Reason::Closed)
    } else if word == b"place".as_slice() {
        Some(Reason::Place)
    } else if word == b"riders".as_slice() {
        Some(Reason::Riders)
    } else if word == b"moment".as_slice() {
        Some(Reason::Moment)
    } else if word == b"repeated".as_slice() {
        Some(Reason::Repeated)
    } else {
        None
    }
}

/// ` ID REASON` behind `x`, of the cancellation of that number
pub(crate) fn cancel_refusal_of(bytes: &[u8], asked: RequestNo) -> Option<CancelReason>
    ensures { result ≡ cancel_refusal_in bytes.now asked }
{
    cancel_reason_of(word_behind(bytes, asked)?)
}

fn cancel_reason_of(word: &[u8]) -> Option<CancelReason>
    ensures { result ≡ cancel_reason_in word.now }
{
    if word == b"unknown".as_slice() {
        Some(CancelReason::Unknown)
    } else if word == b"waiting".as_slice() {
        Some(CancelReason::Waiting)
    } else if word == b"nobody".as_slice() {
        Some(CancelReason::Nobody)
    } else if word == b"cancelled".as_slice() {
        Some(CancelReason::Cancelled)
    } else if word == b"served".as_slice() {
        Some(CancelReason::Served)
    } else {
        None
    }
}

/// ` ID VEHICLE A B` behind `o`, of the request of that number
pub(crate) fn removal_of(bytes: &[u8], asked: RequestNo) -> Option<RemovalHead>
    ensures { result ≡ removal_in bytes.now asked }
{
    let rest = behind_number_of(bytes, asked)?;
    let (no, rest) = next_vehicle(rest)?;
    let (pickup, dropoff) = last_positions(rest)?;
    Some(RemovalHead {
        no,
        pickup,
        dropoff,
    })
}

/// ` A B` at the end of a line, counted from 1 and in their order
fn last_positions(bytes: &[u8]) -> Option<(usize, usize)>
    ensures { result ≡ positions_at_end bytes.now }
{
    let (pickup, rest) = next_number(bytes, LARGEST_POSITION)?;
    let (dropoff, rest) = next_number(rest, LARGEST_POSITION)?;
    if 0 < pickup && pickup < dropoff && rest.is_empty() {
        Some((pickup as usize, dropoff as usize))
    } else {
        None
    }
}

/// ` VEHICLE ID KIND NODE ARR DEP` behind `s`
pub(crate) fn served_of(bytes: &[u8]) -> Option<(VehicleNo, Served)>
    ensures { result ≡ served_in bytes.now }
{
    let (vehicle, rest) = next_vehicle(bytes)?;
    let (no, rest) = next_request(rest)?;
    let (kind, rest) = next_kind(rest)?;
    let (node, arr, dep) = last_stay(rest)?;
    let served = Served {
        kind,
        no,
        node,
        arr,
        dep,
    };
    Some((vehicle, served))
}

/// ` NODE ARR DEP` at the end of a line
fn last_stay(bytes: &[u8]) -> Option<(NodeNo, u64, u64)>
    ensures { result ≡ stay_at_end bytes.now }
{
    let (node, rest) = next_node(bytes)?;
    let (arr, rest) = next_large(rest)?;
    let (dep, rest) = next_large(rest)?;
    if rest.is_empty() {
        Some((node, arr, dep))
    } else {
        None
    }
}

/// The kind of a stop behind a space, and what stands behind it.
fn next_kind(bytes: &[u8]) -> Option<(StopKind, &[u8])>
    ensures { MatchOption result (kind_ahead bytes.now ≡ None)
        (λ cut. kind_ahead bytes.now ≡ Some (cut.0, cut.1.now)) }
{
    let (letter, rest) = behind_space(bytes)?.split_first()?;
    match *letter {
        b'p' => Some((StopKind::Pickup, rest)),
        b'd' => Some((StopKind::Dropoff, rest)),
        _ => None,
    }
}
