ghost use Rattle.std.specs.Prelude.{◌≡◌, ◌-◌, ◌<◌, ◌≤◌, ◌++◌, OnOk, OnErr, flat_map};
ghost use Rattle.board_core.specs.declared.entry.Entry.TheVariants as entry;
ghost use Rattle.journal_text.specs.Groups.{group, ride_line, submitted_lines, cancelled_lines, refusal_line};
ghost use Rattle.journal_text.specs.Groups.{reason_text, cancel_reason_text, moved_lines, served_line};
ghost use Rattle.journal_text.specs.Groups.{walks_lines, changed_legs, joined_legs};
ghost use Rattle.journal_text.specs.Printable.{IsPrintable};
ghost use Rattle.journal_text.specs.TextEntries.{nodes_of, text_cancelled};

use crate::line::{push_line, push_numbers, push_walks};
use board_core::{Advanced, CancelReason, Cancelled, Entry, Reason, Submitted};
use insertion_cost::Decision;
use ride_base::{NoMemory, RequestNo, VehicleNo};
use road_graph::Walk;
use std::alloc::Global;
use stop_advance::Served;
use stop_schedule::{Insertion, Request, StopKind};

/// Adds an entry's lines to a journal. At want of memory nothing is added.
pub fn render(alloc: Global, entry: &Entry, out: &mut Vec<u8>) -> Result<(), NoMemory>
    requires { IsPrintable entry.now }
    ensures ok { OnOk result (out.new.items ≡ out.old.items ++ group entry.now) }
    ensures err { OnErr result (out.new.items ≡ out.old.items) }
{
    let mut text = Vec::new(alloc);
    push_group(&mut text, entry)?;
    out.extend_from_slice(text.as_slice())?;
    Ok(())
}

fn push_group(out: &mut Vec<u8>, entry: &Entry) -> Result<(), NoMemory>
    requires { IsPrintable entry.now }
    ensures { OnOk result (out.new.items ≡ out.old.items ++ group entry.now) }
{
    match entry {
        Entry::Submit(request, submitted) => {
            push_ride(out, request)?;
            push_submitted(out, request.no, *submitted)
        }
        Entry::Claim(no, desk) => push_line(out, b'k', &[no.0, *desk]),
        Entry::Back(no) => push_line(out, b'b', &[no.0]),
        Entry::Commit(no, decision) => push_decision(out, *no, decision),
        Entry::Advance(now, advanced) => {
            push_line(out, b't', &[*now])?;
            push_moved(out, advanced)
        }
        Entry::Cancel(no, cancelled) => {
            push_line(out, b'y', &[no.0])?;
            push_cancelled(out, *no, cancelled)
        }
        Entry::Shut => out.extend_from_slice(b"z\n"),
    }
}

fn push_ride(out: &mut Vec<u8>, request: &Request) -> Result<(), NoMemory>
    ensures { OnOk result (out.new.items ≡ out.old.items ++ ride_line request.now) }
{
    let numbers = [
        request.no.0,
        u64::from(request.pickup.0),
        u64::from(request.dropoff.0),
        request.moment,
        u64::from(request.riders),
        u64::from(request.spaces),
    ];
    if request.spaces == 0 {
        push_line(out, b'r', &numbers[..5])
    } else {
        push_line(out, b'r', &numbers)
    }
}

fn push_submitted(out: &mut Vec<u8>, no: RequestNo, submitted: Submitted) -> Result<(), NoMemory>
    ensures { OnOk result (out.new.items ≡ out.old.items ++ submitted_lines no.0 submitted) }
{
    match submitted {
        Submitted::Accepted => Ok(()),
        Submitted::Refused(reason) => push_refusal(out, no, text_of(reason)),
    }
}

fn push_refusal(out: &mut Vec<u8>, no: RequestNo, reason: &str) -> Result<(), NoMemory>
    ensures { OnOk result (out.new.items ≡ out.old.items ++ refusal_line no.0 reason.now) }
{
    out.push(b'x')?;
    push_numbers(out, &[no.0])?;
    out.push(b' ')?;
    out.extend_from_slice(reason.as_bytes())?;
    out.push(b'\n')?;
    Ok(())
}

fn text_of(reason: Reason) -> &'static str
    ensures { result.now ≡ reason_text reason }
{
    match reason {
        Reason::Closed => "closed",
        Reason::Place => "place",
        Reason::Riders => "riders",
        Reason::Moment => "moment",
        Reason::Repeated => "repeated",
    }
}

fn push_cancelled(out: &mut Vec<u8>, no: RequestNo, cancelled: &Cancelled) -> Result<(), NoMemory>
    requires { IsPrintable (entry.Cancel no cancelled.now) }
    ensures { OnOk result
        (out.new.items ≡ out.old.items ++ cancelled_lines no.0 (text_cancelled cancelled.now)) }
{
    let removal = match cancelled {
        Cancelled::Removed(removal) => removal,
        Cancelled::Refused(reason) => return push_refusal(out, no, cancel_text_of(*reason)),
    };
    push_line(
        out,
        b'o',
        &[
            no.0,
            u64::from(removal.no.0),
            removal.pickup as u64,
            removal.dropoff as u64,
        ],
    )?;
    push_joined(
        out,
        removal.pickup,
        removal.dropoff,
        removal.walks.as_slice(),
    )
}

fn cancel_text_of(reason: CancelReason) -> &'static str
    ensures { result.now ≡ cancel_reason_text reason }
{
    match reason {
        CancelReason::Unknown => "unknown",
        CancelReason::Waiting => "waiting",
        CancelReason::Nobody => "nobody",
        CancelReason::Cancelled => "cancelled",
        CancelReason::Served => "served",
    }
}

/// Adds the walks of the legs that a removal joins, with the numbers of these legs in the new list.
fn push_joined(
    out: &mut Vec<u8>,
    pickup: usize,
    dropoff: usize,
    walks: &[Walk],
) -> Result<(), NoMemory>
    requires from_first { 1 ≤ pickup }
    requires order { pickup < dropoff }
    ensures { OnOk result (out.new.items
        ≡ out.old.items ++ walks_lines (joined_legs pickup dropoff) (nodes_of walks.now)) }
{
    let before = (pickup - 1) as u128;
    if dropoff == pickup + 1 {
        push_walks(out, &[before], walks)
    } else {
        push_walks(out, &[before, (dropoff - 2) as u128], walks)
    }
}

fn push_decision(out: &mut Vec<u8>, no: RequestNo, decision: &Decision) -> Result<(), NoMemory>
    requires { IsPrintable (entry.Commit no decision.now) }
    ensures { OnOk result (out.new.items ≡ out.old.items ++ group (entry.Commit no decision.now)) }
{
    let Decision::Assigned(assigned) = decision else {
        return push_line(out, b'n', &[no.0]);
    };
    let offer = &assigned.offer;
    push_line(
        out,
        b'a',
        &[
            no.0,
            u64::from(offer.no.0),
            offer.at.i as u64,
            offer.at.j as u64,
            offer.cost,
            offer.leave,
            offer.arrive,
        ],
    )?;
    push_changed(out, offer.at, assigned.walks.as_slice())
}

/// Adds the walks of the legs that an insertion changes, with the numbers of these legs in the new list.
fn push_changed(out: &mut Vec<u8>, at: Insertion, walks: &[Walk]) -> Result<(), NoMemory>
    requires { at.i ≤ at.j }
    ensures { OnOk result (out.new.items ≡ out.old.items
        ++ walks_lines (changed_legs at.i (at.j - at.i)) (nodes_of walks.now)) }
{
    let i = at.i as u128;
    let j = at.j as u128;
    if at.i == at.j {
        push_walks(out, &[i, i + 1, i + 2], walks)
    } else {
        push_walks(out, &[i, i + 1, j + 1, j + 2], walks)
    }
}

fn push_moved(out: &mut Vec<u8>, advanced: &Advanced) -> Result<(), NoMemory>
    ensures { OnOk result (out.new.items ≡ out.old.items ++ moved_lines advanced.now) }
{
    match advanced {
        Advanced::Moved(served) => push_served(out, served.as_slice()),
        Advanced::Back { clock } => {
            out.extend_from_slice(b"x back")?;
            push_numbers(out, &[*clock])?;
            out.push(b'\n')?;
            Ok(())
        }
    }
}

fn push_served(out: &mut Vec<u8>, served: &[(VehicleNo, Served)]) -> Result<(), NoMemory>
    ensures { OnOk result (out.new.items ≡ out.old.items ++ flat_map served_line served.now) }
{
    for (no, stop) in served {
        push_stop(out, *no, stop)?;
    }
    Ok(())
}

fn push_stop(out: &mut Vec<u8>, no: VehicleNo, stop: &Served) -> Result<(), NoMemory>
    ensures { OnOk result (out.new.items ≡ out.old.items ++ served_line (no, stop.now)) }
{
    out.push(b's')?;
    push_numbers(out, &[u64::from(no.0), stop.no.0])?;
    out.push(b' ')?;
    out.push(match stop.kind {
        StopKind::Pickup => b'p',
        StopKind::Dropoff => b'd',
    })?;
    push_numbers(out, &[u64::from(stop.node.0), stop.arr, stop.dep])?;
    out.push(b'\n')?;
    Ok(())
}
