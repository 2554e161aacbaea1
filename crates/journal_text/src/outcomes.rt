ghost use Rattle.std.specs.Prelude.{◌≡◌, true};
ghost use Rattle.journal_text.specs.LineParts.{and_then};
ghost use Rattle.journal_text.specs.LineHeads.{behind_in, cancel_refusal_in, removal_in};
ghost use Rattle.journal_text.specs.Drafts.{refused_head, removed_head, is_clock as is_clock_of};
ghost use Rattle.journal_text.specs.declared.heads.Head.TheVariants as head;
ghost use Rattle.ride_base.specs.declared.numbers.VehicleNo.{VehicleNo};
ghost use Rattle.stop_advance.specs.declared.served.Served.{Served};
ghost use Rattle.journal_text.specs.declared.heads.RemovalHead.{RemovalHead as Removed};
ghost use Rattle.board_core.specs.declared.entry.CancelReason.{CancelReason};
ghost use Rattle.std.specs.Prelude.{ℕ, List, Some};

use crate::heads::{Head, behind_of, cancel_refusal_of, refusal_of, removal_of};
use board_core::Submitted;
use ride_base::{Items, RequestNo, VehicleNo};
use stop_advance::Served;
use stop_schedule::Request;

/// What a head comes to by a line `x`, which refuses what was asked for. None exactly where the group wants no such line.
pub(crate) fn refused(head: Head, served: &Items<(VehicleNo, Served)>, rest: &[u8]) -> Option<Head>
    ensures { result ≡ refused_head head served.now rest.now }
{
    match head {
        Head::Ride(request, submitted) => refused_ride(request, submitted, rest),
        Head::Clock(now) => {
            if served.is_empty() {
                held_clock(now, rest)
            } else {
                None
            }
        }
        Head::Asked(asked) => declined(asked, rest),
        _ => None,
    }
}

/// ` ID REASON` under a request, which was not refused yet
fn refused_ride(request: Request, submitted: Submitted, rest: &[u8]) -> Option<Head>
    ensures { (served : List (VehicleNo × Served))
        → result ≡ refused_head (head.Ride request submitted) served rest.now }
{
    match submitted {
        Submitted::Accepted => {
            let reason = refusal_of(rest, request.no)?;
            Some(Head::Ride(request, Submitted::Refused(reason)))
        }
        Submitted::Refused(_) => None,
    }
}

/// ` back CLOCK` under a move of the clock
fn held_clock(now: u64, rest: &[u8]) -> Option<Head>
    ensures { result ≡ and_then (behind_in rest.now) (λ (clock : ℕ). Some (head.Behind now clock)) }
{
    let clock = behind_of(rest)?;
    Some(Head::Behind(now, clock))
}

/// ` ID REASON` under a cancellation
fn declined(asked: RequestNo, rest: &[u8]) -> Option<Head>
    ensures { result ≡ and_then (cancel_refusal_in rest.now asked)
        (λ (reason : CancelReason). Some (head.Declined asked reason)) }
{
    let reason = cancel_refusal_of(rest, asked)?;
    Some(Head::Declined(asked, reason))
}

/// What a head comes to by a line `o`, which tells what was taken out. None exactly where the group wants no such line.
pub(crate) fn removed(head: Head, rest: &[u8]) -> Option<Head>
    ensures { result ≡ removed_head head rest.now }
{
    match head {
        Head::Asked(asked) => taken_out(asked, rest),
        _ => None,
    }
}

/// ` ID VEHICLE A B` under a cancellation
fn taken_out(asked: RequestNo, rest: &[u8]) -> Option<Head>
    ensures { result ≡ and_then (removal_in rest.now asked)
        (λ (x : Removed). Some (head.Removal asked x)) }
{
    let removal = removal_of(rest, asked)?;
    Some(Head::Removal(asked, removal))
}

/// Whether the clock moved, so that stops may have been reached.
pub(crate) fn is_clock(head: Head) -> bool
    ensures { result ≡ is_clock_of head }
{
    matches!(head, Head::Clock(_))
}
