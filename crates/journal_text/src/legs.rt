ghost use Rattle.std.specs.Prelude.{◌≡◌, ◌≤◌, ◌<◌, ◌+◌, ◌==◌, ◌&&◌, nat_lt, cond, true, Some, None};
ghost use Rattle.journal_text.specs.Drafts.{most_walks_of, changed_leg_of, joined_leg_of, leg_of as leg_in, next_number_with, is_ahead as is_ahead_of};
ghost use Rattle.journal_text.specs.DraftTexts.{is_head};

use crate::draft::Direct;
use crate::heads::{Head, RemovalHead};
use stop_schedule::Insertion;

/// The most potentials of a certificate.
const MOST_POTENTIALS: usize = 4;

/// The number of the potential from the first node of the first joined walk.
const FIRST_JOIN: u64 = 5;

/// How many walks a group has at most; the last one may be left out.
pub(crate) fn most_walks(head: Head) -> usize
    requires { is_head head ≡ true }
    ensures { result ≡ most_walks_of head }
{
    match head {
        Head::Offer(_, offer) => most_changed(offer.at),
        Head::Removal(_, removal) => most_joined(removal),
        _ => 0,
    }
}

/// How many legs an insertion changes at most.
fn most_changed(at: Insertion) -> usize
    ensures { result ≡ cond (at.i == at.j) 3 4 }
{
    if at.i == at.j { 3 } else { 4 }
}

/// How many legs a removal joins at most.
fn most_joined(removal: RemovalHead) -> usize
    requires { removal.pickup < removal.dropoff }
    ensures { result ≡ cond (removal.dropoff == removal.pickup + 1) 1 2 }
{
    if removal.dropoff == removal.pickup + 1 {
        1
    } else {
        2
    }
}

/// The leg of the walk of that index, in the new list of stops.
pub(crate) fn leg_of(head: Head, index: usize) -> Option<u64>
    requires { is_head head ≡ true }
    ensures { result ≡ leg_in head index }
{
    match head {
        Head::Offer(_, offer) => Some(changed_leg(offer.at, index)),
        Head::Removal(_, removal) => Some(joined_leg(removal, index)),
        _ => None,
    }
}

/// The leg that an insertion changes, of that index among those that it may change.
fn changed_leg(at: Insertion, index: usize) -> u64
    requires order { at.i ≤ at.j }
    requires few { at.j ≤ 64 }
    ensures { result ≡ changed_leg_of at index }
{
    let leg = if index == 0 {
        at.i
    } else if index == 1 {
        at.i + 1
    } else if index == 2 {
        third_leg(at)
    } else {
        at.j + 2
    };
    leg as u64
}

/// The third of them.
fn third_leg(at: Insertion) -> usize
    requires order { at.i ≤ at.j }
    requires few { at.j ≤ 64 }
    ensures { result ≡ changed_leg_of at 2 }
{
    if at.i == at.j { at.i + 2 } else { at.j + 1 }
}

/// The leg that a removal joins, of that index.
fn joined_leg(removal: RemovalHead, index: usize) -> u64
    requires first { 1 ≤ removal.pickup }
    requires order { removal.pickup < removal.dropoff }
    ensures { result ≡ joined_leg_of removal index }
{
    if index == 0 {
        (removal.pickup - 1) as u64
    } else {
        (removal.dropoff - 2) as u64
    }
}

/// The number of the next potential, where so many were read and there are so many walks. None exactly where none may come.
pub(crate) fn number_of_next(
    head: Head,
    direct: &Direct,
    has_walks: bool,
    potentials: usize,
    walks: usize,
) -> Option<u64>
    requires { potentials ≤ 4 }
    ensures { result ≡ next_number_with head direct.now has_walks potentials walks }
{
    if !has_walks {
        return None;
    }
    match head {
        Head::Offer(_, _) => number_in_proof(direct, potentials),
        Head::Nobody(_) => number_in_proof(direct, potentials),
        Head::Removal(_, _) => number_of_join(potentials, walks),
        _ => None,
    }
}

/// The number of the next potential of a certificate, of which so many were read.
fn number_in_proof(direct: &Direct, potentials: usize) -> Option<u64>
    ensures { result ≡
        cond (is_ahead_of direct.now && nat_lt potentials 4) (Some (potentials + 1)) None }
{
    if is_ahead(direct) && potentials < MOST_POTENTIALS {
        Some(potentials as u64 + 1)
    } else {
        None
    }
}

/// The number of the next potential of joined legs, of which so many were read.
fn number_of_join(potentials: usize, walks: usize) -> Option<u64>
    requires { potentials ≤ 4 }
    ensures { result ≡ cond (nat_lt potentials walks) (Some (potentials + 5)) None }
{
    if potentials < walks {
        Some(potentials as u64 + FIRST_JOIN)
    } else {
        None
    }
}

/// Whether the direct walk was not read yet.
pub(crate) fn is_ahead(direct: &Direct) -> bool
    ensures { result ≡ is_ahead_of direct.now }
{
    matches!(direct, Direct::Ahead)
}
