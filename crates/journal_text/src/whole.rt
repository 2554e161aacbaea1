ghost use Rattle.std.specs.Prelude.{◌≡◌, true};
ghost use Rattle.journal_text.specs.Drafts.{is_whole_draft, has_proof_or_none, goes_on_in_line, head_goes_on_in, walks_go_on_in, direct_goes_on_in, pairs_go_on_in};
ghost use Rattle.journal_text.specs.DraftTexts.{IsDraft, is_head, entry_of as entry_in, offer_of as offer_in, removal_of as removal_in, group_of, certificate_of};
ghost use Rattle.journal_text.specs.TextGroups.{is_field_end as is_field_end_in};

use crate::certificate::Certificate;
use crate::draft::{Direct, Draft};
use crate::groups::Group;
use crate::heads::{Head, OfferHead, RemovalHead};
use crate::longer::{are_pairs_full, is_full, last_walk};
use crate::text::{TextCancelled, TextDecision, TextEntry, TextOffer, TextRemoval};
use board_core::{Advanced, Submitted};
use plain_search::Potential;
use ride_base::{Items, VehicleNo};
use road_graph::NodeNo;
use std::alloc::Global;
use stop_advance::Served;

impl Draft {
    /// Whether the lines that were read are those of a whole group.
    pub(crate) fn is_whole(&self) -> bool
        requires { is_head self.now.head ≡ true }
        ensures { result ≡ is_whole_draft self.now }
    {
        match self.head {
            Head::Asked(_) => false,
            Head::Offer(_, _) => self.has_walks() && self.has_proof_or_none(),
            Head::Nobody(_) => self.has_proof_or_none(),
            Head::Removal(_, _) => self.has_walks(),
            _ => true,
        }
    }

    /// Whether a certificate was read to its direct walk, or wasn't begun.
    fn has_proof_or_none(&self) -> bool
        ensures { result ≡ has_proof_or_none self.now.direct self.now.potentials }
    {
        match &self.direct {
            Direct::Ahead => self.potentials.is_empty(),
            _ => true,
        }
    }

    /// Whether a line belongs to the group that was read and is whole, whatever else stands behind its letter.
    pub(crate) fn goes_on(&self, line: &[u8]) -> bool
        ensures { result ≡ goes_on_in_line self.now line.now }
    {
        match line.split_first() {
            Some((letter, rest)) => is_field_end(rest) && self.goes_on_with(*letter),
            None => false,
        }
    }

    /// Whether a line of that letter belongs to it.
    fn goes_on_with(&self, letter: u8) -> bool
        ensures { result ≡ head_goes_on_in self.now.head self.now letter }
    {
        match self.head {
            Head::Ride(_, Submitted::Accepted) => letter == b'x',
            Head::Clock(_) => letter == b's' || letter == b'x' && self.served.is_empty(),
            Head::Offer(_, _) => {
                letter == b'u' || self.walks_go_on(letter) || self.direct_goes_on(letter)
            }
            Head::Nobody(_) => letter == b'u' || self.direct_goes_on(letter),
            Head::Removal(_, _) => {
                letter == b'u' || self.walks_go_on(letter) || self.pairs_go_on(letter)
            }
            _ => false,
        }
    }

    fn walks_go_on(&self, letter: u8) -> bool
        ensures { result ≡ walks_go_on_in self.now letter }
    {
        self.potentials.is_empty()
            && (letter == b'g' || letter == b'h' && is_full(last_walk(&self.walks)))
    }

    fn pairs_go_on(&self, letter: u8) -> bool
        ensures { result ≡ pairs_go_on_in self.now letter }
    {
        letter == b'w' && are_pairs_full(&self.potentials)
    }

    fn direct_goes_on(&self, letter: u8) -> bool
        ensures { result ≡ direct_goes_on_in self.now letter }
    {
        match &self.direct {
            Direct::Walk(nodes) => letter == b'f' && is_full(nodes.as_slice()),
            _ => false,
        }
    }

    /// The group of the lines that were read, where they are whole.
    pub(crate) fn into_group(self, alloc: Global) -> Group
        ensures { result ≡ group_of self }
    {
        let Draft {
            line,
            head,
            served,
            walks,
            potentials,
            direct,
        } = self;
        let (proof, joins) = match direct {
            Direct::Ahead => (None, potentials),
            Direct::Absent => (certificate(potentials, None), Items::new(alloc)),
            Direct::Walk(nodes) => (certificate(potentials, Some(nodes)), Items::new(alloc)),
        };
        Group {
            line,
            entry: entry_of(head, served, walks),
            proof,
            joins,
        }
    }
}

/// A field ends here: nothing is left, or a space is next.
fn is_field_end(rest: &[u8]) -> bool
    ensures { result ≡ is_field_end_in rest.now }
{
    match rest.first() {
        Some(byte) => *byte == b' ',
        None => true,
    }
}

/// The entry of a head, with its stops and walks. A cancellation of which no more was read has none, and nobody asks for it.
fn entry_of(
    head: Head,
    served: Items<(VehicleNo, Served)>,
    walks: Items<Items<NodeNo>>,
) -> TextEntry
    ensures { result ≡ entry_in head served walks }
{
    match head {
        Head::Ride(request, submitted) => TextEntry::Submit(request, submitted),
        Head::Claim(asked, desk) => TextEntry::Claim(asked, desk),
        Head::Back(asked) => TextEntry::Back(asked),
        Head::Offer(asked, offer) => {
            TextEntry::Commit(asked, TextDecision::Assigned(offer_of(offer, walks)))
        }
        Head::Nobody(asked) => TextEntry::Commit(asked, TextDecision::Nobody),
        Head::Clock(now) => TextEntry::Advance(now, Advanced::Moved(served)),
        Head::Behind(now, clock) => TextEntry::Advance(now, Advanced::Back { clock }),
        Head::Asked(_) => TextEntry::Shut,
        Head::Declined(asked, reason) => TextEntry::Cancel(asked, TextCancelled::Refused(reason)),
        Head::Removal(asked, removal) => {
            TextEntry::Cancel(asked, TextCancelled::Removed(removal_of(removal, walks)))
        }
        Head::Shut => TextEntry::Shut,
    }
}

fn offer_of(head: OfferHead, walks: Items<Items<NodeNo>>) -> TextOffer
    ensures { result ≡ offer_in head walks }
{
    TextOffer {
        no: head.no,
        at: head.at,
        cost: head.cost,
        leave: head.leave,
        arrive: head.arrive,
        walks,
    }
}

fn removal_of(head: RemovalHead, walks: Items<Items<NodeNo>>) -> TextRemoval
    ensures { result ≡ removal_in head walks }
{
    TextRemoval {
        no: head.no,
        pickup: head.pickup,
        dropoff: head.dropoff,
        walks,
    }
}

/// The certificate of four potentials; None where there are more or fewer.
fn certificate(potentials: Items<Potential>, direct: Option<Items<NodeNo>>) -> Option<Certificate>
    ensures { result ≡ certificate_of potentials direct }
{
    let mut held = potentials.into_vec();
    let from_dropoff = held.pop()?;
    let to_dropoff = held.pop()?;
    let from_pickup = held.pop()?;
    let to_pickup = held.pop()?;
    if !held.is_empty() {
        return None;
    }
    Some(Certificate {
        to_pickup,
        from_pickup,
        to_dropoff,
        from_dropoff,
        direct,
    })
}
