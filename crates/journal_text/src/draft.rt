ghost use Rattle.std.specs.Prelude.{◌≡◌, ◌≤◌, ◌<◌, ℕ, List, true, OnErr, IfOk, IsSome, length};
ghost use Rattle.road_graph.specs.declared.road.NodeNo.{NodeNo};
ghost use Rattle.journal_text.specs.LineParts.{and_then};
ghost use Rattle.journal_text.specs.LineRuns.{nodes_of_line, pairs_of_line};
ghost use Rattle.journal_text.specs.Drafts.{Takes, new_draft, draft_step, with_head, refuse_step, remove_step, serve_step, walk_step, longer_step};
ghost use Rattle.journal_text.specs.Drafts.{potential_step, pairs_step, direct_step, longer_direct_step, direct_in, next_leg_of, open_leg_of, behind_the, longer_by_line};
ghost use Rattle.journal_text.specs.Drafts.{next_number_with, has_walks as has_walks_of, rest_at_end, wants_direct_with};
ghost use Rattle.journal_text.specs.DraftTexts.{IsDraft, is_head};

use crate::fields::{behind_number, last_rest};
use crate::heads::{Head, served_of};
use crate::legs::{is_ahead, leg_of, most_walks, number_of_next};
use crate::longer::{
    are_pairs_full, is_full, last_node, last_walk, lengthen, lengthen_last, list_more,
};
use crate::outcomes::{is_clock, refused, removed};
use crate::runs::{NODES_ON_LINE, NodeRun, PairRun, nodes_on_line, pairs_on_line};
use plain_search::Potential;
use ride_base::{Items, NoMemory, VehicleNo};
use road_graph::NodeNo;
use std::alloc::Global;
use stop_advance::Served;

/// The direct walk of a certificate.
#[derive(Drop)]
pub(crate) enum Direct {
    /// It was not read yet.
    Ahead,
    /// There is none.
    Absent,
    /// These are its nodes so far.
    Walk(Items<NodeNo>),
}

/// A group as far as its lines were read.
#[derive(Drop)]
pub(crate) struct Draft {
    pub(crate) line: u64,
    pub(crate) head: Head,
    pub(crate) served: Items<(VehicleNo, Served)>,
    pub(crate) walks: Items<Items<NodeNo>>,
    pub(crate) potentials: Items<Potential>,
    pub(crate) direct: Direct,
}

impl Draft {
    /// A group whose first line has that number and came to that head. It takes no memory.
    pub(crate) fn new(alloc: Global, line: u64, head: Head) -> Draft
        ensures { result ≡ new_draft line head }
    {
        Draft {
            line,
            head,
            served: Items::new(alloc),
            walks: Items::new(alloc),
            potentials: Items::new(alloc),
            direct: Direct::Ahead,
        }
    }

    /// Adds what a line says, and answers whether it goes on with the group. Where it doesn't, and at want of memory, nothing changes.
    pub(crate) fn add(&mut self, alloc: Global, line: &[u8]) -> Result<bool, NoMemory>
        requires { IsDraft self.old }
        ensures ok { IfOk result
            (λ taken. Takes (draft_step self.old line.now) self.old taken self.new) }
        ensures err { OnErr result (self.new ≡ self.old) }
    {
        let (letter, rest) = match line.split_first() {
            Some(cut) => cut,
            None => return Ok(false),
        };
        match *letter {
            b'x' => Ok(self.refuse(rest)),
            b's' => self.serve(rest),
            b'o' => Ok(self.remove(rest)),
            b'g' => self.begin_walk(alloc, rest),
            b'h' => self.lengthen_walk(alloc, rest),
            b'u' => self.begin_potential(alloc, rest),
            b'w' => self.list_pairs(alloc, rest),
            b'e' => self.begin_direct(alloc, rest),
            b'f' => self.lengthen_direct(alloc, rest),
            _ => Ok(false),
        }
    }

    /// Puts another head in the place of the one that is there, where there is one.
    fn put_head(&mut self, head: Option<Head>) -> bool
        ensures { Takes (with_head self.old head) self.old result self.new }
    {
        match head {
            Some(head) => {
                self.head = head;
                true
            }
            None => false,
        }
    }

    /// `x`, which refuses what was asked for
    fn refuse(&mut self, rest: &[u8]) -> bool
        ensures { Takes (refuse_step self.old rest.now) self.old result self.new }
    {
        let head = refused(self.head, &self.served, rest);
        self.put_head(head)
    }

    /// `o`, what was taken out
    fn remove(&mut self, rest: &[u8]) -> bool
        ensures { Takes (remove_step self.old rest.now) self.old result self.new }
    {
        let head = removed(self.head, rest);
        self.put_head(head)
    }

    /// `s`, a stop that was reached
    fn serve(&mut self, rest: &[u8]) -> Result<bool, NoMemory>
        ensures ok { IfOk result
            (λ taken. Takes (serve_step self.old rest.now) self.old taken self.new) }
        ensures err { OnErr result (self.new ≡ self.old) }
    {
        if !is_clock(self.head) {
            return Ok(false);
        }
        match served_of(rest) {
            Some(stop) => {
                self.served.push(stop)?;
                Ok(true)
            }
            None => Ok(false),
        }
    }

    /// `g LEG N1 .. Nk`, which begins a walk
    fn begin_walk(&mut self, alloc: Global, rest: &[u8]) -> Result<bool, NoMemory>
        requires { is_head self.old.head ≡ true }
        ensures ok { IfOk result
            (λ taken. Takes (walk_step self.old rest.now) self.old taken self.new) }
        ensures err { OnErr result (self.new ≡ self.old) }
    {
        match nodes_behind(self.next_leg(), rest) {
            Some(run) => {
                self.walks.push(Items::from_slice(alloc, run.as_slice())?)?;
                Ok(true)
            }
            None => Ok(false),
        }
    }

    /// `h LEG Nx .. Ny`, more nodes of the last walk
    fn lengthen_walk(&mut self, alloc: Global, rest: &[u8]) -> Result<bool, NoMemory>
        requires { is_head self.old.head ≡ true }
        ensures ok { IfOk result
            (λ taken. Takes (longer_step self.old rest.now) self.old taken self.new) }
        ensures err { OnErr result (self.new ≡ self.old) }
    {
        match nodes_behind(self.open_leg(), rest) {
            Some(run) => lengthen_last(alloc, &mut self.walks, run.as_slice()),
            None => Ok(false),
        }
    }

    /// The leg of the next walk, where one may come.
    fn next_leg(&self) -> Option<u64>
        requires { is_head self.now.head ≡ true }
        ensures { result ≡ next_leg_of self.now }
    {
        if self.potentials.is_empty() && self.walks.len() < most_walks(self.head) {
            leg_of(self.head, self.walks.len())
        } else {
            None
        }
    }

    /// The leg of the last walk, where it may go on.
    fn open_leg(&self) -> Option<u64>
        requires { is_head self.now.head ≡ true }
        ensures leg { result ≡ open_leg_of self.now }
        ensures some { IsSome result → 0 < length self.now.walks }
    {
        if self.potentials.is_empty() && is_full(last_walk(&self.walks)) {
            leg_of(self.head, self.walks.len() - 1)
        } else {
            None
        }
    }

    /// Whether there are as many walks as the group has, of which the last may be left out.
    pub(crate) fn has_walks(&self) -> bool
        requires { is_head self.now.head ≡ true }
        ensures { result ≡ has_walks_of self.now }
    {
        most_walks(self.head).saturating_sub(1) <= self.walks.len()
    }

    /// `u W REST`, which begins a potential
    fn begin_potential(&mut self, alloc: Global, rest: &[u8]) -> Result<bool, NoMemory>
        requires head { is_head self.old.head ≡ true }
        requires few { length self.old.potentials ≤ 4 }
        ensures ok { IfOk result
            (λ taken. Takes (potential_step self.old rest.now) self.old taken self.new) }
        ensures err { OnErr result (self.new ≡ self.old) }
    {
        match rest_behind(self.next_number(), rest) {
            Some(rest) => {
                let listed = Items::new(alloc);
                self.potentials.push(Potential { listed, rest })?;
                Ok(true)
            }
            None => Ok(false),
        }
    }

    /// The number of the next potential, where one may come.
    fn next_number(&self) -> Option<u64>
        requires head { is_head self.now.head ≡ true }
        requires few { length self.now.potentials ≤ 4 }
        ensures { result ≡ next_number_with self.now.head self.now.direct (has_walks_of self.now)
            (length self.now.potentials) (length self.now.walks) }
    {
        number_of_next(
            self.head,
            &self.direct,
            self.has_walks(),
            self.potentials.len(),
            self.walks.len(),
        )
    }

    /// `w N V N V ..`, more pairs of the last potential
    fn list_pairs(&mut self, alloc: Global, rest: &[u8]) -> Result<bool, NoMemory>
        ensures ok { IfOk result
            (λ taken. Takes (pairs_step self.old rest.now) self.old taken self.new) }
        ensures err { OnErr result (self.new ≡ self.old) }
    {
        if !is_ahead(&self.direct) || !are_pairs_full(&self.potentials) {
            return Ok(false);
        }
        match pairs_on_line(rest, last_node(&self.potentials)) {
            Some(run) => {
                list_more(alloc, &mut self.potentials, run.as_slice())?;
                Ok(true)
            }
            None => Ok(false),
        }
    }

    /// `e N1 .. Nk`, or `e -`, which begins the direct walk
    fn begin_direct(&mut self, alloc: Global, rest: &[u8]) -> Result<bool, NoMemory>
        ensures ok { IfOk result
            (λ taken. Takes (direct_step self.old rest.now) self.old taken self.new) }
        ensures err { OnErr result (self.new ≡ self.old) }
    {
        if !self.wants_direct() {
            return Ok(false);
        }
        match direct_of(alloc, rest)? {
            Some(direct) => {
                self.direct = direct;
                Ok(true)
            }
            None => Ok(false),
        }
    }

    /// Whether four potentials were read, and the direct walk wasn't begun.
    fn wants_direct(&self) -> bool
        ensures { result ≡
            wants_direct_with self.now.head self.now.direct (length self.now.potentials) }
    {
        match self.head {
            Head::Offer(_, _) => is_ahead(&self.direct) && self.potentials.len() == 4,
            Head::Nobody(_) => is_ahead(&self.direct) && self.potentials.len() == 4,
            _ => false,
        }
    }

    /// `f Nx .. Ny`, more nodes of the direct walk
    fn lengthen_direct(&mut self, alloc: Global, rest: &[u8]) -> Result<bool, NoMemory>
        ensures ok { IfOk result
            (λ taken. Takes (longer_direct_step self.old rest.now) self.old taken self.new) }
        ensures err { OnErr result (self.new ≡ self.old) }
    {
        match &mut self.direct {
            Direct::Walk(nodes) => lengthen_by_line(alloc, nodes, rest),
            _ => Ok(false),
        }
    }
}

/// The nodes behind the number of a leg, where there is such a leg.
fn nodes_behind(leg: Option<u64>, rest: &[u8]) -> Option<NodeRun>
    ensures { result ≡ and_then leg (λ (leg : ℕ). and_then (behind_the rest.now leg)
        (λ (text : List ℕ). nodes_of_line text)) }
{
    nodes_on_line(behind_number(rest, leg?)?)
}

/// The value behind the number of a potential, where there is such a potential.
fn rest_behind(number: Option<u64>, rest: &[u8]) -> Option<Option<u64>>
    ensures { result ≡ and_then number (λ (number : ℕ). and_then (behind_the rest.now number)
        (λ (text : List ℕ). rest_at_end text)) }
{
    last_rest(behind_number(rest, number?)?)
}

/// What ` -`, or the nodes of a line, say of the direct walk.
fn direct_of(alloc: Global, rest: &[u8]) -> Result<Option<Direct>, NoMemory>
    ensures { IfOk result (λ direct. direct ≡ direct_in rest.now) }
{
    if rest == b" -".as_slice() {
        return Ok(Some(Direct::Absent));
    }
    match nodes_on_line(rest) {
        Some(run) => Ok(Some(Direct::Walk(Items::from_slice(alloc, run.as_slice())?))),
        None => Ok(None),
    }
}

/// Puts the nodes of a line at the end of a walk whose last line is full.
fn lengthen_by_line(alloc: Global, walk: &mut Items<NodeNo>, rest: &[u8]) -> Result<bool, NoMemory>
    ensures ok { IfOk result
        (λ taken. Takes (longer_by_line walk.old rest.now) walk.old taken walk.new) }
    ensures err { OnErr result (walk.new ≡ walk.old) }
{
    if walk.len() % NODES_ON_LINE != 0 {
        return Ok(false);
    }
    match nodes_on_line(rest) {
        Some(run) => lengthen(alloc, walk, run.as_slice()),
        None => Ok(false),
    }
}
