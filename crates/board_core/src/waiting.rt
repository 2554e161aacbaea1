ghost use Rattle.std.specs.Prelude.{◌≡◌, ℕ, ◌+◌, ◌*◌, ◌<◌, ◌≤◌, ◌^◌, ◌∷◌, ◌++◌, [], None, Some};
ghost use Rattle.std.specs.Prelude.{length, drop, IfOk, OnOk, OnErr, option_copied, option_map};
ghost use Rattle.std.specs.Prelude.{slice_index, slice_set};
ghost use Rattle.std.specs.BTreeMap.{IsOrdered, Updates};
ghost use Rattle.std.specs.Ordering.{nat_cmp};
ghost use Rattle.board_core.specs.Arrivals.{leaves_of};
ghost use Rattle.board_core.specs.Queues.{HasLeavesOf, IsLeast, IsLonger, IsSignTree, by_number};
ghost use Rattle.board_core.specs.Queues.{key_at, sign_of, signs_of, unheld_in, waiting_in};
ghost use Rattle.board_core.specs.Queues.{with_holder, without};
ghost use Rattle.board_core.specs.WaitingLaws.{AreFoundByNumber, HaveOwnNumbers};

use crate::arrivals::put_leaf;
use ride_base::{NoMemory, RequestNo};
use slab::Slab;
use std::alloc::{AllocError, Global};
use std::collections::BTreeMap;
use std::marker::Model;
use stop_schedule::Request;

/// A request that waits, and the desk that holds it.
#[derive(Clone, Copy, Debug, PartialEq, Eq)]
pub struct Waiting {
    /// The request.
    pub request: Request,
    /// The desk.
    pub holder: Option<u64>,
}

/// The sign of a key whose request a desk holds, or which has no request.
const NO_SIGN: u64 = u64::MAX;

/// A request that waits, and its arrival: those that were accepted later have larger ones.
#[derive(Clone, Copy, Debug)]
struct Kept {
    waiting: Waiting,
    arrival: u64,
}

impl Kept {
    /// The arrival of a request that no desk holds, and otherwise `NO_SIGN`.
    fn sign(self) -> u64
        ensures { result ≡ sign_of self }
    {
        match self.waiting.holder {
            None => self.arrival,
            Some(_) => NO_SIGN,
        }
    }
}

/// A sign for each key, of which the least is found at once: a tournament tree, whose leaves are the last half of its nodes.
#[derive(Debug, Drop)]
struct Signs {
    tree: Vec<u64>,
}

impl Model for Signs {
    ghost use Rattle.std.specs.Prelude.{ℕ, List};
    ghost use Rattle.board_core.specs.Queues.{IsSignTree, signs_of};

    ghost Value = { List ℕ };

    ghost view = { λ s. signs_of s.tree.items };

    ghost invariant = { λ s. IsSignTree s.tree.items };
}

impl Signs {
    /// No key.
    fn new(alloc: Global) -> Signs
        ensures { result ≡ [] }
    {
        Signs {
            tree: Vec::new(alloc),
        }
    }

    /// Sets the sign of a key.
    fn set(&mut self, key: usize, sign: u64)
        requires { key < length self.old }
        ensures { self.new ≡ slice_set self.old key sign }
    {
        put_leaf(&mut self.tree, key, sign);
    }

    /// The least sign, or `NO_SIGN` where there is no key.
    fn least(&self) -> u64
        ensures { IsLeast self.now result }
    {
        match self.tree.get(1) {
            Some(least) => *least,
            None => NO_SIGN,
        }
    }

    /// Makes room for a key: each one that is added has `NO_SIGN`. After an error nothing has changed.
    fn reserve(&mut self, alloc: Global, key: usize) -> Result<(), NoMemory>
        ensures room { OnOk result (key < length self.new) }
        ensures ok { OnOk result (IsLonger self.old self.new) }
        ensures err { OnErr result (self.new ≡ self.old) }
    {
        if key < self.tree.len() / 2 {
            return Ok(());
        }
        self.tree = widened(alloc, &self.tree, key)?;
        Ok(())
    }
}

/// A tree of the same signs, and of `NO_SIGN` for more keys: up to the given one, and as many again. There is none for keys of 2^60
/// and more.
fn widened(alloc: Global, tree: &[u64], key: usize) -> Result<Vec<u64>, NoMemory>
    requires many { length tree.now ≡ 2 * leaves_of tree.now }
    requires key { leaves_of tree.now ≤ key }
    ensures tree { IfOk result (λ wider. IsSignTree wider.items) }
    ensures room { IfOk result (λ wider. key < leaves_of wider.items) }
    ensures longer { IfOk result (λ wider. IsLonger (signs_of tree.now) (signs_of wider.items)) }
{
    if key >= 1 << 60 {
        return Err(AllocError);
    }
    let mut wider = vec![in alloc; NO_SIGN; 4 * key + 4]?;
    copy_leaves(tree, &mut wider);
    Ok(wider)
}

/// Sets the first leaves of a tree to those of another one.
fn copy_leaves(from: &[u64], to: &mut [u64])
    requires from { length from.now ≡ 2 * leaves_of from.now }
    requires tree { IsSignTree to.old }
    requires room { leaves_of from.now ≤ leaves_of to.old }
    ensures tree { IsSignTree to.new }
    ensures copied { HasLeavesOf from.now to.old to.new }
{
    let leaves = from.len() / 2;
    for at in 0..leaves {
        put_leaf(to, at, from[leaves + at]);
    }
}

/// The requests that wait, in the order in which they were accepted. They stand in a slab; their keys are found by arrival and by
/// number, and the sign of a key is the arrival of its request, if no desk holds it.
#[derive(Debug, Drop)]
pub struct Queue {
    kept: Slab<Kept>,
    order: BTreeMap<u64, usize>,
    numbers: BTreeMap<RequestNo, usize>,
    unheld: Signs,
    next: u64,
    alloc: Global,
}

impl Model for Queue {
    ghost use Rattle.std.specs.Prelude.{List};
    ghost use Rattle.board_core.specs.Queues.{IsQueue, Waiting, in_order};

    ghost Value = { List Waiting };

    ghost view = { λ q. in_order q.order.entries q.kept.slots };

    ghost invariant = { λ q.
        IsQueue q.kept.slots q.order.entries q.numbers.entries q.unheld q.next };
}

impl Queue {
    /// No request.
    pub fn new(alloc: Global) -> Queue
        ensures { result ≡ [] }
    {
        Queue {
            kept: Slab::new(alloc),
            order: BTreeMap::new(alloc),
            numbers: BTreeMap::new(alloc),
            unheld: Signs::new(alloc),
            next: 0,
            alloc,
        }
    }

    /// The request of a number that waits.
    pub fn find(&self, no: RequestNo) -> Option<&Waiting>
        ensures { option_copied result ≡ waiting_in self.now no }
    {
        let key = *self.numbers.get(&no)?;
        let kept = self.kept.get(key)?;
        Some(&kept.waiting)
    }

    /// Each request is found by its number, and no two have one. It does nothing: the laws are its contract.
    pub fn are_found(&self)
        ensures found { AreFoundByNumber self.now }
        ensures apart { HaveOwnNumbers self.now }
    {
        let _next = self.next;
    }

    /// The oldest one that no desk holds.
    pub fn oldest_unheld(&self) -> Option<&Waiting>
        ensures { option_copied result ≡ unheld_in self.now }
    {
        let key = *self.order.get(&self.unheld.least())?;
        let kept = self.kept.get(key)?;
        Some(&kept.waiting)
    }

    /// Puts a request at the end. After an error, which also comes after 2^64 - 1 requests, nothing has changed.
    pub fn push(&mut self, waiting: Waiting) -> Result<(), NoMemory>
        requires { waiting_in self.old waiting.request.no ≡ None }
        ensures ok { OnOk result (self.new ≡ self.old ++ waiting ∷ []) }
        ensures err { OnErr result (self.new ≡ self.old) }
    {
        let arrival = self.next;
        if arrival == NO_SIGN {
            return Err(AllocError);
        }
        let key = self.kept.vacant_key();
        self.unheld.reserve(self.alloc, key)?;
        self.kept.reserve(1)?;
        enlist(
            &mut self.order,
            &mut self.numbers,
            arrival,
            waiting.request.no,
            key,
        )?;
        let kept = Kept { waiting, arrival };
        self.kept.insert_reserved(kept);
        self.unheld.set(key, kept.sign());
        self.next = arrival + 1;
        Ok(())
    }

    /// Gives the request of a number another holder, or none.
    pub fn hold(&mut self, no: RequestNo, holder: Option<u64>)
        ensures { self.new ≡ with_holder no holder self.old }
    {
        let Some(key) = self.numbers.get(&no).copied() else {
            return;
        };
        if let Some(kept) = self.kept.get_mut(key) {
            kept.waiting.holder = holder;
            let sign = kept.sign();
            self.unheld.set(key, sign);
        }
    }

    /// Takes the request of a number out.
    pub fn remove(&mut self, no: RequestNo)
        ensures { self.new ≡ without no self.old }
    {
        let Some(key) = self.numbers.remove(&no) else {
            return;
        };
        if let Some(kept) = self.kept.try_remove(key) {
            self.order.remove(&kept.arrival);
            self.unheld.set(key, NO_SIGN);
        }
    }
}

/// Enters a key under its arrival, which is behind all others, and under its number. After an error nothing has changed.
fn enlist(
    order: &mut BTreeMap<u64, usize>,
    numbers: &mut BTreeMap<RequestNo, usize>,
    arrival: u64,
    no: RequestNo,
    key: usize,
) -> Result<(), NoMemory>
    requires { (other : ℕ) → arrival ≤ other → key_at order.old.entries other ≡ None }
    ensures order { OnOk result (order.new.entries ≡ order.old.entries ++ (arrival, key) ∷ []) }
    ensures arrivals { OnOk result (Updates nat_cmp order.old order.new arrival (Some key)) }
    ensures rising { OnOk result (IsOrdered nat_cmp order.new) }
    ensures numbers { OnOk result (Updates by_number numbers.old numbers.new no (Some key)) }
    ensures err { OnErr result ((order.new.entries ≡ order.old.entries)
        × (numbers.new.entries ≡ numbers.old.entries)) }
{
    order.insert(arrival, key)?;
    if numbers.insert(no, key).is_err() {
        order.remove(&arrival);
        return Err(AllocError);
    }
    Ok(())
}
