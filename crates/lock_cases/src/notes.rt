//! A list of numbers under the lock, and what desks do with it.
ghost use Rattle.std.specs.Prelude.{◌≡◌, ℕ, ◌+◌, ◌<◌, ◌≤◌, [], ◌∷◌, ◌++◌, OnOk, OnErr, IfOk, IfSome, Some, length};
ghost use Rattle.std.specs.Thread.{IsSync};
ghost use Rattle.turn_lock.specs.Desks.{own, fresh_desks};
ghost use Rattle.turn_lock.specs.Noted.{Begins, Follows};

use std::alloc::{AllocError, Global};
use std::sync::Wait;
use std::thread::{Threads, join};
use turn_lock::{Desk, Recorded, TurnLock};

/// Numbers, each with the desk that noted it.
#[derive(Drop)]
pub struct Notes {
    pub items: Vec<(u64, u64)>,
}

pub type NoteLock = TurnLock<Notes>;

pub type NoteDesk = Desk<u64, ()>;

impl Recorded for Notes {
    type Entry = u64;

    type Origin = ();

    ghost noted = { λ notes. notes.items.items };

    ghost IsFrom = { λ _ _. Unit {0} };

    fn noted_count(&self) -> u64 {
        self.items.len() as u64
    }
}

/// A lock round an empty list.
pub fn opened<R: Threads + Sync>(
    rt: &R,
    alloc: Global,
    desks: u32,
) -> Result<(NoteLock, Vec<NoteDesk>), AllocError>
    requires { (0 < desks) × (desks ≤ 65536) }
    ensures { IfOk result (λ made. made.1.items ≡ fresh_desks made.0 desks) }
{
    let notes = Notes {
        items: Vec::new(alloc),
    };
    match TurnLock::new(rt, alloc, notes, desks) {
        Ok(made) => Ok(made),
        Err(_) => Err(AllocError),
    }
}

/// How many entries the list has, in a turn that adds none.
pub fn count<V: Recorded, R: Wait + Sync>(
    rt: &R,
    lock: &TurnLock<V>,
    desk: &mut Desk<V::Entry, V::Origin>,
) -> u64
    requires { desk.old.lock ≡ Some lock.now }
    ensures desk { desk.new ≡ record desk.old { seen = desk.new.seen } }
    ensures own { own desk.new ≡ own desk.old }
    ensures seen { Follows desk.old.number desk.old.family desk.old.seen desk.new.seen }
    ensures count { result ≡ length desk.new.seen }
{
    let mut turn = lock.enter(rt, desk);
    let value = turn.take();
    let count = value.noted_count();
    turn.leave(value);
    count
}

/// Notes one number in a turn of its own.
pub fn note<R: Wait + Sync>(
    rt: &R,
    lock: &NoteLock,
    desk: &mut NoteDesk,
    number: u64,
) -> Result<(), AllocError>
    requires { desk.old.lock ≡ Some lock.now }
    ensures number { desk.new.number ≡ desk.old.number }
    ensures family { desk.new.family ≡ desk.old.family }
    ensures lock { desk.new.lock ≡ desk.old.lock }
    ensures noted { OnOk result (own desk.new ≡ own desk.old ++ number ∷ []) }
    ensures refused { OnErr result (own desk.new ≡ own desk.old) }
    ensures seen { Begins desk.old.seen desk.new.seen }
{
    let by = desk.number();
    let mut turn = lock.enter(rt, desk);
    let mut notes = turn.take();
    let noted = notes.items.push((by, number));
    turn.leave(notes);
    noted?;
    Ok(())
}

/// Notes the numbers below `count`, each in a turn of its own.
pub fn note_many<R: Wait + Sync>(
    rt: &R,
    lock: &NoteLock,
    mut desk: NoteDesk,
    count: u64,
) -> Option<NoteDesk>
    requires { desk.lock ≡ Some lock.now }
    ensures { IfSome result (λ after. after.lock ≡ Some lock.now) }
{
    for number in 0..count {
        note(rt, lock, &mut desk, number).ok()?;
    }
    Some(desk)
}

/// Two desks note in two threads.
pub fn note_beside<R: Threads + Wait + Sync>(
    rt: &R,
    lock: &NoteLock,
    one: NoteDesk,
    two: NoteDesk,
    count: u64,
) -> Option<(NoteDesk, NoteDesk)>
    requires one { one.lock ≡ Some lock.now }
    requires two { two.lock ≡ Some lock.now }
    ensures one { IfSome result (λ both. both.0.lock ≡ Some lock.now) }
    ensures two { IfSome result (λ both. both.1.lock ≡ Some lock.now) }
{
    let (one, two) = join(
        rt,
        || -> Option<NoteDesk>
            requires { one.lock ≡ Some lock.now }
            ensures { IfSome result (λ after. after.lock ≡ Some lock.entry.now) }
        { note_many(rt, lock, one, count) },
        || -> Option<NoteDesk>
            requires { two.lock ≡ Some lock.now }
            ensures { IfSome result (λ after. after.lock ≡ Some lock.entry.now) }
        { note_many(rt, lock, two, count) },
    );
    Some((one?, two?))
}

/// Four desks note in four threads.
pub fn note_all<R: Threads + Wait + Sync>(
    rt: &R,
    lock: &NoteLock,
    front: (NoteDesk, NoteDesk),
    back: (NoteDesk, NoteDesk),
    count: u64,
) -> Option<((NoteDesk, NoteDesk), (NoteDesk, NoteDesk))>
    requires one { front.0.lock ≡ Some lock.now }
    requires two { front.1.lock ≡ Some lock.now }
    requires three { back.0.lock ≡ Some lock.now }
    requires four { back.1.lock ≡ Some lock.now }
    ensures one { IfSome result (λ all. all.0.0.lock ≡ Some lock.now) }
    ensures two { IfSome result (λ all. all.0.1.lock ≡ Some lock.now) }
    ensures three { IfSome result (λ all. all.1.0.lock ≡ Some lock.now) }
    ensures four { IfSome result (λ all. all.1.1.lock ≡ Some lock.now) }
{
    let (one, two) = front;
    let (three, four) = back;
    let (front, back) = join(
        rt,
        || -> Option<(NoteDesk, NoteDesk)>
            requires { IsSync R.row × (one.lock ≡ Some lock.now) × (two.lock ≡ Some lock.now) }
            ensures { IfSome result (λ both. (both.0.lock ≡ Some lock.entry.now)
                × (both.1.lock ≡ Some lock.entry.now)) }
        { note_beside(rt, lock, one, two, count) },
        || -> Option<(NoteDesk, NoteDesk)>
            requires { IsSync R.row × (three.lock ≡ Some lock.now) × (four.lock ≡ Some lock.now) }
            ensures { IfSome result (λ both. (both.0.lock ≡ Some lock.entry.now)
                × (both.1.lock ≡ Some lock.entry.now)) }
        { note_beside(rt, lock, three, four, count) },
    );
    Some((front?, back?))
}

/// Folds the other desk into the first, where its number is the next one.
pub fn fold(lock: &NoteLock, desk: &mut NoteDesk, other: NoteDesk) -> bool
    requires { (desk.old.lock ≡ Some lock.now) × (other.lock ≡ Some lock.now) }
    ensures { desk.new.lock ≡ desk.old.lock }
{
    if desk.number().checked_add(desk.family()) != Some(other.number()) {
        return false;
    }
    lock.join(desk, other);
    true
}

/// The two desks of a new lock.
pub fn two_of(lock: &NoteLock, mut row: Vec<NoteDesk>) -> (NoteDesk, NoteDesk)
    requires { row.items ≡ fresh_desks lock.now 2 }
    ensures { (result.0.lock ≡ Some lock.now) × (result.1.lock ≡ Some lock.now) }
{
    let one = row.remove(0);
    let two = row.remove(0);
    (one, two)
}

/// The four desks of a new lock.
pub fn four_of(lock: &NoteLock, mut row: Vec<NoteDesk>) -> (NoteDesk, NoteDesk, NoteDesk, NoteDesk)
    requires { row.items ≡ fresh_desks lock.now 4 }
    ensures zero { result.0.lock ≡ Some lock.now }
    ensures one { result.1.lock ≡ Some lock.now }
    ensures two { result.2.lock ≡ Some lock.now }
    ensures three { result.3.lock ≡ Some lock.now }
{
    let one = row.remove(0);
    let two = row.remove(0);
    let three = row.remove(0);
    let four = row.remove(0);
    (one, two, three, four)
}
