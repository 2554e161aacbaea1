//! How a lock and its desks are made.
ghost use Rattle.std.specs.Prelude.{◌≡◌, ℕ, ◌+◌, ◌<◌, ◌≤◌, [], ◌∷◌, IfOk, IfErr, Some, vec_capacity};
ghost use Rattle.turn_lock.specs.declared.view.Stage.TheVariants.{Free};
ghost use Rattle.turn_lock.specs.Desks.{AreMade, IsSized, fresh_desks};
ghost use Rattle.turn_lock.specs.Steps.{AreLaid, DrawsNext, HasRoom, IsFirst, IsIn, SplitsNext};

use crate::desk::Desk;
use crate::lock::{NewFault, TurnLock};
use crate::plays::{DrawNumber, SplitOff};
use crate::recorded::Recorded;
use crate::rule::{Chair, MADE, SharedTable};
use crate::view::{Chosen, Key};
use atomic_table::{Badge, Refused, Table};
use std::alloc::Global;
use std::thread::Threads;

impl<V: Recorded> TurnLock<V> {
    /// A lock round the value, with so many desks, numbered from 0 in order. There may be up to 65,536.
    pub fn new<R: Threads>(
        rt: &R,
        alloc: Global,
        value: V,
        desks: u32,
    ) -> Result<(TurnLock<V>, Vec<Desk<V::Entry, V::Origin>>), NewFault<V>>
        ghost origin: { V.Origin }
        requires list { V.noted value ≡ [] }
        requires origin { V.IsFrom origin value }
        requires desks { (0 < desks) × (desks ≤ 65536) }
        ensures ok { IfOk result (λ made. AreMade desks origin made.0 made.1.items) }
        ensures err { IfErr result (λ fault. fault.value ≡ value) }
    {
        let _ = rt;
        let Ok(mut row) = Vec::with_capacity(alloc, desks as usize) else {
            return Err(NewFault { value });
        };
        let (lock, chair) = lay(alloc, value, desks)?;
        deal(&lock, chair, desks, &mut row);
        Ok((lock, row))
    }
}

// The lock, and the seat of its first desk.
fn lay<V: Recorded>(
    alloc: Global,
    value: V,
    desks: u32,
) -> Result<(TurnLock<V>, Chair<V, V::Entry, V::Origin>), NewFault<V>>
    ghost origin: { V.Origin }
    requires list { V.noted value ≡ [] }
    requires origin { V.IsFrom origin value }
    requires desks { (0 < desks) × (desks ≤ 65536) }
    ensures ok { IfOk result (λ made. AreLaid desks origin made.0 made.1) }
    ensures err { IfErr result (λ fault. fault.value ≡ value) }
{
    let desks = desks as u64;
    let slots = one_slot(alloc, value)?;
    let key = Key {
        desks,
        origin: Chosen::pick(),
    };
    match Table::new(alloc, &[0, 0, 0, 1], slots, &key) {
        Ok((table, chair)) => Ok((TurnLock { table, desks }, chair)),
        Err(Refused { mut slots }) => {
            let value = slots.pop().unwrap().unwrap();
            slots.destroy_empty();
            Err(NewFault { value })
        }
    }
}

fn one_slot<V>(alloc: Global, value: V) -> Result<Vec<Option<V>>, NewFault<V>>
    ensures ok { IfOk result (λ slots. slots.items ≡ Some value ∷ []) }
    ensures err { IfErr result (λ fault. fault.value ≡ value) }
{
    let mut slots = Vec::new(alloc);
    match slots.push(Some(value)) {
        Ok(()) => Ok(slots),
        Err(failed) => {
            slots.destroy_empty();
            let value = failed.value.unwrap();
            Err(NewFault { value })
        }
    }
}

// Splits all desks off the first, and puts them into the row.
fn deal<V: Recorded>(
    lock: &TurnLock<V>,
    chair: Chair<V, V::Entry, V::Origin>,
    desks: u32,
    row: &mut Vec<Desk<V::Entry, V::Origin>>,
)
    requires desks { (0 < desks) × (lock.now.desks ≡ desks) }
    requires chair { IsFirst lock.now 0 chair }
    requires room { (row.old.items ≡ []) × (desks ≤ vec_capacity row.old) }
    ensures { row.new.items ≡ fresh_desks lock.now desks }
{
    let mut chair = chair;
    row.push_reserved(blank());
    for _ in 1..desks {
        row.push_reserved(split_off(lock, &mut chair));
    }
    row[0] = Desk {
        badge: chair.into_badge(),
        number: 0,
        family: 1,
    };
}

// It stands in for the first desk while its seat is in use.
fn blank<Entry, Origin>() -> Desk<Entry, Origin> {
    Desk {
        badge: Badge::blank(),
        number: 0,
        family: 1,
    }
}

// The next desk, split off the first one.
fn split_off<V: Recorded>(
    lock: &TurnLock<V>,
    chair: &mut Chair<V, V::Entry, V::Origin>,
) -> Desk<V::Entry, V::Origin>
    requires { (drawn : ℕ) × (drawn + 1 < lock.now.desks) × IsFirst lock.now drawn chair.old }
    ensures { SplitsNext lock.now chair.old chair.new result }
{
    let top = &lock.table.shared;
    let number = draw_number::<V>(top, chair);
    let next = top.split_seat::<SplitOff>(chair);
    Desk {
        badge: next.into_badge(),
        number,
        family: 1,
    }
}

// Draws the number of the next desk. It does so for the first desk alone.
fn draw_number<V: Recorded>(
    top: &SharedTable<V, V::Entry, V::Origin>,
    chair: &mut Chair<V, V::Entry, V::Origin>,
) -> u64
    requires table { IsSized top.now.table_id × (chair.old.table_id ≡ top.now.table_id) }
    requires first { IsIn chair.old.me [] Free }
    requires room { HasRoom chair.old.me }
    ensures table { chair.new.table_id ≡ chair.old.table_id }
    ensures drawn { DrawsNext chair.old.me result chair.new.me }
{
    top.fetch_add::<DrawNumber>(chair, MADE, 1)
}
