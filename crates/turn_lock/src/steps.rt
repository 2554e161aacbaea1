//! The steps of a turn, one at a time.
ghost use Rattle.std.specs.Prelude.{◌≡◌, ℕ, ◌+◌, ◌^◌, ◌<◌, List, []};
ghost use Rattle.turn_lock.specs.declared.view.Stage.TheVariants.{Free, Waiting};
ghost use Rattle.turn_lock.specs.Desks.{IsSized};
ghost use Rattle.turn_lock.specs.Steps.{CanCount, CanServe, ComesAt, HasCounted, IsIn, staged};

use crate::plays::{Count, DrawTicket, LookForTurn, ServeNext};
use crate::recorded::Recorded;
use crate::rule::{COUNT, Chair, MOST_TURNS, SERVING, SharedTable, TICKET};
use std::sync::Wait;
use std::thread;

/// Draws the next ticket.
pub fn draw_ticket<V: Recorded>(
    top: &SharedTable<V, V::Entry, V::Origin>,
    chair: &mut Chair<V, V::Entry, V::Origin>,
) -> u64
    requires table { IsSized top.now.table_id × (chair.old.table_id ≡ top.now.table_id) }
    requires free { IsIn chair.old.me [] Free }
    ensures table { chair.new.table_id ≡ chair.old.table_id }
    ensures waits { chair.new.me ≡ (staged (Waiting result) chair.old.me.0, []) }
{
    top.fetch_add::<DrawTicket>(chair, TICKET, 1)
}

/// Waits until the ticket is served. From the ticket `MOST_TURNS` on it waits for ever.
pub fn wait_for_turn<V: Recorded, R: Wait>(
    rt: &R,
    top: &SharedTable<V, V::Entry, V::Origin>,
    chair: &mut Chair<V, V::Entry, V::Origin>,
    ticket: u64,
)
    requires table { IsSized top.now.table_id × (chair.old.table_id ≡ top.now.table_id) }
    requires waits { IsIn chair.old.me [] (Waiting ticket) }
    ensures table { chair.new.table_id ≡ chair.old.table_id }
    ensures comes { ComesAt V.noted V.IsFrom chair.old.me ticket chair.new.me }
{
    for _ in rt.forever() {
        if ticket >= MOST_TURNS {
            thread::yield_now();
            continue;
        }
        let served = top.load::<LookForTurn<V>>(chair, SERVING);
        if served == ticket {
            return;
        }
        // `park` compares the low half of the word alone.
        top.park(rt, SERVING, (served & 0xffff_ffff) as u32);
    }
    unreachable!()
}

/// The count step: the list of the value has so many entries, at most one more than the list that was found.
pub fn count_step<V: Recorded>(
    top: &SharedTable<V, V::Entry, V::Origin>,
    chair: &mut Chair<V, V::Entry, V::Origin>,
    entered: u64,
    count: u64,
    value: &Option<V>,
)
    requires table { IsSized top.now.table_id × (chair.old.table_id ≡ top.now.table_id) }
    requires entered { CanCount V.noted chair.old.me entered count value.now }
    ensures table { chair.new.table_id ≡ chair.old.table_id }
    ensures counted { HasCounted V.noted chair.old.me value.now chair.new.me }
{
    top.compare_exchange_with::<Count<V>>(chair, COUNT, entered, count, value);
}

/// Gives the value back, and serves the next ticket.
pub fn serve_next<V: Recorded>(
    top: &SharedTable<V, V::Entry, V::Origin>,
    chair: &mut Chair<V, V::Entry, V::Origin>,
)
    requires table { IsSized top.now.table_id × (chair.old.table_id ≡ top.now.table_id) }
    requires counted { CanServe V.noted V.IsFrom chair.old.me }
    ensures table { chair.new.table_id ≡ chair.old.table_id }
    ensures free { chair.new.me ≡ (staged Free chair.old.me.0, []) }
{
    let served = top.fetch_add::<ServeNext>(chair, SERVING, 1);
    if top.peek(TICKET) != served.wrapping_add(1) {
        top.wake_all(SERVING);
    }
}
