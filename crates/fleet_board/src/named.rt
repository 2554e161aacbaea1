//! The places of the vehicles that entries name, so that a call looks at these alone.
ghost use Rattle.std.specs.Prelude.{◌≡◌, ℕ, map, slice_get, Some, IfOk, OnOk};
ghost use Rattle.ride_base.specs.declared.numbers.RequestNo.{RequestNo};
ghost use Rattle.stop_schedule.specs.Fleets.{Car};
ghost use Rattle.stop_advance.specs.declared.served.Served.{Served as ServedStop};
ghost use Rattle.board_core.specs.declared.entry.Entry.TheVariants as entry;
ghost use Rattle.board_core.specs.NamedVehicles.{Names};
ghost use Rattle.fleet_board.specs.Journals.{pair_of};
ghost use Rattle.fleet_board.specs.Named.{Gathers, HasRisingNumbers, HoldNamed};

use crate::journal::Noted;
use board_core::{Advanced, Cancelled, Entry};
use insertion_cost::Decision;
use ride_base::{NoMemory, VehicleNo};
use std::alloc::Global;
use stop_advance::Served;
use stop_schedule::FleetView;

/// Where the vehicle of a number stands, if there is one: the first place whose number isn't below it, or the number of vehicles.
fn place_of<F: FleetView>(view: &F, no: VehicleNo) -> usize
    requires rising { HasRisingNumbers (F.fleet view.now) }
    ensures { (p : ℕ) (car : Car) → slice_get (F.fleet view.now).cars p ≡ Some car
        → no ≡ car.no → result ≡ p }
{
    let mut low = 0;
    let mut high = view.count();
    while low < high {
        let middle = low + (high - low) / 2;
        if view.no(middle).0 < no.0 {
            low = middle + 1;
        } else {
            high = middle;
        }
    }
    low
}

/// Adds a place, where it is that of a vehicle.
fn add_place<F: FleetView>(places: &mut Vec<usize>, view: &F, place: usize) -> Result<(), NoMemory>
    ensures { OnOk result (Gathers (F.fleet view.now) (λ (p : ℕ) (car : Car). place ≡ p)
        places.old.items places.new.items) }
{
    if view.count() <= place {
        return Ok(());
    }
    places.push(place)?;
    Ok(())
}

/// Adds the place of the vehicle of a number.
fn add_vehicle<F: FleetView>(
    places: &mut Vec<usize>,
    view: &F,
    no: VehicleNo,
) -> Result<(), NoMemory>
    requires rising { HasRisingNumbers (F.fleet view.now) }
    ensures { OnOk result (Gathers (F.fleet view.now) (λ (p : ℕ) (car : Car). no ≡ car.no)
        places.old.items places.new.items) }
{
    let place = place_of(view, no);
    add_place(places, view, place)
}

/// Adds the places of the vehicles that reached stops.
fn add_served<F: FleetView>(
    places: &mut Vec<usize>,
    view: &F,
    served: &[(VehicleNo, Served)],
) -> Result<(), NoMemory>
    requires rising { HasRisingNumbers (F.fleet view.now) }
    ensures { OnOk result (Gathers (F.fleet view.now) (λ (p : ℕ) (car : Car).
        (k : ℕ) × (s : ServedStop) × (slice_get served.now k ≡ Some (car.no, s)))
        places.old.items places.new.items) }
{
    for told in served {
        add_vehicle(places, view, told.0)?;
    }
    Ok(())
}

/// Adds the place of the vehicle that was given a request, if one was.
fn add_decided<F: FleetView>(
    places: &mut Vec<usize>,
    view: &F,
    decision: &Decision,
) -> Result<(), NoMemory>
    ensures { OnOk result ((no : RequestNo) → Gathers (F.fleet view.now)
        (λ (p : ℕ) (car : Car). Names (entry.Commit no decision.now) p car.no)
        places.old.items places.new.items) }
{
    match decision {
        Decision::Assigned(taken) => add_place(places, view, taken.offer.place),
        Decision::Nobody => Ok(()),
    }
}

/// Adds the place of the vehicle out of whose list riders were taken, if some were.
fn add_cancelled<F: FleetView>(
    places: &mut Vec<usize>,
    view: &F,
    cancelled: &Cancelled,
) -> Result<(), NoMemory>
    requires rising { HasRisingNumbers (F.fleet view.now) }
    ensures { OnOk result ((no : RequestNo) → Gathers (F.fleet view.now)
        (λ (p : ℕ) (car : Car). Names (entry.Cancel no cancelled.now) p car.no)
        places.old.items places.new.items) }
{
    match cancelled {
        Cancelled::Removed(removal) => add_vehicle(places, view, removal.no),
        Cancelled::Refused(_) => Ok(()),
    }
}

/// Adds the places of the vehicles that reached stops, if the clock moved.
fn add_moved<F: FleetView>(
    places: &mut Vec<usize>,
    view: &F,
    advanced: &Advanced,
) -> Result<(), NoMemory>
    requires rising { HasRisingNumbers (F.fleet view.now) }
    ensures { OnOk result ((now : ℕ) → Gathers (F.fleet view.now)
        (λ (p : ℕ) (car : Car). Names (entry.Advance now advanced.now) p car.no)
        places.old.items places.new.items) }
{
    match advanced {
        Advanced::Moved(served) => add_served(places, view, served.as_slice()),
        Advanced::Back { clock: _ } => Ok(()),
    }
}

/// Adds the places of the vehicles that an entry names.
fn add_named<F: FleetView>(places: &mut Vec<usize>, view: &F, entry: &Entry) -> Result<(), NoMemory>
    requires rising { HasRisingNumbers (F.fleet view.now) }
    ensures { OnOk result (Gathers (F.fleet view.now)
        (λ (p : ℕ) (car : Car). Names entry.now p car.no) places.old.items places.new.items) }
{
    match entry {
        Entry::Commit(_, decision) => add_decided(places, view, decision),
        Entry::Cancel(_, cancelled) => add_cancelled(places, view, cancelled),
        Entry::Advance(_, advanced) => add_moved(places, view, advanced),
        _ => Ok(()),
    }
}

/// The places of all vehicles that entries name, rising and each once. The work is that of the entries, and of sorting what they name.
pub(crate) fn named_places<F: FleetView>(
    alloc: Global,
    view: &F,
    noted: &[Noted],
) -> Result<Vec<usize>, NoMemory>
    requires rising { HasRisingNumbers (F.fleet view.now) }
    ensures { IfOk result (λ places.
        HoldNamed (F.fleet view.now) (map pair_of noted.now) places.items) }
{
    let mut places = Vec::new(alloc);
    for one in noted {
        add_named(&mut places, view, &one.entry)?;
    }
    places.sort_unstable();
    places.dedup();
    Ok(places)
}
