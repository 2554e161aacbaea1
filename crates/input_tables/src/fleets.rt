ghost use Rattle.std.specs.Prelude.{◌≡◌, ◌≢◌, ℕ, ◌+◌, [], ◌∷◌, ◌++◌, true, false, IfOk, IfErr, OnOk, Ok, Err, List};
ghost use Rattle.csv.specs.Records.{fields_of};
ghost use Rattle.ride_base.specs.Buffers.{CameAtMost};
ghost use Rattle.ride_base.specs.Outside.{CountRose, CountStays, OnlyRead};
ghost use Rattle.ride_base.specs.Reader.{longest_read};
ghost use Rattle.ride_base.specs.Told.{WhereTold};
ghost use Rattle.stop_schedule.specs.declared.vehicle.Vehicle.{Vehicle};
ghost use Rattle.std.specs.BTreeMap.{values};
ghost use Rattle.input_tables.specs.Fleets.{fleet_in, fleet_in_text, largest_fleet_text, rows_in, vehicle_of_record, stood_before, is_in_range as is_in_range_of};
ghost use Rattle.input_tables.specs.Records.{IsReading, records_left};
ghost use Rattle.input_tables.specs.Refusals.{HasFleet, IsReadWithin, IsFleetRefusal, IsRefusedFor, RefusesFleet, RefusesRecords, fault_of_text};
ghost use Rattle.stop_schedule.specs.Bounds.{AreVehicles};
ghost use Rattle.input_tables.specs.Rows.{IsHeaded, Keeps, kept_of, ranged_by, vehicle_by};

use crate::cells::{RowNumbers, has_spaces, row_numbers};
use crate::faults::FleetFault;
use crate::records::{next_record, records_of};
use csv::{ByteRecord, Reader};
use ride_base::{Items, LARGEST_32, LineFault, NoMemory, Shelf, VehicleNo, whole};
use road_graph::NodeNo;
use std::alloc::Global;
use std::collections::BTreeMap;
use stop_schedule::{LATEST_MOMENT, MOST_RIDERS, MOST_VEHICLES, Vehicle};

/// The most bytes of a table.
const LARGEST_TEXT: u64 = 1 << 24;

/// The vehicles of a table.
type Vehicles = BTreeMap<VehicleNo, Vehicle>;

/// Reads the vehicles of the table that is begun, over a graph of so many nodes, in rising order of number. The first bad row is told,
/// and of it the form before a range, and a range before a doubled number; `Large` is told before all else. After an error some of
/// the text may be lost.
pub fn read_fleet<S: Shelf>(
    alloc: Global,
    shelf: &mut S,
    nodes: u32,
) -> Result<Items<Vehicle>, FleetFault>
    requires { (S.seen shelf.old).begun ≡ true }
    ensures fleet { IfOk result (λ v. WhereTold (S.seen shelf.old).left (HasFleet nodes v)) }
    ensures vehicles { IfOk result (λ v. AreVehicles nodes v) }
    ensures refused { IfErr result (λ e. IsFleetRefusal e
        → WhereTold (S.seen shelf.old).left (IsRefusedFor nodes e)) }
    ensures fault { result ≡ Err FleetFault.Fault
        → CountRose (S.seen shelf.old) (S.seen shelf.new) }
    ensures quiet { (S.seen shelf.old).quiet ≡ true → result ≢ Err FleetFault.Fault
        → CountStays (S.seen shelf.old) (S.seen shelf.new) }
    ensures unread { result ≡ Err FleetFault.Fault
        → WhereTold (S.seen shelf.old).left (λ text. IsReadWithin text (S.seen shelf.new).left) }
    ensures wanted { result ≡ Err FleetFault.NoMemory
        → WhereTold (S.seen shelf.old).left (λ text. IsReadWithin text (S.seen shelf.new).left) }
    ensures near { CameAtMost (largest_fleet_text + longest_read)
        (S.seen shelf.old).left (S.seen shelf.new).left }
    ensures surely { (S.seen shelf.old).sure ≡ true → result ≡ Err FleetFault.Fault → ⊥ }
    ensures shelf { OnlyRead (S.seen shelf.old) (S.seen shelf.new) }
{
    match whole(alloc, shelf, LARGEST_TEXT) {
        Ok(text) => vehicles_of(alloc, text.as_slice(), nodes),
        Err(fault) => Err(fault_of_text(fault)),
    }
}

/// What a fault of the text comes to. A text that is read whole has no long line.
fn fault_of_text(fault: LineFault) -> FleetFault
    requires { fault ≡ LineFault.Long → ⊥ }
    ensures { result ≡ fault_of_text fault }
{
    match fault {
        LineFault::Fault => FleetFault::Fault,
        LineFault::Large => FleetFault::Large,
        LineFault::NoMemory => FleetFault::NoMemory,
        LineFault::Long => unreachable!(),
    }
}

/// The vehicles of a text.
fn vehicles_of(alloc: Global, text: &[u8], nodes: u32) -> Result<Items<Vehicle>, FleetFault>
    ensures fleet { IfOk result (λ v. fleet_in_text nodes text.now ≡ Ok v) }
    ensures vehicles { IfOk result (λ v. AreVehicles nodes v) }
    ensures refused { IfErr result (RefusesFleet (fleet_in_text nodes text.now)) }
    ensures unfailed { result ≡ Err FleetFault.Fault → ⊥ }
{
    let mut reader = records_of(alloc, text);
    read_table(alloc, &mut reader, nodes)
}

/// Reads a table from its header on. One list of fields serves all records.
fn read_table(
    alloc: Global,
    reader: &mut Reader<&[u8]>,
    nodes: u32,
) -> Result<Items<Vehicle>, FleetFault>
    requires { IsReading reader.old }
    ensures fleet { IfOk result (λ v. fleet_in nodes (records_left reader.old) ≡ Ok v) }
    ensures vehicles { IfOk result (λ v. AreVehicles nodes v) }
    ensures refused { IfErr result (RefusesFleet (fleet_in nodes (records_left reader.old))) }
    ensures unfailed { result ≡ Err FleetFault.Fault → ⊥ }
{
    let mut fields = ByteRecord::new(alloc);
    let spaces = read_header(reader, &mut fields)?;
    let vehicles = read_rows(alloc, reader, &mut fields, spaces, nodes)?;
    Ok(by_number(alloc, vehicles)?)
}

/// Reads the first record, which is the header, and says whether the rows behind it have wheelchair spaces.
fn read_header(reader: &mut Reader<&[u8]>, fields: &mut ByteRecord) -> Result<bool, FleetFault>
    requires { IsReading reader.old }
    ensures reading { OnOk result (IsReading reader.new) }
    ensures header { IfOk result
        (λ s. IsHeaded (records_left reader.old) s (records_left reader.new)) }
    ensures refused { IfErr result (RefusesRecords (records_left reader.old)) }
    ensures unfailed { result ≡ Err FleetFault.Fault → ⊥ }
{
    if !next_record(reader, fields)? {
        return Err(FleetFault::Header);
    }
    match has_spaces(fields) {
        Some(spaces) => Ok(spaces),
        None => Err(FleetFault::Header),
    }
}

/// Reads the rows behind the header.
fn read_rows(
    alloc: Global,
    reader: &mut Reader<&[u8]>,
    fields: &mut ByteRecord,
    spaces: bool,
    nodes: u32,
) -> Result<Vehicles, FleetFault>
    requires { IsReading reader.old }
    ensures rows { IfOk result
        (λ v. kept_of (rows_in spaces nodes (records_left reader.old)) ≡ Ok v.entries) }
    ensures refused { IfErr result (RefusesFleet (rows_in spaces nodes (records_left reader.old))) }
    ensures unfailed { result ≡ Err FleetFault.Fault → ⊥ }
{
    let mut vehicles = BTreeMap::new(alloc);
    let mut row: u64 = 1;
    while next_record(reader, fields)? {
        let vehicle = vehicle_in(fields, spaces, row, &vehicles, nodes)?;
        put(&mut vehicles, vehicle)?;
        row += 1;
    }
    Ok(vehicles)
}

/// The vehicle of a row behind others.
fn vehicle_in(
    fields: &ByteRecord,
    spaces: bool,
    row: u64,
    before: &Vehicles,
    nodes: u32,
) -> Result<Vehicle, FleetFault>
    ensures refusal { IfErr result IsFleetRefusal }
    ensures vehicle { (rows : List Vehicle) → Keeps before.now rows
        → result ≡ vehicle_of_record spaces nodes row rows (fields_of fields.now) }
{
    let Some(numbers) = row_numbers(fields, spaces) else {
        return Err(FleetFault::Form { row });
    };
    let Some(vehicle) = vehicle(&numbers, nodes) else {
        return Err(FleetFault::Range { row });
    };
    if row > MOST_VEHICLES as u64 {
        return Err(FleetFault::Range { row });
    }
    if before.contains_key(&vehicle.no) {
        return Err(FleetFault::Double { row });
    }
    Ok(vehicle)
}

/// Whether the numbers are ones of a vehicle over so many nodes.
fn is_in_range(numbers: &RowNumbers, nodes: u32) -> bool
    ensures { result ≡ is_in_range_of nodes (vehicle_by numbers.now) }
{
    1 <= numbers.number
        && numbers.number <= LARGEST_32
        && 1 <= numbers.start
        && numbers.start <= u64::from(nodes)
        && 1 <= numbers.seats
        && numbers.seats <= u64::from(MOST_RIDERS)
        && numbers.from <= LATEST_MOMENT
        && numbers.until <= LATEST_MOMENT
        && numbers.from <= numbers.until
        && numbers.spaces <= u64::from(MOST_RIDERS)
}

/// The vehicle of a row's numbers over so many nodes. None where one of them is out of its range.
fn vehicle(numbers: &RowNumbers, nodes: u32) -> Option<Vehicle>
    ensures { result ≡ ranged_by nodes numbers.now }
{
    if !is_in_range(numbers, nodes) {
        return None;
    }
    Some(Vehicle {
        no: VehicleNo(numbers.number as u32),
        start: NodeNo(numbers.start as u32),
        seats: numbers.seats as u32,
        from: numbers.from,
        until: numbers.until,
        spaces: numbers.spaces as u32,
    })
}

/// Puts a vehicle of a new number among others.
fn put(vehicles: &mut Vehicles, vehicle: Vehicle) -> Result<(), NoMemory>
    ensures { (rows : List Vehicle) → Keeps vehicles.old rows → stood_before rows vehicle ≡ false
        → OnOk result (Keeps vehicles.new (rows ++ vehicle ∷ [])) }
{
    vehicles.insert(vehicle.no, vehicle)?;
    Ok(())
}

/// The vehicles in rising order of number.
fn by_number(alloc: Global, vehicles: Vehicles) -> Result<Items<Vehicle>, NoMemory>
    ensures { IfOk result (λ v. v ≡ values vehicles) }
{
    let sorted = vehicles.into_values().collect(alloc)?;
    Ok(Items::from_vec(sorted))
}
