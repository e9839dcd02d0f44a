// How a cell is opened: both slots are read, and their gates and generations tell which is in force.
ghost use Rattle.std.specs.Prelude.{◌≡◌, ◌+◌, ◌*◌, ◌≤◌, ◌<◌, ◌^◌, ◌-◌, ◌↔◌, length, false, IsTrue, IfOk, IfErr, OnOk, OnErr, None};
ghost use Rattle.disk_model.specs.Disk.{Still, Elapses};
ghost use Rattle.disk_model.specs.Every.{Steady};
ghost use Rattle.disk_model.specs.Meters.{Uncut};
ghost use Rattle.gated_cell.specs.Cell.{held, Known, Settled, in_force, chosen, given, payload_of};
ghost use Rattle.gated_cell.specs.Refusals.{NotOpened, Asks};
ghost use Rattle.gated_cell.specs.Opens.{Opens};

use crate::slot::{HEAD_BYTES, LONGEST_SLOT, SHORT_SLOT, generation_in, is_open};
use crate::{CellFault, CellPlace, GatedCell};
use disk_model::Disk;

/// The cell of two slots, by their gates and generations, which differ where both are open.
fn choose(place: CellPlace, first: (bool, u64), second: (bool, u64)) -> GatedCell
    ensures chosen { result ≡ chosen place first.0 second.0 first.1 second.1 }
    ensures place { result.place ≡ place }
{
    let (in_force, generation) = match (first.0, second.0) {
        (false, false) => (None, 0),
        (true, false) => (Some(false), first.1),
        (false, true) => (Some(true), second.1),
        (true, true) => {
            if second.1 < first.1 {
                (Some(false), first.1)
            } else {
                (Some(true), second.1)
            }
        }
    };
    GatedCell {
        place,
        in_force,
        generation,
        spare_closed: !(first.0 && second.0),
        doubt: false,
    }
}

/// Whether two slots, by their gates and generations, are both open with one generation.
fn are_twins(first: (bool, u64), second: (bool, u64)) -> bool
    ensures { IsTrue result ↔ IsTrue first.0 × IsTrue second.0 × (first.1 ≡ second.1) }
{
    first.0 && second.0 && first.1 == second.1
}

/// Puts the payload of the slot in force into `payload`, where one is.
fn give(in_force: Option<bool>, first: &[u8], second: &[u8], payload: &mut [u8])
    requires first { length first.now ≡ length payload.old + 9 }
    requires second { length second.now ≡ length payload.old + 9 }
    ensures { payload.new ≡ payload_of in_force first.now second.now payload.old }
{
    match in_force {
        None => {}
        Some(false) => payload.copy_from_slice(&first[HEAD_BYTES..]),
        Some(true) => payload.copy_from_slice(&second[HEAD_BYTES..]),
    }
}

/// Reads the two slots into two buffers of their length.
fn open_through<D: Disk>(
    disk: &mut D,
    place: CellPlace,
    payload: &mut [u8],
    first: &mut [u8],
    second: &mut [u8],
) -> Result<GatedCell, CellFault>
    requires room { place.at + 2 * place.slot_bytes ≤ (D.state disk.old).meter.size }
    requires size { (D.state disk.old).meter.size < 2 ^ 64 }
    requires slot { 9 ≤ place.slot_bytes }
    requires length { length payload.old ≡ place.slot_bytes - 9 }
    requires first { length first.old ≡ place.slot_bytes }
    requires second { length second.old ≡ place.slot_bytes }
    requires settled { Settled place (D.state disk.old) }

    ensures place { IfOk result (λ cell. cell.place ≡ place) }
    ensures calm { IfOk result (λ cell. cell.doubt ≡ false) }
    ensures known { IfOk result (λ cell. Known cell (D.state disk.new)) }
    ensures held { IfOk result (λ cell. IsTrue (D.state disk.old).tells → held place (D.state disk.old).seen ≡ in_force cell (D.state disk.new)) }
    ensures payload { IfOk result (λ cell. IsTrue (D.state disk.old).tells → payload.new ≡ given cell payload.old (D.state disk.old).seen) }
    ensures untouched { IfOk result (λ cell. cell.in_force ≡ None → payload.new ≡ payload.old) }
    ensures kept { OnErr result (payload.new ≡ payload.old) }
    ensures still { Still (D.state disk.old) (D.state disk.new) }
    ensures time { Elapses (D.state disk.old) (D.state disk.new) }
    ensures steady { Steady (D.state disk.old).meter (D.state disk.new).meter }
    ensures calls { OnOk result (Uncut 0 2 (D.state disk.old).meter (D.state disk.new).meter) }
    ensures no_fault { OnOk result ((D.state disk.new).meter.faults ≡ (D.state disk.old).meter.faults) }
    ensures asked { Asks 0 2 (D.state disk.old).meter (D.state disk.new).meter result }
    ensures refused { IfErr result (NotOpened place (D.state disk.old) (D.state disk.new)) }
{
    disk.read_at(place.at, first)?;
    disk.read_at(place.at + place.slot_bytes as u64, second)?;
    let a = (is_open(first), generation_in(first));
    let b = (is_open(second), generation_in(second));
    if are_twins(a, b) {
        return Err(CellFault::Twins(a.1));
    }
    let cell = choose(place, a, b);
    give(cell.in_force, first, second, payload);
    Ok(cell)
}

/// Opens a cell of short slots.
pub fn open_short<D: Disk>(
    disk: &mut D,
    place: CellPlace,
    payload: &mut [u8],
) -> Result<GatedCell, CellFault>
    requires room { place.at + 2 * place.slot_bytes ≤ (D.state disk.old).meter.size }
    requires size { (D.state disk.old).meter.size < 2 ^ 64 }
    requires slot { 9 ≤ place.slot_bytes }
    requires fits { place.slot_bytes ≤ 144 }
    requires length { length payload.old ≡ place.slot_bytes - 9 }
    requires settled { Settled place (D.state disk.old) }
    ensures { Opens place (D.state disk.old) (D.state disk.new) payload.old payload.new result }
{
    let n = place.slot_bytes as usize;
    let mut first = [0; SHORT_SLOT];
    let mut second = [0; SHORT_SLOT];
    open_through(disk, place, payload, &mut first[..n], &mut second[..n])
}

/// Opens a cell of slots of any length. Only here stand two buffers of the longest one.
pub fn open_long<D: Disk>(
    disk: &mut D,
    place: CellPlace,
    payload: &mut [u8],
) -> Result<GatedCell, CellFault>
    requires room { place.at + 2 * place.slot_bytes ≤ (D.state disk.old).meter.size }
    requires size { (D.state disk.old).meter.size < 2 ^ 64 }
    requires slot { 9 ≤ place.slot_bytes }
    requires fits { place.slot_bytes < 2 ^ 16 }
    requires length { length payload.old ≡ place.slot_bytes - 9 }
    requires settled { Settled place (D.state disk.old) }
    ensures { Opens place (D.state disk.old) (D.state disk.new) payload.old payload.new result }
{
    let n = place.slot_bytes as usize;
    let mut first = [0; LONGEST_SLOT];
    let mut second = [0; LONGEST_SLOT];
    open_through(disk, place, payload, &mut first[..n], &mut second[..n])
}
