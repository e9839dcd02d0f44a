// The change of one cell: what is beside it comes through a sync before the gate is opened.
ghost use Rattle.std.specs.Prelude.{◌≡◌, ◌+◌, ◌*◌, ◌≤◌, ◌<◌, ◌^◌, ◌-◌, length, false, IsTrue, IfErr, OnOk, Err};
ghost use Rattle.disk_model.specs.Disk.{Only};
ghost use Rattle.disk_model.specs.Every.{Every, Run};
ghost use Rattle.disk_model.specs.Meters.{Uncut};
ghost use Rattle.gated_cell.specs.declared.fault.CellFault.TheVariants as cell_fault;
ghost use Rattle.gated_cell.specs.Cell.{Known, in_force, opened};
ghost use Rattle.gated_cell.specs.Refusals.{Asks};
ghost use Rattle.bank_state.specs.Swap.{next_with, IsBut, Swaps, Leaves, NotDone};

use disk_model::Disk;
use gated_cell::{CellFault, GatedCell};

/// Puts a payload in force by the three steps of a change, six writes and syncs.
pub fn swap<D: Disk>(disk: &mut D, cell: &mut GatedCell, payload: &[u8]) -> Result<(), CellFault>
    requires room { cell.old.place.at + 2 * cell.old.place.slot_bytes ≤ (D.state disk.old).meter.size }
    requires slot { 9 ≤ cell.old.place.slot_bytes }
    requires length { length payload.now ≡ cell.old.place.slot_bytes - 9 }
    requires calm { cell.old.doubt ≡ false }
    requires known { Known cell.old (D.state disk.old) }

    ensures done { OnOk result (cell.new ≡ opened cell.old) }
    ensures known { OnOk result (Known cell.new (D.state disk.new)) }
    ensures next { OnOk result (IsTrue (D.state disk.new).tells → in_force cell.new (D.state disk.new) ≡ next_with cell.old payload.now) }
    ensures synced { OnOk result (Every (IsBut cell.old (D.state disk.old)) (D.state disk.new)) }
    ensures durable { OnOk result (Only (D.state disk.new).seen (D.state disk.new).images) }
    ensures left { IfErr result (Leaves cell.old payload.now (D.state disk.old) cell.new (D.state disk.new)) }
    ensures any_moment { Run cell.old.place.at (2 * cell.old.place.slot_bytes) (Swaps cell.old payload.now (D.state disk.old)) (D.state disk.old) (D.state disk.new) }
    ensures calls { OnOk result (Uncut 6 0 (D.state disk.old).meter (D.state disk.new).meter) }
    ensures no_fault { OnOk result ((D.state disk.new).meter.faults ≡ (D.state disk.old).meter.faults) }
    ensures asked { cell.old.generation + 1 < 2 ^ 64 → Asks 6 0 (D.state disk.old).meter (D.state disk.new).meter result }
    ensures refused { IfErr result (NotDone cell.old.generation (D.state disk.old).meter (D.state disk.new).meter) }
    ensures spent { cell.old.generation ≡ 2 ^ 64 - 1 → (result ≡ Err (cell_fault.Spent cell.old.generation)) × (disk.new ≡ disk.old) × (cell.new ≡ cell.old) }
{
    cell.close_spare(disk)?;
    cell.write_spare(disk, payload)?;
    cell.open_spare(disk)
}
