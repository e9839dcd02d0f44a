// What stands behind the compat cell of a store: the cells and the plans, found by one pass of reads.
ghost use Rattle.std.specs.Prelude.{false, ◌≡◌, ◌≤◌, IsTrue, IfOk, IfSome};
ghost use Rattle.mission_model.specs.declared.limits.TheConstants.{STORE_BYTES};
ghost use Rattle.mission_model.specs.PlainMark.{plain_mark};
ghost use Rattle.disk_model.specs.Disk.{Only};
ghost use Rattle.bank_state.specs.StandsFor.{mark_cell};
ghost use Rattle.recovery.specs.Faults.{fault_behind};
ghost use Rattle.recovery.specs.Found.{AreStates, AllRead, IsWithin, reads_behind};
ghost use Rattle.recovery.specs.Steps.{Step, Answers};

use crate::BootFault;
use crate::cells::{States, open_mark, open_states};
use crate::plans::read_plans;
use dataman_layout::Layout;
use disk_model::Disk;
use gated_cell::GatedCell;
use mission_model::Mark;

/// What the cells and the banks of a store hold.
#[derive(Clone, Copy)]
pub struct Found {
    /// What the state cells name.
    pub states: States,
    /// The cell of the mark.
    pub mark_cell: GatedCell,
    /// The stored mark of the mission, if one is stored.
    pub mark: Option<Mark>,
}

/// Finds what stands behind the compat cell in this layout, by reads alone.
pub fn find_behind<D: Disk>(disk: &mut D, layout: Layout) -> Result<Found, BootFault>
    requires room { STORE_BYTES ≤ (D.state disk.old).meter.size }
    requires only { Only (D.state disk.old).seen (D.state disk.old).images }
    ensures states { IfOk result (λ found. AreStates layout found.states) }
    ensures place { IfOk result (λ found. found.mark_cell.place ≡ mark_cell layout) }
    ensures calm { IfOk result (λ found. found.mark_cell.doubt ≡ false) }
    ensures within { IfOk result (λ found. IfSome found.mark (λ mark. IsWithin found.states.mission.head (plain_mark mark))) }
    ensures step { Step (reads_behind result) (D.state disk.old) (D.state disk.new) result }
    ensures answers { IsTrue (D.state disk.old).tells → Answers (fault_behind layout (D.state disk.old).seen) (λ found. AllRead layout (D.state disk.old).seen found.states found.mark_cell found.mark) result }
{
    let states = open_states(disk, layout)?;
    let jumps = read_plans(disk, layout, &states)?;
    let (mark_cell, mark) = open_mark(disk, layout, states.mission.head, &jumps)?;
    Ok(Found {
        states,
        mark_cell,
        mark,
    })
}
