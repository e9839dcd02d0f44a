// The faults of a cell, and what they are of the faults of a disk.
ghost use Rattle.std.specs.Prelude.{◌≡◌, ◌↔◌, IsTrue};
ghost use Rattle.disk_model.specs.declared.disk.DiskFault.TheVariants as fault;
ghost use Rattle.gated_cell.specs.declared.fault.CellFault.TheVariants as cell_fault;

use disk_model::DiskFault;

/// Why a call of a cell was not done.
#[derive(Clone, Copy, Debug, PartialEq, Eq)]
pub enum CellFault {
    /// The disk refused a call.
    Failed,
    /// The power was cut inside a call of the disk, or is off since an earlier cut.
    Cut,
    /// The generation in force, this one, is the last that a slot can hold.
    Spent(u64),
    /// Both slots are open with this generation.
    Twins(u64),
}

impl From<DiskFault> for CellFault {
    ghost from_gives = { λ f e. (f ≡ fault.Failed → e ≡ cell_fault.Failed) × (f ≡ fault.Cut → e ≡ cell_fault.Cut) };

    fn from(fault: DiskFault) -> Self {
        match fault {
            DiskFault::Failed => CellFault::Failed,
            DiskFault::Cut => CellFault::Cut,
        }
    }
}

/// Whether the device refused the call, rather than that the power was cut.
pub fn is_failed(refused: DiskFault) -> bool
    ensures { IsTrue result ↔ (refused ≡ fault.Failed) }
{
    match refused {
        DiskFault::Failed => true,
        DiskFault::Cut => false,
    }
}
