// Why a store was not made, or not found.
ghost use Rattle.std.specs.Prelude.{◌≡◌};
ghost use Rattle.disk_model.specs.declared.disk.DiskFault.TheVariants as fault;
ghost use Rattle.recovery.specs.declared.fault.BootFault.TheVariants.{DiskFailed, PowerOff};

use disk_model::DiskFault;
use mission_model::PlanType;

/// Why a store was not made, or not found.
#[derive(Clone, Copy, Debug, PartialEq, Eq)]
pub enum BootFault {
    /// No gate of the compat cell is open, and this is the first byte of the store. For a store to be made: this is its
    /// first byte, and not 0.
    NotAStore(u8),
    /// The store has this version, which is of no layout that is read here. For a store to be migrated: it is not of layout 1.
    UnknownVersion(u32),
    /// This cell is damaged: 0 the compat cell, 1 to 3 the states of mission, fence and safe points, 4 the mark.
    BadCell(u8),
    /// At this seq of the plan in force of this type there is no record of it, or one that the check of plans refuses.
    BadItem(PlanType, u16),
    /// The disk refused a call.
    DiskFailed,
    /// The power was cut inside a call of the disk, or is off since an earlier cut.
    PowerOff,
}

impl From<DiskFault> for BootFault {
    ghost from_gives = { λ f e. (f ≡ fault.Failed → e ≡ DiskFailed) × (f ≡ fault.Cut → e ≡ PowerOff) };

    fn from(fault: DiskFault) -> Self {
        match fault {
            DiskFault::Failed => BootFault::DiskFailed,
            DiskFault::Cut => BootFault::PowerOff,
        }
    }
}
