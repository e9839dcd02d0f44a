// The calls of a cell. Each is a few calls of the disk, after any of which the power may be cut: at each moment
// what a restart finds holds the payload in force or, once the gate is being opened, the next one.
ghost use Rattle.std.specs.Prelude.{◌≡◌, ◌+◌, ◌*◌, ◌≤◌, ◌<◌, ◌^◌, ◌-◌, ◌⊎◌, ◌++◌, [], ◌∷◌, length, false, true, is_some, if◌then◌else◌, IsTrue, IfOk, IfErr, OnOk, OnErr, IsErrOf, Err, None};
ghost use Rattle.std.specs.Int.{to_le_bytes, w64};
ghost use Rattle.disk_model.specs.Disk.{Writes, Only, Still, Elapses};
ghost use Rattle.disk_model.specs.Every.{Steady};
ghost use Rattle.disk_model.specs.Meters.{Uncut};
ghost use Rattle.gated_cell.specs.declared.fault.CellFault.TheVariants as cell_fault;
ghost use Rattle.gated_cell.specs.Cell.{spare_at, spare_of, held, Known, Settled, Staged, staged, Doubtful, SameChoice, in_force, next_of, opened, given, AtEachMoment};
ghost use Rattle.gated_cell.specs.Refusals.{Refused, NotOpened, NotClosed, Asks};

use crate::fault::is_failed;
use crate::reading::{open_long, open_short};
use crate::slot::{CLOSED, LONGEST_SLOT, OPEN, SHORT_SLOT, fill};
use crate::{CellFault, CellPlace};
use disk_model::{Disk, DiskFault};

/// A payload in two slots of a disk.
#[derive(Clone, Copy, Debug, PartialEq, Eq)]
pub struct GatedCell {
    /// Where its slots stand.
    pub place: CellPlace,
    /// Whether the slot in force is the second, and None where no gate is open.
    pub in_force: Option<bool>,
    /// The generation in force, and 0 where none is.
    pub generation: u64,
    /// Whether the gate of the spare slot is known to be closed, so that nothing need be written to close it.
    pub spare_closed: bool,
    /// Whether the gate of the spare slot may be open or closed, since the disk failed while it was being opened.
    pub doubt: bool,
}

impl GatedCell {
    /// Finds the cell at `place` by one read of each slot, and copies the payload in force, if any, into
    /// `payload`. No other call answers Twins.
    pub fn open<D: Disk>(
        disk: &mut D,
        place: CellPlace,
        payload: &mut [u8],
    ) -> Result<GatedCell, CellFault>
        requires room { place.at + 2 * place.slot_bytes ≤ (D.state disk.old).meter.size }
        requires slot { 9 ≤ place.slot_bytes }
        requires length { length payload.old ≡ place.slot_bytes - 9 }
        requires settled { Settled place (D.state disk.old) }

        ensures place { IfOk result (λ cell. cell.place ≡ place) }
        ensures calm { IfOk result (λ cell. cell.doubt ≡ false) }
        ensures known { IfOk result (λ cell. Known cell (D.state disk.new)) }
        ensures held { IfOk result (λ cell. IsTrue (D.state disk.old).tells → held place (D.state disk.old).seen ≡ in_force cell (D.state disk.new)) }
        ensures payload { IfOk result (λ cell. IsTrue (D.state disk.old).tells → payload.new ≡ given cell payload.old (D.state disk.old).seen) }
        ensures untouched { IfOk result (λ cell. cell.in_force ≡ None → payload.new ≡ payload.old) }
        ensures kept { OnErr result (payload.new ≡ payload.old) }
        ensures still { Still (D.state disk.old) (D.state disk.new) }
        ensures time { Elapses (D.state disk.old) (D.state disk.new) }
        ensures steady { Steady (D.state disk.old).meter (D.state disk.new).meter }
        ensures calls { OnOk result (Uncut 0 2 (D.state disk.old).meter (D.state disk.new).meter) }
        ensures no_fault { OnOk result ((D.state disk.new).meter.faults ≡ (D.state disk.old).meter.faults) }
        ensures asked { Asks 0 2 (D.state disk.old).meter (D.state disk.new).meter result }
        ensures refused { IfErr result (NotOpened place (D.state disk.old) (D.state disk.new)) }
    {
        if place.slot_bytes as usize <= SHORT_SLOT {
            open_short(disk, place, payload)
        } else {
            open_long(disk, place, payload)
        }
    }

    /// Whether a payload is in force.
    pub fn has_payload(&self) -> bool
        ensures { result ≡ is_some self.now.in_force }
    {
        self.in_force.is_some()
    }

    /// The generation in force, and 0 where none is.
    pub fn generation(&self) -> u64
        ensures { result ≡ self.now.generation }
    {
        self.generation
    }

    /// Whether the gate of the spare slot may be open or closed.
    pub fn in_doubt(&self) -> bool
        ensures { result ≡ self.now.doubt }
    {
        self.doubt
    }

    /// Whether the spare slot is the second.
    fn spare_is_second(&self) -> bool
        ensures { result ≡ spare_of self.now.in_force }
    {
        match self.in_force {
            Some(second) => !second,
            None => false,
        }
    }

    /// Where the spare slot begins.
    fn spare_at(&self) -> u64
        requires { self.now.place.at + 2 * self.now.place.slot_bytes < 2 ^ 64 }
        ensures { result ≡ spare_at self.now }
    {
        if self.spare_is_second() {
            self.place.at + self.place.slot_bytes as u64
        } else {
            self.place.at
        }
    }

    /// Writes the spare gate shut, and no byte where it is known to be: a tear of a needless write could open a
    /// slot that still holds a payload which was refused.
    fn shut_spare<D: Disk>(&self, disk: &mut D) -> Result<(), DiskFault>
        requires room { self.now.place.at + 2 * self.now.place.slot_bytes ≤ (D.state disk.old).meter.size }
        requires size { (D.state disk.old).meter.size < 2 ^ 64 }
        requires slot { 9 ≤ self.now.place.slot_bytes }
        ensures { Writes (spare_at self.now) (if self.now.spare_closed then [] else 0 ∷ []) (D.state disk.old) (D.state disk.new) result }
    {
        let spare = self.spare_at();
        if self.spare_closed {
            disk.write_at(spare, &[])
        } else {
            disk.write_at(spare, &[CLOSED])
        }
    }

    /// Puts the spare slot in force.
    fn take_over(&mut self)
        requires { self.old.generation + 1 < 2 ^ 64 }
        ensures { self.new ≡ opened self.old }
    {
        let second = self.spare_is_second();
        self.spare_closed = self.in_force.is_none();
        self.in_force = Some(second);
        self.generation += 1;
        self.doubt = false;
    }

    /// Writes the gate of the spare slot.
    fn write_gate<D: Disk>(&self, disk: &mut D, gate: u8) -> Result<(), DiskFault>
        requires room { self.now.place.at + 2 * self.now.place.slot_bytes ≤ (D.state disk.old).meter.size }
        requires size { (D.state disk.old).meter.size < 2 ^ 64 }
        requires slot { 9 ≤ self.now.place.slot_bytes }
        ensures { Writes (spare_at self.now) (gate ∷ []) (D.state disk.old) (D.state disk.new) result }
    {
        let spare = self.spare_at();
        disk.write_at(spare, &[gate])
    }

    /// Writes the next generation and payload behind the spare gate, by a short buffer where the slot is short.
    fn put_next<D: Disk>(&self, disk: &mut D, payload: &[u8]) -> Result<(), DiskFault>
        requires room { self.now.place.at + 2 * self.now.place.slot_bytes ≤ (D.state disk.old).meter.size }
        requires size { (D.state disk.old).meter.size < 2 ^ 64 }
        requires slot { 9 ≤ self.now.place.slot_bytes }
        requires length { length payload.now ≡ self.now.place.slot_bytes - 9 }
        requires below { self.now.generation + 1 < 2 ^ 64 }
        ensures { Writes (spare_at self.now + 1) (to_le_bytes w64 (self.now.generation + 1) ++ payload.now) (D.state disk.old) (D.state disk.new) result }
    {
        if self.place.slot_bytes as usize <= SHORT_SLOT {
            self.put_through(disk, payload, &mut [0; SHORT_SLOT])
        } else {
            self.put_long(disk, payload)
        }
    }

    /// Writes them by a buffer of the longest slot, which stands only here.
    fn put_long<D: Disk>(&self, disk: &mut D, payload: &[u8]) -> Result<(), DiskFault>
        requires room { self.now.place.at + 2 * self.now.place.slot_bytes ≤ (D.state disk.old).meter.size }
        requires size { (D.state disk.old).meter.size < 2 ^ 64 }
        requires slot { 9 ≤ self.now.place.slot_bytes }
        requires length { length payload.now ≡ self.now.place.slot_bytes - 9 }
        requires below { self.now.generation + 1 < 2 ^ 64 }
        ensures { Writes (spare_at self.now + 1) (to_le_bytes w64 (self.now.generation + 1) ++ payload.now) (D.state disk.old) (D.state disk.new) result }
    {
        let n = self.place.slot_bytes as usize;
        let mut bytes = [0; LONGEST_SLOT];
        self.put_through(disk, payload, &mut bytes[..n])
    }

    /// Writes them by this buffer, which is as long as a slot at least.
    fn put_through<D: Disk>(
        &self,
        disk: &mut D,
        payload: &[u8],
        bytes: &mut [u8],
    ) -> Result<(), DiskFault>
        requires room { self.now.place.at + 2 * self.now.place.slot_bytes ≤ (D.state disk.old).meter.size }
        requires size { (D.state disk.old).meter.size < 2 ^ 64 }
        requires slot { 9 ≤ self.now.place.slot_bytes }
        requires length { length payload.now ≡ self.now.place.slot_bytes - 9 }
        requires buffer { self.now.place.slot_bytes ≤ length bytes.old }
        requires below { self.now.generation + 1 < 2 ^ 64 }
        ensures { Writes (spare_at self.now + 1) (to_le_bytes w64 (self.now.generation + 1) ++ payload.now) (D.state disk.old) (D.state disk.new) result }
    {
        let spare = self.spare_at();
        let n = fill(self.generation + 1, payload, bytes);
        disk.write_at(spare + 1, &bytes[..n])
    }

    /// Closes the spare gate, the first step of a change. Spent comes before any call of the disk.
    pub fn close_spare<D: Disk>(&mut self, disk: &mut D) -> Result<(), CellFault>
        requires room { self.old.place.at + 2 * self.old.place.slot_bytes ≤ (D.state disk.old).meter.size }
        requires slot { 9 ≤ self.old.place.slot_bytes }
        requires calm { self.old.doubt ≡ false }
        requires known { Known self.old (D.state disk.old) }

        ensures below { OnOk result (self.old.generation + 1 < 2 ^ 64) }
        ensures closed { OnOk result (self.new ≡ record self.old { spare_closed = true }) }
        ensures err { OnErr result (self.new ≡ self.old) }
        ensures known { Known self.new (D.state disk.new) }
        ensures same { IsTrue (D.state disk.new).tells → in_force self.new (D.state disk.new) ≡ in_force self.old (D.state disk.old) }
        ensures durable { OnOk result (Only (D.state disk.new).seen (D.state disk.new).images) }
        ensures any_moment { AtEachMoment self.old.place (D.state disk.old) (D.state disk.new) (λ h. h ≡ in_force self.old (D.state disk.old)) }
        ensures calls { OnOk result (Uncut 2 0 (D.state disk.old).meter (D.state disk.new).meter) }
        ensures no_fault { OnOk result ((D.state disk.new).meter.faults ≡ (D.state disk.old).meter.faults) }
        ensures asked { self.old.generation + 1 < 2 ^ 64 → Asks 2 0 (D.state disk.old).meter (D.state disk.new).meter result }
        ensures refused { IfErr result (NotClosed self.old.generation (D.state disk.old).meter (D.state disk.new).meter) }
        ensures spent { self.old.generation ≡ 2 ^ 64 - 1 → (result ≡ Err (cell_fault.Spent self.old.generation)) × (disk.new ≡ disk.old) }
    {
        if self.generation == u64::MAX {
            return Err(CellFault::Spent(self.generation));
        }
        self.shut_spare(disk)?;
        disk.sync()?;
        self.spare_closed = true;
        Ok(())
    }

    /// Writes the next generation and payload behind the closed gate, the second step of a change.
    pub fn write_spare<D: Disk>(&mut self, disk: &mut D, payload: &[u8]) -> Result<(), CellFault>
        requires room { self.old.place.at + 2 * self.old.place.slot_bytes ≤ (D.state disk.old).meter.size }
        requires slot { 9 ≤ self.old.place.slot_bytes }
        requires calm { self.old.doubt ≡ false }
        requires length { length payload.now ≡ self.old.place.slot_bytes - 9 }
        requires below { self.old.generation + 1 < 2 ^ 64 }
        requires closed { IsTrue self.old.spare_closed }
        requires known { Known self.old (D.state disk.old) }

        ensures cell { self.new ≡ self.old }
        ensures known { Known self.new (D.state disk.new) }
        ensures staged { OnOk result (Staged self.new (D.state disk.new)) }
        ensures payload { OnOk result (IsTrue (D.state disk.new).tells → staged self.new (D.state disk.new).seen ≡ payload.now) }
        ensures same { IsTrue (D.state disk.new).tells → in_force self.new (D.state disk.new) ≡ in_force self.old (D.state disk.old) }
        ensures durable { OnOk result (Only (D.state disk.new).seen (D.state disk.new).images) }
        ensures any_moment { AtEachMoment self.old.place (D.state disk.old) (D.state disk.new) (λ h. h ≡ in_force self.old (D.state disk.old)) }
        ensures calls { OnOk result (Uncut 2 0 (D.state disk.old).meter (D.state disk.new).meter) }
        ensures no_fault { OnOk result ((D.state disk.new).meter.faults ≡ (D.state disk.old).meter.faults) }
        ensures asked { Asks 2 0 (D.state disk.old).meter (D.state disk.new).meter result }
        ensures refused { IfErr result (Refused 2 0 (D.state disk.old).meter (D.state disk.new).meter) }
    {
        self.put_next(disk, payload)?;
        disk.sync()?;
        Ok(())
    }

    /// Opens the spare gate, the last step of a change, which puts the next payload in force. Failed
    /// leaves the cell in doubt: a restart may find either payload until `resolve` is Ok.
    pub fn open_spare<D: Disk>(&mut self, disk: &mut D) -> Result<(), CellFault>
        requires room { self.old.place.at + 2 * self.old.place.slot_bytes ≤ (D.state disk.old).meter.size }
        requires slot { 9 ≤ self.old.place.slot_bytes }
        requires calm { self.old.doubt ≡ false }
        requires below { self.old.generation + 1 < 2 ^ 64 }
        requires known { Known self.old (D.state disk.old) }
        requires staged { Staged self.old (D.state disk.old) }

        ensures opened { OnOk result (self.new ≡ opened self.old) }
        ensures known { OnOk result (Known self.new (D.state disk.new)) }
        ensures next { OnOk result (IsTrue (D.state disk.new).tells → in_force self.new (D.state disk.new) ≡ next_of self.old (D.state disk.old)) }
        ensures doubt { IsErrOf result cell_fault.Failed → self.new ≡ record self.old { doubt = true } }
        ensures cut { IsErrOf result cell_fault.Cut → self.new ≡ record self.old { doubt = false } }
        ensures doubtful { OnErr result (Doubtful self.new (D.state disk.new)) }
        ensures both { OnErr result (IsTrue (D.state disk.new).tells → SameChoice self.old (D.state disk.old) self.new (D.state disk.new)) }
        ensures durable { OnOk result (Only (D.state disk.new).seen (D.state disk.new).images) }
        ensures any_moment { AtEachMoment self.old.place (D.state disk.old) (D.state disk.new)
            (λ h. (h ≡ in_force self.old (D.state disk.old)) ⊎ (h ≡ next_of self.old (D.state disk.old))) }
        ensures calls { OnOk result (Uncut 2 0 (D.state disk.old).meter (D.state disk.new).meter) }
        ensures no_fault { OnOk result ((D.state disk.new).meter.faults ≡ (D.state disk.old).meter.faults) }
        ensures asked { Asks 2 0 (D.state disk.old).meter (D.state disk.new).meter result }
        ensures refused { IfErr result (Refused 2 0 (D.state disk.old).meter (D.state disk.new).meter) }
    {
        match self.write_gate(disk, OPEN) {
            Ok(()) => {}
            Err(refused) => {
                self.doubt = is_failed(refused);
                return Err(refused.into());
            }
        }
        match disk.sync() {
            Ok(()) => {}
            Err(refused) => {
                self.doubt = is_failed(refused);
                return Err(refused.into());
            }
        }
        self.take_over();
        Ok(())
    }

    /// Closes the gate that is in doubt, so that the old payload stays in force. Failed leaves the doubt as it is.
    pub fn resolve<D: Disk>(&mut self, disk: &mut D) -> Result<(), CellFault>
        requires room { self.old.place.at + 2 * self.old.place.slot_bytes ≤ (D.state disk.old).meter.size }
        requires slot { 9 ≤ self.old.place.slot_bytes }
        requires doubt { self.old.doubt ≡ true }
        requires doubtful { Doubtful self.old (D.state disk.old) }

        ensures resolved { OnOk result (self.new ≡ record self.old { spare_closed = true; doubt = false }) }
        ensures known { OnOk result (Known self.new (D.state disk.new)) }
        ensures same { OnOk result (IsTrue (D.state disk.new).tells → in_force self.new (D.state disk.new) ≡ in_force self.old (D.state disk.old)) }
        ensures err { OnErr result (self.new ≡ self.old) }
        ensures doubtful { OnErr result (Doubtful self.new (D.state disk.new)) }
        ensures both { OnErr result (IsTrue (D.state disk.new).tells → SameChoice self.old (D.state disk.old) self.new (D.state disk.new)) }
        ensures durable { OnOk result (Only (D.state disk.new).seen (D.state disk.new).images) }
        ensures any_moment { AtEachMoment self.old.place (D.state disk.old) (D.state disk.new)
            (λ h. (h ≡ in_force self.old (D.state disk.old)) ⊎ (h ≡ next_of self.old (D.state disk.old))) }
        ensures calls { OnOk result (Uncut 2 0 (D.state disk.old).meter (D.state disk.new).meter) }
        ensures no_fault { OnOk result ((D.state disk.new).meter.faults ≡ (D.state disk.old).meter.faults) }
        ensures asked { Asks 2 0 (D.state disk.old).meter (D.state disk.new).meter result }
        ensures refused { IfErr result (Refused 2 0 (D.state disk.old).meter (D.state disk.new).meter) }
    {
        self.write_gate(disk, CLOSED)?;
        disk.sync()?;
        self.spare_closed = true;
        self.doubt = false;
        Ok(())
    }
}
