// The store between two calls: a disk, and what is known of it. A plan goes into the spare bank of its type item by item,
// and one change of the state cell puts it in force.
ghost use Rattle.dataman_layout.specs.declared.layout.Layout.TheVariants.{Two};
ghost use Rattle.std.specs.Prelude.{◌≡◌, ◌⊎◌, ◌↔◌, ◌+◌, ◌-◌, ◌≤◌, ◌<◌, ◌^◌, ℕ, List, None, Some, IsTrue, IsSome, IfOk, IfErr, OnOk, OnErr, Err, slice_get};
ghost use Rattle.mission_model.specs.PlanCode.{PlanValid, limit_of};
ghost use Rattle.mission_model.specs.declared.plan.PlanType.TheVariants.{Mission};
ghost use Rattle.disk_model.specs.Disk.{Only, Writes, Still, Elapses};
ghost use Rattle.disk_model.specs.Every.{Steady};
ghost use Rattle.disk_model.specs.Moments.{LeavesOnly};
ghost use Rattle.disk_model.specs.Meters.{Uncut};
ghost use Rattle.gated_cell.specs.declared.fault.CellFault.TheVariants as cell_fault;
ghost use Rattle.gated_cell.specs.Refusals.{Asks};
ghost use Rattle.dataman_layout.specs.Item.{item_bytes};
ghost use Rattle.dataman_layout.specs.Places.{record_at};
ghost use Rattle.dataman_layout.specs.Mark.{plain_mark};
ghost use Rattle.plan_store.specs.CanServe.{MarkFits};
ghost use Rattle.bank_state.specs.declared.parts.Doubt.TheVariants as doubt;
ghost use Rattle.bank_state.specs.Plans.{changed};
ghost use Rattle.bank_state.specs.StandsFor.{HasItems, IsOf, record_in};
ghost use Rattle.bank_state.specs.Ledger.{ledger_of, done, plan_by, draft_by, holding_in, change_in};
ghost use Rattle.bank_state.specs.Store.{IsStore, StandsNow, SameRecords, OtherRecords};
ghost use Rattle.bank_state.specs.Swap.{NotDone};
ghost use Rattle.bank_state.specs.Outcomes.{LedgerAfter, StoreAfter, AsksBy, RefusedBy, IsRead, item_by};
ghost use Rattle.bank_state.specs.Gathered.{gathered, IsReady};

use crate::records::{get_record, put_record};
use crate::swap::swap;
use crate::{Doubt, Parts, PlanBanks};
use dataman_layout::{Record, encode_mark, encode_state};
use disk_model::{Disk, DiskFault};
use gated_cell::{CellFault, GatedCell};
use mission_model::{Item, Mark, PlanHead, PlanType};

/// The plans and the mark of a store, on a disk of their own.
#[derive(Drop)]
pub struct Banks<D: Disk> {
    /// The disk, which nobody else may write.
    pub disk: D,
    /// What is known of it.
    pub parts: Parts,
}

impl<D: Disk> Banks<D> {
    /// The banks of a disk that was read: the cells are those of the mission's, the fence's and the safe points' state and
    /// of the mark, and `mark` is the stored mark of the mission, if one is.
    pub fn from_parts(
        disk: D,
        cells: [GatedCell; 4],
        banks: [u8; 3],
        heads: [PlanHead; 3],
        mark: Option<Mark>,
    ) -> Banks<D>
        requires ready { IsReady (gathered cells banks heads mark) (D.state disk) }
        ensures disk { result.disk ≡ disk }
        ensures parts { result.parts ≡ gathered cells banks heads mark }
        ensures store { IsStore result.parts (D.state result.disk) }
    {
        Banks {
            disk,
            parts: Parts {
                mission: PlanBanks {
                    cell: cells[0],
                    bank: banks[0],
                    head: heads[0],
                },
                fence: PlanBanks {
                    cell: cells[1],
                    bank: banks[1],
                    head: heads[1],
                },
                safe: PlanBanks {
                    cell: cells[2],
                    bank: banks[2],
                    head: heads[2],
                },
                mark_cell: cells[3],
                mark,
                doubt: None,
            },
        }
    }

    /// The plan in force.
    pub fn head(&self, kind: PlanType) -> PlanHead
        ensures { result ≡ ((ledger_of self.now.parts).entries kind).head }
    {
        self.parts.banks_of(kind).head
    }

    /// The stored mark of the mission, if one is stored.
    pub fn mark(&self) -> Option<Mark>
        ensures { result ≡ (ledger_of self.now.parts).mark }
    {
        self.parts.mark
    }

    /// Whether this is the bank that is not in force.
    pub fn is_spare(&self, kind: PlanType, bank: u8) -> bool
        ensures { IsTrue result ↔ (bank ≡ 1 - ((ledger_of self.now.parts).entries kind).bank) }
    {
        bank == self.parts.banks_of(kind).spare()
    }

    /// Whether a restart may find a change done that was answered as failed.
    pub fn in_doubt(&self) -> bool
        ensures { IsTrue result ↔ IsSome (ledger_of self.now.parts).doubt }
    {
        self.parts.doubt.is_some()
    }

    /// The disk.
    pub fn into_disk(self) -> D
        ensures { result ≡ self.disk }
    {
        self.disk
    }

    /// Closes the gate of the change in doubt, so that what was in force stays. A refusal leaves the doubt as it is.
    pub fn settle_doubt(&mut self) -> Result<(), DiskFault>
        requires doubt { IsSome (ledger_of self.old.parts).doubt }
        requires store { IsStore self.old.parts (D.state self.old.disk) }

        ensures settled { OnOk result (ledger_of self.new.parts ≡ record (ledger_of self.old.parts) { doubt = None }) }
        ensures err { OnErr result (ledger_of self.new.parts ≡ ledger_of self.old.parts) }
        ensures store { IsStore self.new.parts (D.state self.new.disk) }
        ensures records { IsTrue (D.state self.new.disk).tells → SameRecords (D.state self.old.disk) (D.state self.new.disk) }
        ensures any_moment { LeavesOnly (D.state self.old.disk) (D.state self.new.disk) (StandsNow (ledger_of self.old.parts) (D.state self.old.disk)) }
        ensures tells { (D.state self.new.disk).tells ≡ (D.state self.old.disk).tells }
        ensures steady { Steady (D.state self.old.disk).meter (D.state self.new.disk).meter }
        ensures calls { OnOk result (Uncut 2 0 (D.state self.old.disk).meter (D.state self.new.disk).meter) }
        ensures no_fault { OnOk result ((D.state self.new.disk).meter.faults ≡ (D.state self.old.disk).meter.faults) }
        ensures asked { AsksBy 2 0 (D.state self.old.disk).meter (D.state self.new.disk).meter result }
        ensures refused { IfErr result (RefusedBy 2 0 (D.state self.old.disk).meter (D.state self.new.disk).meter) }
    {
        match self.parts.doubt {
            Some(change) => {
                let mut cell = self.parts.cell_of(change);
                match cell.resolve(&mut self.disk) {
                    Ok(()) => {
                        self.parts.settle(change, cell);
                        Ok(())
                    }
                    Err(CellFault::Failed) => Err(DiskFault::Failed),
                    Err(CellFault::Cut) => Err(DiskFault::Cut),
                    Err(_) => unreachable!(),
                }
            }
            None => unreachable!(),
        }
    }

    /// Reads an item of the plan in force by one read of 48 bytes. None where they are not its record, which no disk
    /// that keeps what it was told gives.
    pub fn read_item(&mut self, kind: PlanType, seq: u16) -> Result<Option<Item>, DiskFault>
        requires seq { seq < ((ledger_of self.old.parts).entries kind).head.count }
        requires store { IsStore self.old.parts (D.state self.old.disk) }

        ensures parts { self.new.parts ≡ self.old.parts }
        ensures item { IfOk result (λ found. IsTrue (D.state self.old.disk).tells → IsSome found × (found ≡ slice_get (plan_by (ledger_of self.old.parts) kind (D.state self.old.disk).seen).items seq)) }
        ensures read { IsRead kind ((ledger_of self.old.parts).entries kind) seq (D.state self.old.disk) (D.state self.new.disk) result }
        ensures store { IsStore self.new.parts (D.state self.new.disk) }
        ensures still { Still (D.state self.old.disk) (D.state self.new.disk) }
        ensures time { Elapses (D.state self.old.disk) (D.state self.new.disk) }
    {
        let banks = self.parts.banks_of(kind);
        let found = get_record(&mut self.disk, banks.bank, kind, seq)?;
        Ok(item_by(kind, banks.head.id, seq, found))
    }

    /// Writes an item into the spare bank, by one write of 48 bytes.
    pub fn write_item(
        &mut self,
        kind: PlanType,
        id: u32,
        seq: u16,
        item: &Item,
    ) -> Result<(), DiskFault>
        requires settled { (ledger_of self.old.parts).doubt ≡ None }
        requires newer { ((ledger_of self.old.parts).entries kind).head.id < id }
        requires seq { seq < limit_of kind }
        requires store { IsStore self.old.parts (D.state self.old.disk) }

        ensures parts { self.new.parts ≡ self.old.parts }
        ensures wrote { Writes (record_at Two kind (1 - ((ledger_of self.old.parts).entries kind).bank) seq) (item_bytes kind id seq item.now) (D.state self.old.disk) (D.state self.new.disk) result }
        ensures written { OnOk result (IsTrue (D.state self.new.disk).tells →
            record_in kind (1 - ((ledger_of self.old.parts).entries kind).bank) seq (D.state self.new.disk).seen ≡ Some (record { kind = kind; id = id; seq = seq; item = item.now })) }
        ensures others { IsTrue (D.state self.new.disk).tells → OtherRecords kind (1 - ((ledger_of self.old.parts).entries kind).bank) seq (D.state self.old.disk) (D.state self.new.disk) }
        ensures store { IsStore self.new.parts (D.state self.new.disk) }
        ensures any_moment { LeavesOnly (D.state self.old.disk) (D.state self.new.disk) (IsOf (holding_in (ledger_of self.old.parts) (D.state self.old.disk).seen)) }
    {
        let bank = self.parts.banks_of(kind).spare();
        put_record(&mut self.disk, bank, kind, id, seq, item)
    }

    /// Puts the plan in the spare bank in force, of which each item was written. After a cut nothing is to be asked of
    /// these banks but their disk.
    pub fn commit(&mut self, kind: PlanType, id: u32, count: u16) -> Result<(), CellFault>
        requires calm { (ledger_of self.old.parts).doubt ≡ None }
        requires newer { ((ledger_of self.old.parts).entries kind).head.id < id }
        requires within { count ≤ limit_of kind }
        requires written { IsTrue (D.state self.old.disk).tells → HasItems kind (1 - ((ledger_of self.old.parts).entries kind).bank) (draft_by (ledger_of self.old.parts) kind (record { id = id; count = count }) (D.state self.old.disk).seen) (D.state self.old.disk).seen }
        requires valid { IsTrue (D.state self.old.disk).tells → PlanValid kind (draft_by (ledger_of self.old.parts) kind (record { id = id; count = count }) (D.state self.old.disk).seen).items }
        requires store { IsStore self.old.parts (D.state self.old.disk) }

        ensures done { OnOk result (ledger_of self.new.parts ≡ done (doubt.Plan kind (record { id = id; count = count })) (ledger_of self.old.parts)) }
        ensures err { IfErr result (LedgerAfter (doubt.Plan kind (record { id = id; count = count })) (ledger_of self.old.parts) (ledger_of self.new.parts)) }
        ensures store { OnOk result (IsStore self.new.parts (D.state self.new.disk)) }
        ensures kept { IfErr result (StoreAfter self.new.parts (D.state self.new.disk)) }
        ensures records { IsTrue (D.state self.new.disk).tells → SameRecords (D.state self.old.disk) (D.state self.new.disk) }
        ensures now { OnOk result ((c : List ℕ) → (D.state self.new.disk).images c → IsOf (changed (holding_in (ledger_of self.old.parts) (D.state self.old.disk).seen) (change_in (ledger_of self.old.parts) (doubt.Plan kind (record { id = id; count = count })) (D.state self.old.disk).seen)) c) }
        ensures any_moment { LeavesOnly (D.state self.old.disk) (D.state self.new.disk) (λ c.
            IsOf (holding_in (ledger_of self.old.parts) (D.state self.old.disk).seen) c
            ⊎ IsOf (changed (holding_in (ledger_of self.old.parts) (D.state self.old.disk).seen) (change_in (ledger_of self.old.parts) (doubt.Plan kind (record { id = id; count = count })) (D.state self.old.disk).seen)) c) }
        ensures durable { OnOk result (Only (D.state self.new.disk).seen (D.state self.new.disk).images) }
        ensures tells { (D.state self.new.disk).tells ≡ (D.state self.old.disk).tells }
        ensures steady { Steady (D.state self.old.disk).meter (D.state self.new.disk).meter }
        ensures calls { OnOk result (Uncut 6 0 (D.state self.old.disk).meter (D.state self.new.disk).meter) }
        ensures no_fault { OnOk result ((D.state self.new.disk).meter.faults ≡ (D.state self.old.disk).meter.faults) }
        ensures asked { ((ledger_of self.old.parts).entries kind).generation + 1 < 2 ^ 64 → Asks 6 0 (D.state self.old.disk).meter (D.state self.new.disk).meter result }
        ensures refused { IfErr result (NotDone ((ledger_of self.old.parts).entries kind).generation (D.state self.old.disk).meter (D.state self.new.disk).meter) }
        ensures spent { ((ledger_of self.old.parts).entries kind).generation ≡ 2 ^ 64 - 1 → (result ≡ Err (cell_fault.Spent (2 ^ 64 - 1))) × (self.new.disk ≡ self.old.disk) }
    {
        let banks = self.parts.banks_of(kind);
        let head = PlanHead { id, count };
        let mut cell = banks.cell;
        let payload = encode_state(banks.spare(), head);
        let swapped = swap(&mut self.disk, &mut cell, &payload);
        match swapped {
            Ok(()) => self.parts.take_plan(kind, cell, head),
            Err(_) => self.parts.keep(Doubt::Plan { kind, head }, cell),
        }
        swapped
    }

    /// Stores a mark of the mission in force. After a cut nothing is to be asked of these banks but their disk.
    pub fn write_mark(&mut self, mark: &Mark) -> Result<(), CellFault>
        requires calm { (ledger_of self.old.parts).doubt ≡ None }
        requires fits { IsTrue (D.state self.old.disk).tells → MarkFits (plain_mark mark.now) (plan_by (ledger_of self.old.parts) Mission (D.state self.old.disk).seen) }
        requires store { IsStore self.old.parts (D.state self.old.disk) }

        ensures done { OnOk result (ledger_of self.new.parts ≡ done (doubt.Mark mark.now) (ledger_of self.old.parts)) }
        ensures err { IfErr result (LedgerAfter (doubt.Mark mark.now) (ledger_of self.old.parts) (ledger_of self.new.parts)) }
        ensures store { OnOk result (IsStore self.new.parts (D.state self.new.disk)) }
        ensures kept { IfErr result (StoreAfter self.new.parts (D.state self.new.disk)) }
        ensures records { IsTrue (D.state self.new.disk).tells → SameRecords (D.state self.old.disk) (D.state self.new.disk) }
        ensures now { OnOk result ((c : List ℕ) → (D.state self.new.disk).images c → IsOf (changed (holding_in (ledger_of self.old.parts) (D.state self.old.disk).seen) (change_in (ledger_of self.old.parts) (doubt.Mark mark.now) (D.state self.old.disk).seen)) c) }
        ensures any_moment { LeavesOnly (D.state self.old.disk) (D.state self.new.disk) (λ c.
            IsOf (holding_in (ledger_of self.old.parts) (D.state self.old.disk).seen) c
            ⊎ IsOf (changed (holding_in (ledger_of self.old.parts) (D.state self.old.disk).seen) (change_in (ledger_of self.old.parts) (doubt.Mark mark.now) (D.state self.old.disk).seen)) c) }
        ensures durable { OnOk result (Only (D.state self.new.disk).seen (D.state self.new.disk).images) }
        ensures tells { (D.state self.new.disk).tells ≡ (D.state self.old.disk).tells }
        ensures steady { Steady (D.state self.old.disk).meter (D.state self.new.disk).meter }
        ensures calls { OnOk result (Uncut 6 0 (D.state self.old.disk).meter (D.state self.new.disk).meter) }
        ensures no_fault { OnOk result ((D.state self.new.disk).meter.faults ≡ (D.state self.old.disk).meter.faults) }
        ensures asked { (ledger_of self.old.parts).mark_generation + 1 < 2 ^ 64 → Asks 6 0 (D.state self.old.disk).meter (D.state self.new.disk).meter result }
        ensures refused { IfErr result (NotDone (ledger_of self.old.parts).mark_generation (D.state self.old.disk).meter (D.state self.new.disk).meter) }
        ensures spent { (ledger_of self.old.parts).mark_generation ≡ 2 ^ 64 - 1 → (result ≡ Err (cell_fault.Spent (2 ^ 64 - 1))) × (self.new.disk ≡ self.old.disk) }
    {
        let mut cell = self.parts.mark_cell;
        let swapped = swap(&mut self.disk, &mut cell, &encode_mark(mark));
        match swapped {
            Ok(()) => self.parts.take_mark(cell, *mark),
            Err(_) => self.parts.keep(Doubt::Mark(*mark), cell),
        }
        swapped
    }
}

/// The item of a record of this type, id and seq.
fn item_by(kind: PlanType, id: u32, seq: u16, found: Option<Record>) -> Option<Item>
    ensures { result ≡ item_by kind id seq found }
{
    let record = found?;
    if record.kind == kind && record.id == id && record.seq == seq {
        Some(record.item)
    } else {
        None
    }
}
