// The services of a request. A doubt is settled first, reads included, since what a reply tells must stay true over a
// restart.
ghost use Rattle.std.specs.Prelude.{◌≡◌, ◌≢◌, ◌+◌, None, Err, IsTrue, IfErr, OnOk};
ghost use Rattle.disk_model.specs.Every.{Steady};
ghost use Rattle.disk_model.specs.Meters.{Uncut};
ghost use Rattle.disk_model.specs.Moments.{LeavesOnly};
ghost use Rattle.plan_store.specs.StoreState.{StoreState};
ghost use Rattle.plan_store.specs.CanServe.{CanServe};
ghost use Rattle.bank_state.specs.Ledger.{ledger_of};
ghost use Rattle.bank_state.specs.Store.{IsStore, SameRecords, StandsNow};
ghost use Rattle.dataman_worker.specs.Holds.{Holds};
ghost use Rattle.dataman_worker.specs.CanAsk.{CanAsk};
ghost use Rattle.dataman_worker.specs.Answers.{Answers, NotSettled, calm, settling, change_told, fault_told, IsNoTwins};
ghost use Rattle.dataman_worker.specs.Served.{Served, UnlessOff};

use bank_state::Banks;
use disk_model::{Disk, DiskFault};
use gated_cell::CellFault;
use mission_model::{Item, Mark, PlanType, Reply, Request};

/// Serves one request. After `PowerOff` nothing is to be asked of the banks but their disk.
pub fn serve<D: Disk>(banks: &mut Banks<D>, request: &Request) -> Reply
    requires store { IsStore banks.old.parts (D.state banks.old.disk) }
    requires asked { CanAsk (ledger_of banks.old.parts) (D.state banks.old.disk) request.now }

    ensures answers { Answers request.now (D.state banks.old.disk).tells (ledger_of banks.old.parts) (ledger_of banks.new.parts) (D.state banks.old.disk).meter (D.state banks.new.disk).meter result }
    ensures store { UnlessOff result (IsStore banks.new.parts (D.state banks.new.disk)) }
    ensures steady { Steady (D.state banks.old.disk).meter (D.state banks.new.disk).meter }
    ensures tells { (D.state banks.new.disk).tells ≡ (D.state banks.old.disk).tells }
    ensures powered { IsTrue (D.state banks.old.disk).meter.power → (D.state banks.old.disk).meter.armed ≡ None → result ≢ Reply.PowerOff }
    ensures served { IsTrue (D.state banks.old.disk).tells → (st : StoreState) → Holds st (ledger_of banks.old.parts) (D.state banks.old.disk).seen → CanServe st request.now → Served st request.now result (ledger_of banks.new.parts) (D.state banks.old.disk) (D.state banks.new.disk) }
{
    match settle(banks) {
        Ok(()) => answer(banks, request),
        Err(fault) => refused(fault),
    }
}

/// Settles the doubt, if there is one.
fn settle<D: Disk>(banks: &mut Banks<D>) -> Result<(), DiskFault>
    requires { IsStore banks.old.parts (D.state banks.old.disk) }

    ensures settled { OnOk result (ledger_of banks.new.parts ≡ calm (ledger_of banks.old.parts)) }
    ensures calls { OnOk result (Uncut (settling (ledger_of banks.old.parts).doubt) 0 (D.state banks.old.disk).meter (D.state banks.new.disk).meter) }
    ensures no_fault { OnOk result ((D.state banks.new.disk).meter.faults ≡ (D.state banks.old.disk).meter.faults) }
    ensures refused { IfErr result (λ fault. NotSettled fault (ledger_of banks.old.parts) (ledger_of banks.new.parts) (D.state banks.old.disk).meter (D.state banks.new.disk).meter) }
    ensures store { IsStore banks.new.parts (D.state banks.new.disk) }
    ensures records { IsTrue (D.state banks.new.disk).tells → SameRecords (D.state banks.old.disk) (D.state banks.new.disk) }
    ensures any_moment { LeavesOnly (D.state banks.old.disk) (D.state banks.new.disk) (StandsNow (ledger_of banks.old.parts) (D.state banks.old.disk)) }
    ensures steady { Steady (D.state banks.old.disk).meter (D.state banks.new.disk).meter }
    ensures tells { (D.state banks.new.disk).tells ≡ (D.state banks.old.disk).tells }
{
    if banks.in_doubt() {
        banks.settle_doubt()
    } else {
        Ok(())
    }
}

/// Serves a request of banks without a doubt.
fn answer<D: Disk>(banks: &mut Banks<D>, request: &Request) -> Reply
    requires calm { (ledger_of banks.old.parts).doubt ≡ None }
    requires store { IsStore banks.old.parts (D.state banks.old.disk) }
    requires asked { CanAsk (ledger_of banks.old.parts) (D.state banks.old.disk) request.now }

    ensures answers { Answers request.now (D.state banks.old.disk).tells (ledger_of banks.old.parts) (ledger_of banks.new.parts) (D.state banks.old.disk).meter (D.state banks.new.disk).meter result }
    ensures store { UnlessOff result (IsStore banks.new.parts (D.state banks.new.disk)) }
    ensures steady { Steady (D.state banks.old.disk).meter (D.state banks.new.disk).meter }
    ensures tells { (D.state banks.new.disk).tells ≡ (D.state banks.old.disk).tells }
    ensures served { IsTrue (D.state banks.old.disk).tells → (st : StoreState) → Holds st (ledger_of banks.old.parts) (D.state banks.old.disk).seen → CanServe st request.now → Served st request.now result (ledger_of banks.new.parts) (D.state banks.old.disk) (D.state banks.new.disk) }
{
    match *request {
        Request::Read { kind, id, seq } => read(banks, kind, id, seq),
        Request::Write {
            kind,
            id,
            seq,
            item,
        } => write(banks, kind, id, seq, &item),
        Request::Commit { kind, id, count } => commit(banks, kind, id, count),
        Request::SetMark(mark) => set_mark(banks, &mark),
    }
}

/// Serves a read. Another id than the one in force is told that one.
fn read<D: Disk>(banks: &mut Banks<D>, kind: PlanType, id: u32, seq: u16) -> Reply
    requires calm { (ledger_of banks.old.parts).doubt ≡ None }
    requires store { IsStore banks.old.parts (D.state banks.old.disk) }
    requires asked { CanAsk (ledger_of banks.old.parts) (D.state banks.old.disk) (Request.Read kind id seq) }

    ensures answers { Answers (Request.Read kind id seq) (D.state banks.old.disk).tells (ledger_of banks.old.parts) (ledger_of banks.new.parts) (D.state banks.old.disk).meter (D.state banks.new.disk).meter result }
    ensures store { UnlessOff result (IsStore banks.new.parts (D.state banks.new.disk)) }
    ensures steady { Steady (D.state banks.old.disk).meter (D.state banks.new.disk).meter }
    ensures tells { (D.state banks.new.disk).tells ≡ (D.state banks.old.disk).tells }
    ensures served { IsTrue (D.state banks.old.disk).tells → (st : StoreState) → Holds st (ledger_of banks.old.parts) (D.state banks.old.disk).seen → CanServe st (Request.Read kind id seq) → Served st (Request.Read kind id seq) result (ledger_of banks.new.parts) (D.state banks.old.disk) (D.state banks.new.disk) }
{
    let in_force = banks.head(kind).id;
    if id != in_force {
        return Reply::Stale(in_force);
    }
    match banks.read_item(kind, seq) {
        Ok(Some(item)) => Reply::Item(item),
        Ok(None) => Reply::Stale(in_force),
        Err(fault) => refused(fault),
    }
}

/// Serves a write into the spare bank.
fn write<D: Disk>(banks: &mut Banks<D>, kind: PlanType, id: u32, seq: u16, item: &Item) -> Reply
    requires calm { (ledger_of banks.old.parts).doubt ≡ None }
    requires store { IsStore banks.old.parts (D.state banks.old.disk) }
    requires asked { CanAsk (ledger_of banks.old.parts) (D.state banks.old.disk) (Request.Write kind id seq item.now) }

    ensures answers { Answers (Request.Write kind id seq item.now) (D.state banks.old.disk).tells (ledger_of banks.old.parts) (ledger_of banks.new.parts) (D.state banks.old.disk).meter (D.state banks.new.disk).meter result }
    ensures store { UnlessOff result (IsStore banks.new.parts (D.state banks.new.disk)) }
    ensures steady { Steady (D.state banks.old.disk).meter (D.state banks.new.disk).meter }
    ensures tells { (D.state banks.new.disk).tells ≡ (D.state banks.old.disk).tells }
    ensures served { IsTrue (D.state banks.old.disk).tells → (st : StoreState) → Holds st (ledger_of banks.old.parts) (D.state banks.old.disk).seen → CanServe st (Request.Write kind id seq item.now) → Served st (Request.Write kind id seq item.now) result (ledger_of banks.new.parts) (D.state banks.old.disk) (D.state banks.new.disk) }
{
    match banks.write_item(kind, id, seq, item) {
        Ok(()) => Reply::Done,
        Err(fault) => refused(fault),
    }
}

/// Serves the commit of what was written.
fn commit<D: Disk>(banks: &mut Banks<D>, kind: PlanType, id: u32, count: u16) -> Reply
    requires calm { (ledger_of banks.old.parts).doubt ≡ None }
    requires store { IsStore banks.old.parts (D.state banks.old.disk) }
    requires asked { CanAsk (ledger_of banks.old.parts) (D.state banks.old.disk) (Request.Commit kind id count) }

    ensures answers { Answers (Request.Commit kind id count) (D.state banks.old.disk).tells (ledger_of banks.old.parts) (ledger_of banks.new.parts) (D.state banks.old.disk).meter (D.state banks.new.disk).meter result }
    ensures store { UnlessOff result (IsStore banks.new.parts (D.state banks.new.disk)) }
    ensures steady { Steady (D.state banks.old.disk).meter (D.state banks.new.disk).meter }
    ensures tells { (D.state banks.new.disk).tells ≡ (D.state banks.old.disk).tells }
    ensures served { IsTrue (D.state banks.old.disk).tells → (st : StoreState) → Holds st (ledger_of banks.old.parts) (D.state banks.old.disk).seen → CanServe st (Request.Commit kind id count) → Served st (Request.Commit kind id count) result (ledger_of banks.new.parts) (D.state banks.old.disk) (D.state banks.new.disk) }
{
    changed(banks.commit(kind, id, count))
}

/// Serves a mark. That of another mission than the one in force is told the id of that one.
fn set_mark<D: Disk>(banks: &mut Banks<D>, mark: &Mark) -> Reply
    requires calm { (ledger_of banks.old.parts).doubt ≡ None }
    requires store { IsStore banks.old.parts (D.state banks.old.disk) }
    requires asked { CanAsk (ledger_of banks.old.parts) (D.state banks.old.disk) (Request.SetMark mark.now) }

    ensures answers { Answers (Request.SetMark mark.now) (D.state banks.old.disk).tells (ledger_of banks.old.parts) (ledger_of banks.new.parts) (D.state banks.old.disk).meter (D.state banks.new.disk).meter result }
    ensures store { UnlessOff result (IsStore banks.new.parts (D.state banks.new.disk)) }
    ensures steady { Steady (D.state banks.old.disk).meter (D.state banks.new.disk).meter }
    ensures tells { (D.state banks.new.disk).tells ≡ (D.state banks.old.disk).tells }
    ensures served { IsTrue (D.state banks.old.disk).tells → (st : StoreState) → Holds st (ledger_of banks.old.parts) (D.state banks.old.disk).seen → CanServe st (Request.SetMark mark.now) → Served st (Request.SetMark mark.now) result (ledger_of banks.new.parts) (D.state banks.old.disk) (D.state banks.new.disk) }
{
    let in_force = banks.head(PlanType::Mission).id;
    if mark.id != in_force {
        return Reply::Stale(in_force);
    }
    changed(banks.write_mark(mark))
}

/// What a change is replied.
fn changed(outcome: Result<(), CellFault>) -> Reply
    requires { IfErr outcome IsNoTwins }
    ensures { result ≡ change_told outcome }
{
    match outcome {
        Ok(()) => Reply::Done,
        Err(CellFault::Failed) => Reply::DiskFailed,
        Err(CellFault::Cut) => Reply::PowerOff,
        Err(CellFault::Spent(generation)) => Reply::Spent(generation),
        Err(CellFault::Twins(_)) => unreachable!(),
    }
}

/// What a fault of the disk is replied.
fn refused(fault: DiskFault) -> Reply
    ensures { result ≡ fault_told fault }
{
    match fault {
        DiskFault::Failed => Reply::DiskFailed,
        DiskFault::Cut => Reply::PowerOff,
    }
}
