// The cells of a store, opened in the order of a boot.
ghost use Rattle.dataman_layout.specs.Layouts.{limit_in, most_pairs};
ghost use Rattle.dataman_layout.specs.State.{StateRecord, state_in};
ghost use Rattle.std.specs.Prelude.{◌≡◌, ◌+◌, ◌*◌, ◌^◌, ◌<◌, ◌≤◌, ◌-◌, false, get_or, length, IsTrue, IfSome, IfOk, IfErr};
ghost use Rattle.dataman_layout.specs.Fields.{number_at};
ghost use Rattle.dataman_layout.specs.declared.layout.Layout.TheVariants.{One};
ghost use Rattle.mission_model.specs.declared.limits.TheConstants.{STORE_BYTES};
ghost use Rattle.mission_model.specs.PlainMark.{plain_mark};
ghost use Rattle.disk_model.specs.Disk.{Only};
ghost use Rattle.gated_cell.specs.Cell.{held};
ghost use Rattle.dataman_layout.specs.Mark.{mark_in, plain_marks};
ghost use Rattle.plan_store.specs.StoreState.{StoredPlan};
ghost use Rattle.bank_state.specs.Plans.{head_of};
ghost use Rattle.bank_state.specs.StandsFor.{compat_place, state_cell, mark_cell};
ghost use Rattle.recovery.specs.declared.fault.BootFault.TheVariants.{BadCell};
ghost use Rattle.recovery.specs.Faults.{twins_fault, layout_by, layout_in, unknown, unclean, unmovable, version_fault, compat_fault, state_number, state_fault, states_fault, mark_number, fits, unfit, mark_fault};
ghost use Rattle.recovery.specs.Standing.{kept_of, mark_at};
ghost use Rattle.recovery.specs.Steps.{Step, IsOfDisk, Answers, judged, fault_of};
ghost use Rattle.recovery.specs.Found.{IsFound, IsMarkFound, IsOpened, AreBanks, BanksIn, AreStates, StatesIn, HasJumps, HasJumpsOf, IsWithin};

use crate::BootFault;
use crate::jumps::allow;
use bank_state::PlanBanks;
use dataman_layout::places::{COMPAT_AT, SMALL_SLOT_BYTES, mark_at, mark_slot_bytes, state_at};
use dataman_layout::{
    Layout, decode_compat, decode_mark, decode_mark_one, decode_state, decode_state_one, version_in,
};
use disk_model::Disk;
use gated_cell::{CellFault, CellPlace, GatedCell};
use mission_model::{Counts, Mark, PlanHead, PlanType};

/// The number of the compat cell, before those of the states.
pub const COMPAT_CELL: u8 = 0;

/// The number of the mark cell, behind those of the states.
pub const MARK_CELL: u8 = 4;

/// The number of the state cell of a plan's type.
fn state_number(kind: PlanType) -> u8
    ensures { result ≡ state_number kind }
{
    match kind {
        PlanType::Mission => 1,
        PlanType::Fence => 2,
        PlanType::Safe => 3,
    }
}

/// The fault of opening the cell of this number.
pub fn fault_of(number: u8, fault: CellFault) -> BootFault
    ensures { result ≡ fault_of number fault }
{
    match fault {
        CellFault::Failed => BootFault::DiskFailed,
        CellFault::Cut => BootFault::PowerOff,
        CellFault::Twins(_) | CellFault::Spent(_) => BootFault::BadCell(number),
    }
}

/// Opens the cell of this number by two reads, and puts what is in force into `payload`, if anything is.
fn open_cell<D: Disk>(
    disk: &mut D,
    number: u8,
    place: CellPlace,
    payload: &mut [u8],
) -> Result<GatedCell, BootFault>
    requires room { place.at + 2 * place.slot_bytes ≤ (D.state disk.old).meter.size }
    requires slot { 9 ≤ place.slot_bytes }
    requires length { length payload.old ≡ place.slot_bytes - 9 }
    requires only { Only (D.state disk.old).seen (D.state disk.old).images }

    ensures place { IfOk result (λ cell. cell.place ≡ place) }
    ensures calm { IfOk result (λ cell. cell.doubt ≡ false) }
    ensures step { Step 2 (D.state disk.old) (D.state disk.new) result }
    ensures answers { IsTrue (D.state disk.old).tells → Answers (twins_fault number (held place (D.state disk.old).seen)) (λ cell. IsFound cell place payload.new (D.state disk.old).seen) result }
{
    match GatedCell::open(disk, place, payload) {
        Ok(cell) => Ok(cell),
        Err(fault) => Err(fault_of(number, fault)),
    }
}

/// Reads the first byte of the store.
pub fn first_byte<D: Disk>(disk: &mut D) -> Result<u8, BootFault>
    ensures step { Step 1 (D.state disk.old) (D.state disk.new) result }
    ensures of_disk { IfErr result IsOfDisk }
    ensures byte { IfOk result (λ byte. IsTrue (D.state disk.old).tells → byte ≡ get_or (D.state disk.old).seen 0 0) }
{
    let mut first = [0];
    disk.read_at(COMPAT_AT, &mut first)?;
    Ok(first[0])
}

/// The layout of this version, if it is one's.
fn known_layout(version: u32) -> Result<Layout, BootFault>
    ensures answers { Answers (unknown version) (λ layout. layout ≡ layout_by version) result }
    ensures found { IfErr result (λ fault. IsOfDisk fault → ⊥) }
{
    match version {
        1 => Ok(Layout::One),
        2 => Ok(Layout::Two),
        _ => Err(BootFault::UnknownVersion(version)),
    }
}

/// Whether only zeros stand behind the version.
fn judge_rest(payload: &[u8; 7]) -> Result<(), BootFault>
    ensures { result ≡ judged (unclean payload.now) }
{
    match decode_compat(payload) {
        Some(_) => Ok(()),
        None => Err(BootFault::BadCell(COMPAT_CELL)),
    }
}

/// Whether the cell can be changed once more, which a store of layout 1 wants so that it can be migrated.
fn judge_generation(layout: Layout, generation: u64) -> Result<(), BootFault>
    ensures { result ≡ judged (unmovable layout generation) }
{
    match layout {
        Layout::One => {
            if generation < u64::MAX {
                Ok(())
            } else {
                Err(BootFault::BadCell(COMPAT_CELL))
            }
        }
        Layout::Two => Ok(()),
    }
}

/// The layout that the payload in force tells, behind this generation.
fn judge_compat(payload: &[u8; 7], generation: u64) -> Result<Layout, BootFault>
    ensures answers { Answers (version_fault generation payload.now) (λ layout. layout ≡ layout_by (number_at 0 4 payload.now)) result }
    ensures movable { IfOk result (λ layout. layout ≡ One → generation + 1 < 2 ^ 64) }
    ensures found { IfErr result (λ fault. IsOfDisk fault → ⊥) }
{
    let layout = known_layout(version_in(payload))?;
    judge_rest(payload)?;
    judge_generation(layout, generation)?;
    Ok(layout)
}

/// Opens the compat cell, which tells the layout of the store. Where none of its gates is open the first byte is read once
/// more, to tell it.
pub fn open_compat<D: Disk>(disk: &mut D) -> Result<(GatedCell, Layout), BootFault>
    requires room { STORE_BYTES ≤ (D.state disk.old).meter.size }
    requires only { Only (D.state disk.old).seen (D.state disk.old).images }
    ensures step { Step 2 (D.state disk.old) (D.state disk.new) result }
    ensures place { IfOk result (λ found. found.0.place ≡ compat_place) }
    ensures calm { IfOk result (λ found. found.0.doubt ≡ false) }
    ensures movable { IfOk result (λ found. found.1 ≡ One → found.0.generation + 1 < 2 ^ 64) }
    ensures answers { IsTrue (D.state disk.old).tells → Answers (compat_fault (get_or (D.state disk.old).seen 0 0) (held compat_place (D.state disk.old).seen))
        (λ found. IsOpened found.0 (D.state disk.old).seen × (found.1 ≡ layout_in (held compat_place (D.state disk.old).seen))) result }
{
    let mut payload = [0; 7];
    let place = CellPlace {
        at: COMPAT_AT,
        slot_bytes: SMALL_SLOT_BYTES,
    };
    let cell = open_cell(disk, COMPAT_CELL, place, &mut payload)?;
    if !cell.has_payload() {
        let byte = first_byte(disk)?;
        return Err(BootFault::NotAStore(byte));
    }
    let layout = judge_compat(&payload, cell.generation())?;
    Ok((cell, layout))
}

/// The bank and the plan that these bytes of a state cell name.
fn named_in(layout: Layout, kind: PlanType, payload: &[u8; 7]) -> Option<(u8, PlanHead)>
    ensures read { result ≡ state_in (limit_in layout kind) payload.now }
    ensures found { IfSome result (λ s. StateRecord (limit_in layout kind) payload.now s.0 s.1) }
{
    match layout {
        Layout::One => decode_state_one(kind, payload),
        Layout::Two => decode_state(kind, payload),
    }
}

/// Opens the state cell of a plan's type, which names the bank in force and the plan in it.
fn open_state<D: Disk>(disk: &mut D, layout: Layout, kind: PlanType) -> Result<PlanBanks, BootFault>
    requires room { STORE_BYTES ≤ (D.state disk.old).meter.size }
    requires only { Only (D.state disk.old).seen (D.state disk.old).images }
    ensures step { Step 2 (D.state disk.old) (D.state disk.new) result }
    ensures banks { IfOk result (λ banks. AreBanks layout kind banks) }
    ensures answers { IsTrue (D.state disk.old).tells → Answers (state_fault layout kind (held (state_cell layout kind) (D.state disk.old).seen)) (λ banks. BanksIn layout kind banks (D.state disk.old).seen) result }
{
    let mut payload = [0; 7];
    let number = state_number(kind);
    let place = CellPlace {
        at: state_at(layout, kind),
        slot_bytes: SMALL_SLOT_BYTES,
    };
    let cell = open_cell(disk, number, place, &mut payload)?;
    if !cell.has_payload() {
        return Err(BootFault::BadCell(number));
    }
    match named_in(layout, kind, &payload) {
        Some((bank, head)) => Ok(PlanBanks { cell, bank, head }),
        None => Err(BootFault::BadCell(number)),
    }
}

/// What the three state cells name.
#[derive(Clone, Copy)]
pub struct States {
    pub mission: PlanBanks,
    pub fence: PlanBanks,
    pub safe: PlanBanks,
}

/// Opens the state cells in order of their types.
pub fn open_states<D: Disk>(disk: &mut D, layout: Layout) -> Result<States, BootFault>
    requires room { STORE_BYTES ≤ (D.state disk.old).meter.size }
    requires only { Only (D.state disk.old).seen (D.state disk.old).images }
    ensures step { Step 6 (D.state disk.old) (D.state disk.new) result }
    ensures states { IfOk result (λ states. AreStates layout states) }
    ensures answers { IsTrue (D.state disk.old).tells → Answers (states_fault layout (D.state disk.old).seen) (λ states. StatesIn layout states (D.state disk.old).seen) result }
{
    let mission = open_state(disk, layout, PlanType::Mission)?;
    let fence = open_state(disk, layout, PlanType::Fence)?;
    let safe = open_state(disk, layout, PlanType::Safe)?;
    Ok(States {
        mission,
        fence,
        safe,
    })
}

/// Whether a mark is one of this mission, whose jumps these are.
fn fits(mark: &Mark, mission: PlanHead, jumps: &Counts) -> bool
    ensures { (plan : StoredPlan) → head_of plan ≡ mission → HasJumps plan.items jumps.now → result ≡ fits (plain_mark mark.now) plan }
{
    mark.id == mission.id && mark.index <= mission.count && allow(jumps, &mark.counts)
}

/// The mark that was read, if it is of this mission. One of a mission before is as good as none.
fn judge_mark(
    found: Option<Mark>,
    mission: PlanHead,
    jumps: &Counts,
) -> Result<Option<Mark>, BootFault>
    ensures fault { IfErr result (λ fault. fault ≡ BadCell mark_number) }
    ensures answers { (plan : StoredPlan) → head_of plan ≡ mission → HasJumps plan.items jumps.now →
        Answers (unfit plan (plain_marks found)) (λ mark. plain_marks mark ≡ kept_of mission.id (plain_marks found)) result }
{
    match found {
        Some(mark) => {
            if mark.id < mission.id {
                Ok(None)
            } else if fits(&mark, mission, jumps) {
                Ok(Some(mark))
            } else {
                Err(BootFault::BadCell(MARK_CELL))
            }
        }
        None => Err(BootFault::BadCell(MARK_CELL)),
    }
}

/// What the mark cell has in force: nothing, or a payload with the mark that it is, if it is one's.
fn read_mark<D: Disk>(disk: &mut D, layout: Layout) -> Result<(GatedCell, Option<Mark>), BootFault>
    requires room { STORE_BYTES ≤ (D.state disk.old).meter.size }
    requires only { Only (D.state disk.old).seen (D.state disk.old).images }
    ensures step { Step 2 (D.state disk.old) (D.state disk.new) result }
    ensures place { IfOk result (λ found. found.0.place ≡ mark_cell layout) }
    ensures calm { IfOk result (λ found. found.0.doubt ≡ false) }
    ensures answers { IsTrue (D.state disk.old).tells → Answers (twins_fault mark_number (held (mark_cell layout) (D.state disk.old).seen))
        (λ found. IsMarkFound layout found.0 (plain_marks found.1) (D.state disk.old).seen) result }
{
    match layout {
        Layout::One => {
            let mut payload = [0; 71];
            let place = CellPlace {
                at: mark_at(Layout::One),
                slot_bytes: mark_slot_bytes(Layout::One),
            };
            let cell = open_cell(disk, MARK_CELL, place, &mut payload)?;
            Ok((cell, decode_mark_one(&payload)))
        }
        Layout::Two => {
            let mut payload = [0; 135];
            let place = CellPlace {
                at: mark_at(Layout::Two),
                slot_bytes: mark_slot_bytes(Layout::Two),
            };
            let cell = open_cell(disk, MARK_CELL, place, &mut payload)?;
            Ok((cell, decode_mark(&payload)))
        }
    }
}

/// Opens the mark cell, and gives the stored mark of this mission, if one is stored. The jumps are the mission's.
pub fn open_mark<D: Disk>(
    disk: &mut D,
    layout: Layout,
    mission: PlanHead,
    jumps: &Counts,
) -> Result<(GatedCell, Option<Mark>), BootFault>
    requires room { STORE_BYTES ≤ (D.state disk.old).meter.size }
    requires only { Only (D.state disk.old).seen (D.state disk.old).images }
    ensures step { Step 2 (D.state disk.old) (D.state disk.new) result }
    ensures place { IfOk result (λ found. found.0.place ≡ mark_cell layout) }
    ensures calm { IfOk result (λ found. found.0.doubt ≡ false) }
    ensures within { HasJumpsOf mission.count jumps.now → IfOk result (λ found. IfSome found.1 (λ mark. IsWithin mission (plain_mark mark))) }
    ensures answers { IsTrue (D.state disk.old).tells → (plan : StoredPlan) → head_of plan ≡ mission → HasJumps plan.items jumps.now →
        Answers (mark_fault layout plan (held (mark_cell layout) (D.state disk.old).seen))
        (λ found. IsOpened found.0 (D.state disk.old).seen × (plain_marks found.1 ≡ mark_at layout mission.id (held (mark_cell layout) (D.state disk.old).seen))) result }
{
    let (cell, found) = read_mark(disk, layout)?;
    if !cell.has_payload() {
        return Ok((cell, None));
    }
    let mark = judge_mark(found, mission, jumps)?;
    Ok((cell, mark))
}
