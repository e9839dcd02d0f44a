// One record of a bank, read or written.
ghost use Rattle.dataman_layout.specs.declared.layout.Layout.TheVariants.{Two};
ghost use Rattle.std.specs.Prelude.{◌≡◌, ◌≤◌, ◌<◌, length, Some};
ghost use Rattle.mission_model.specs.PlanCode.{limit_of};
ghost use Rattle.mission_model.specs.declared.limits.TheConstants.{STORE_BYTES};
ghost use Rattle.disk_model.specs.Disk.{Writes};
ghost use Rattle.dataman_layout.specs.Item.{item_bytes, item_in};
ghost use Rattle.dataman_layout.specs.Places.{record_at};
ghost use Rattle.bank_state.specs.Outcomes.{GivesRecord};

use dataman_layout::places::record_at;
use dataman_layout::{Layout, Record, decode_item, encode_item};
use disk_model::{Disk, DiskFault};
use mission_model::{Item, PlanType};

/// Writes the record of an item at its place in a bank.
pub fn put_record<D: Disk>(
    disk: &mut D,
    bank: u8,
    kind: PlanType,
    id: u32,
    seq: u16,
    item: &Item,
) -> Result<(), DiskFault>
    requires bank { bank < 2 }
    requires seq { seq < limit_of kind }
    requires room { STORE_BYTES ≤ (D.state disk.old).meter.size }

    ensures wrote { Writes (record_at Two kind bank seq) (item_bytes kind id seq item.now) (D.state disk.old) (D.state disk.new) result }
    ensures long { length (item_bytes kind id seq item.now) ≡ 48 }
    ensures read { item_in (item_bytes kind id seq item.now) ≡ Some (record { kind = kind; id = id; seq = seq; item = item.now }) }
{
    disk.write_at(
        record_at(Layout::Two, kind, bank, seq),
        &encode_item(kind, id, seq, item),
    )
}

/// Reads the record at a place of a bank, if one stands there.
pub fn get_record<D: Disk>(
    disk: &mut D,
    bank: u8,
    kind: PlanType,
    seq: u16,
) -> Result<Option<Record>, DiskFault>
    requires { bank < 2 }
    ensures { GivesRecord kind bank seq (D.state disk.old) (D.state disk.new) result }
{
    let mut bytes = [0; 48];
    disk.read_at(record_at(Layout::Two, kind, bank, seq), &mut bytes)?;
    Ok(decode_item(&bytes))
}
