//! The record of an item, 48 bytes.

ghost use Rattle.std.specs.Prelude.{◌≡◌, ◌≤◌, ◌<◌, ◌++◌, ℕ, length, take, drop, Some, IfSome, IfNone};
ghost use Rattle.std.specs.Int.{w32};
ghost use Rattle.std.specs.Int.RustNames.{FitsSigned};
ghost use Rattle.dataman_layout.specs.Fields.{number_bytes, signed_bytes};
ghost use Rattle.dataman_layout.specs.Item.{ItemRecord, item_bytes, item_in, content_in, kind_number, kind_in, flags_of, is_bit, is_set, milli_of, param_in, worth};

use crate::fields::{
    i32_at, is_zeros_from, put_i32, put_u8, put_u16, put_u32, u8_at, u16_at, u32_at,
};
use mission_model::{Item, Param, PlanType};

/// An item at its place: `seq` counts from 0, and `id` is its plan's.
#[derive(Clone, Copy, Debug, PartialEq, Eq)]
pub struct Record {
    pub kind: PlanType,
    pub id: u32,
    pub seq: u16,
    pub item: Item,
}

// Where the fields of a record begin.

const STAMP: usize = 0;

const SEQ: usize = 4;

const KIND: usize = 6;

const FLAGS: usize = 7;

const FRAME: usize = 8;

const COMMAND: usize = 10;

const PARAM1: usize = 12;

const PARAM2: usize = 16;

const PARAM3: usize = 20;

const PARAM4: usize = 24;

const X: usize = 28;

const Y: usize = 32;

const Z: usize = 36;

const TAIL: usize = 40;

/// The first number above all flags.
const FLAGS_END: u8 = 32;

/// The bytes of an item's record.
pub fn encode_item(kind: PlanType, id: u32, seq: u16, item: &Item) -> [u8; 48]
    ensures bytes { result ≡ item_bytes kind id seq item.now }
    ensures read { item_in result ≡ Some (record { kind = kind; id = id; seq = seq; item = item.now }) }
{
    let mut bytes = [0; 48];
    put_head(&mut bytes, kind, id, seq, flags_of(item));
    put_u16(&mut bytes, FRAME, item.frame);
    put_u16(&mut bytes, COMMAND, item.command);
    put_params(&mut bytes, item);
    put_i32(&mut bytes, X, item.x);
    put_i32(&mut bytes, Y, item.y);
    put_i32(&mut bytes, Z, item.z);
    bytes
}

/// Puts the fields before the item's own.
fn put_head(bytes: &mut [u8], kind: PlanType, id: u32, seq: u16, flags: u8)
    requires { length bytes.old ≡ 48 }
    ensures front { take 8 bytes.new ≡ number_bytes 4 id ++ number_bytes 2 seq ++ number_bytes 1 (kind_number kind) ++ number_bytes 1 flags }
    ensures rest { (k : ℕ) → 8 ≤ k → drop k bytes.new ≡ drop k bytes.old }
{
    put_u32(bytes, STAMP, id);
    put_u16(bytes, SEQ, seq);
    put_u8(bytes, KIND, kind_number(kind));
    put_u8(bytes, FLAGS, flags);
}

/// Puts the four parameters.
fn put_params(bytes: &mut [u8], item: &Item)
    requires { length bytes.old ≡ 48 }
    ensures front { take 28 bytes.new ≡ take 12 bytes.old ++ signed_bytes (milli_of item.now.p1) ++ signed_bytes (milli_of item.now.p2) ++ signed_bytes (milli_of item.now.p3) ++ signed_bytes (milli_of item.now.p4) }
    ensures rest { (k : ℕ) → 28 ≤ k → drop k bytes.new ≡ drop k bytes.old }
    ensures fits1 { FitsSigned w32 (milli_of item.now.p1) }
    ensures fits2 { FitsSigned w32 (milli_of item.now.p2) }
    ensures fits3 { FitsSigned w32 (milli_of item.now.p3) }
    ensures fits4 { FitsSigned w32 (milli_of item.now.p4) }
{
    put_i32(bytes, PARAM1, milli_of(&item.p1));
    put_i32(bytes, PARAM2, milli_of(&item.p2));
    put_i32(bytes, PARAM3, milli_of(&item.p3));
    put_i32(bytes, PARAM4, milli_of(&item.p4));
}

/// The number of a plan's type.
fn kind_number(kind: PlanType) -> u8
    ensures { result ≡ kind_number kind }
{
    match kind {
        PlanType::Mission => 0,
        PlanType::Fence => 1,
        PlanType::Safe => 2,
    }
}

/// The number of a parameter, 0 for one that is not set.
fn milli_of(param: &Param) -> i32
    ensures { result ≡ milli_of param.now }
{
    match *param {
        Param::Unset => 0,
        Param::Milli(milli) => milli,
    }
}

/// What a flag is worth.
fn worth(flag: bool, bit: u8) -> u8
    ensures { result ≡ worth flag bit }
{
    if flag { bit } else { 0 }
}

/// Whether a parameter is set.
fn is_set(param: &Param) -> bool
    ensures { result ≡ is_set param.now }
{
    match *param {
        Param::Unset => false,
        Param::Milli(_) => true,
    }
}

/// The flags of an item: bit 0 for auto, bits 1 to 4 for the parameters that are set.
fn flags_of(item: &Item) -> u8
    ensures { result ≡ flags_of item.now }
{
    let params = worth(is_set(&item.p1), 2)
        | worth(is_set(&item.p2), 4)
        | worth(is_set(&item.p3), 8)
        | worth(is_set(&item.p4), 16);
    worth(item.auto, 1) | params
}

/// The record that these bytes are, if they are one's.
pub fn decode_item(bytes: &[u8; 48]) -> Option<Record>
    ensures read { result ≡ item_in bytes.now }
    ensures found { IfSome result (λ r. ItemRecord bytes.now r) }
    ensures bytes { IfSome result (λ r. bytes.now ≡ item_bytes r.kind r.id r.seq r.item) }
    ensures none { IfNone result ((r : Record) → ItemRecord bytes.now r → ⊥) }
{
    record_of(bytes)
}

/// The record by its fields.
#[tactic(auto, unfolding(crate::specs::Item::item_in))]
fn record_of(bytes: &[u8; 48]) -> Option<Record>
    ensures { result ≡ item_in bytes.now }
{
    let kind = kind_of(u8_at(bytes, KIND))?;
    let item = content_of(bytes)?;
    if !is_zeros_from(bytes, TAIL) {
        return None;
    }
    Some(Record {
        kind,
        id: u32_at(bytes, STAMP),
        seq: u16_at(bytes, SEQ),
        item,
    })
}

/// The plan's type of a number.
fn kind_of(number: u8) -> Option<PlanType>
    ensures { result ≡ kind_in number }
{
    match number {
        0 => Some(PlanType::Mission),
        1 => Some(PlanType::Fence),
        2 => Some(PlanType::Safe),
        _ => None,
    }
}

/// The parameter of a flag and a number; one that is not set has the number 0.
fn param_of(is_set: bool, milli: i32) -> Option<Param>
    ensures { result ≡ param_in is_set milli }
{
    if is_set {
        return Some(Param::Milli(milli));
    }
    if milli == 0 { Some(Param::Unset) } else { None }
}

/// Whether a bit of the flags is set.
fn is_bit(bit: u8, flags: u8) -> bool
    requires { bit < 8 }
    ensures { result ≡ is_bit bit flags }
{
    flags >> bit & 1 == 1
}

/// The item in the bytes of a record, if they have one.
#[tactic(auto, unfolding(crate::specs::Item::content_in))]
fn content_of(bytes: &[u8; 48]) -> Option<Item>
    ensures { result ≡ content_in bytes.now }
{
    let flags = u8_at(bytes, FLAGS);
    if flags >= FLAGS_END {
        return None;
    }
    let p1 = param_of(is_bit(1, flags), i32_at(bytes, PARAM1))?;
    let p2 = param_of(is_bit(2, flags), i32_at(bytes, PARAM2))?;
    let p3 = param_of(is_bit(3, flags), i32_at(bytes, PARAM3))?;
    let p4 = param_of(is_bit(4, flags), i32_at(bytes, PARAM4))?;
    Some(Item {
        frame: u16_at(bytes, FRAME),
        command: u16_at(bytes, COMMAND),
        p1,
        p2,
        p3,
        p4,
        x: i32_at(bytes, X),
        y: i32_at(bytes, Y),
        z: i32_at(bytes, Z),
        auto: is_bit(0, flags),
    })
}
