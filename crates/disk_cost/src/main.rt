//! Asks a new disk in memory for calls of one kind, so that bench/disk_cost.sh can count the instructions of each. It
//! prints how many calls were Ok.
#![tactic(auto)]

use disk_model::{Disk, MemoryDisk};
use std::process::ExitCode;
use std::{env, io};

/// The bytes of an item's record.
const RECORD: u64 = 48;

/// What is asked for, by the words behind the program's name: a kind, and four numbers.
#[derive(Clone, Copy)]
struct Plan {
    kind: Kind,
    /// How many bytes the disk has.
    size: u64,
    /// Where writes begin.
    at: u64,
    /// How many bytes a write has, at most as an item's record.
    len: u64,
    /// How often.
    times: u64,
}

#[derive(Clone, Copy)]
enum Kind {
    /// A write.
    Write,
    /// A write and a sync.
    Sync,
    /// The six calls of a payload that is swapped whole.
    Commit,
    /// A write behind the last one.
    Items,
}

fn kind_of(word: &str) -> Option<Kind> {
    match word {
        "write" => Some(Kind::Write),
        "sync" => Some(Kind::Sync),
        "commit" => Some(Kind::Commit),
        "items" => Some(Kind::Items),
        _ => None,
    }
}

fn number(words: &[String], i: usize) -> Option<u64> {
    match words.get(i) {
        Some(word) => word.parse::<u64>().ok(),
        None => None,
    }
}

fn plan_of(words: &[String]) -> Option<Plan> {
    let kind = kind_of(words.first()?.as_str())?;
    Some(Plan {
        kind,
        size: number(words, 1)?,
        at: number(words, 2)?,
        len: number(words, 3)?.min(RECORD),
        times: number(words, 4)?,
    })
}

/// Writes where there is room, and says whether it was done.
fn write(disk: &mut MemoryDisk, at: u64, bytes: &[u8]) -> bool {
    let size = disk.size();
    let len = bytes.len() as u64;
    if size < len || size - len < at {
        return false;
    }
    disk.write_at(at, bytes).is_ok()
}

/// Swaps a payload of 15 bytes behind its gate, by six calls.
fn commit(disk: &mut MemoryDisk, at: u64, payload: &[u8]) -> bool {
    let closed = write(disk, at, &[0]) && disk.sync().is_ok();
    let filled = closed && write(disk, at.saturating_add(1), payload) && disk.sync().is_ok();
    filled && write(disk, at, &[0xA5]) && disk.sync().is_ok()
}

/// One call of this kind.
fn step(disk: &mut MemoryDisk, plan: &Plan, turn: u64) -> bool {
    let bytes = [7; RECORD as usize];
    let some = &bytes[..plan.len.min(RECORD) as usize];
    match plan.kind {
        Kind::Write => write(disk, plan.at, some),
        Kind::Sync => write(disk, plan.at, some) && disk.sync().is_ok(),
        Kind::Commit => commit(disk, plan.at, &bytes[..15]),
        Kind::Items => write(
            disk,
            plan.at.saturating_add(turn.saturating_mul(RECORD)),
            some,
        ),
    }
}

/// How many calls were Ok. Items are synced once, behind all.
fn run(disk: &mut MemoryDisk, plan: &Plan) -> u64 {
    let mut done: u64 = 0;
    for turn in 0..plan.times {
        if step(disk, plan, turn) {
            done = done.saturating_add(1);
        }
    }
    if let Kind::Items = plan.kind {
        if disk.sync().is_ok() {
            done = done.saturating_add(1);
        }
    }
    done
}

fn main(rt: HostRuntime) -> io::Result<ExitCode> {
    let words = env::args(&rt)?.skip(1).collect::<Vec<String>>(rt.alloc())?;
    let Some(plan) = plan_of(words.as_slice()) else {
        eprintln!(rt; "usage: disk_cost write|sync|commit|items SIZE AT LEN TIMES")?;
        return Ok(ExitCode::from(2));
    };
    let Ok(mut disk) = MemoryDisk::new(rt.alloc(), plan.size, Vec::new(rt.alloc())) else {
        return Ok(ExitCode::from(1));
    };
    let done = run(&mut disk, &plan);
    println!(rt; "{done}")?;
    Ok(ExitCode::from(0))
}
