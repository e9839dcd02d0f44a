//! Each row of the table once, in each way of writing it, and words that are none.

use crate::{Command, WordsFault, read_words};
use mission_model::PlanType;
use std::alloc::Global;

/// The command that the words are, in short, where a store is named `s`.
fn told<'a>(alloc: Global, words: &'a [&'a str]) -> &'static str {
    match read_words(alloc, words) {
        Ok(Command::Fly(None)) => "fly",
        Ok(Command::Fly(Some("s"))) => "fly over s",
        Ok(Command::Replay(None)) => "replay",
        Ok(Command::Replay(Some("s"))) => "replay over s",
        Ok(Command::Check(PlanType::Mission)) => "check mission",
        Ok(Command::Check(PlanType::Fence)) => "check fence",
        Ok(Command::Check(PlanType::Safe)) => "check safe",
        Ok(Command::Init("s")) => "init s",
        Ok(Command::Case(4_294_967_295)) => "the last case",
        Ok(Command::Case(7)) => "case 7",
        Ok(Command::Survey) => "survey",
        Ok(Command::Audit) => "audit",
        Ok(_) => "another command",
        Err(WordsFault::Usage) => "usage",
        Err(WordsFault::Memory) => "memory",
    }
}

#[test]
fn each_row_is_read(rt: HostRuntime) {
    let alloc = rt.alloc();
    assert_eq!(rt; told(alloc, &["fly"]), "fly");
    assert_eq!(rt; told(alloc, &["fly", "--store=s"]), "fly over s");
    assert_eq!(rt; told(alloc, &["replay"]), "replay");
    assert_eq!(rt; told(alloc, &["--store=s", "replay"]), "replay over s");
    assert_eq!(rt; told(alloc, &["check", "mission"]), "check mission");
    assert_eq!(rt; told(alloc, &["check", "fence"]), "check fence");
    assert_eq!(rt; told(alloc, &["check", "safe"]), "check safe");
    assert_eq!(rt; told(alloc, &["init", "--store", "s"]), "init s");
    assert_eq!(rt; told(alloc, &["case", "4294967295"]), "the last case");
    assert_eq!(rt; told(alloc, &["case", "0000000007"]), "case 7");
    assert_eq!(rt; told(alloc, &["survey"]), "survey");
    assert_eq!(rt; told(alloc, &["audit"]), "audit");
}

#[test]
fn other_words_are_refused(rt: HostRuntime) {
    let alloc = rt.alloc();
    assert_eq!(rt; told(alloc, &[]), "usage");
    assert_eq!(rt; told(alloc, &["help"]), "usage");
    assert_eq!(rt; told(alloc, &["--help"]), "usage");
    assert_eq!(rt; told(alloc, &["replay", "now"]), "usage");
    assert_eq!(rt; told(alloc, &["replay", "--store"]), "usage");
    assert_eq!(rt;
        told(alloc, &["replay", "--store", "a", "--store", "b"]),
        "usage"
    );
    assert_eq!(rt; told(alloc, &["check"]), "usage");
    assert_eq!(rt; told(alloc, &["check", "other"]), "usage");
    assert_eq!(rt; told(alloc, &["check", "mission", "--store", "s"]), "usage");
    assert_eq!(rt; told(alloc, &["init"]), "usage");
    assert_eq!(rt; told(alloc, &["init", "s"]), "usage");
    assert_eq!(rt; told(alloc, &["case"]), "usage");
    assert_eq!(rt; told(alloc, &["case", "-1"]), "usage");
    assert_eq!(rt; told(alloc, &["case", "4294967296"]), "usage");
    assert_eq!(rt; told(alloc, &["case", "00000000007"]), "usage");
    assert_eq!(rt; told(alloc, &["survey", "--store=s"]), "usage");
}
