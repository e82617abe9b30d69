//! Lives of a formatted disk of 16 sectors: which call stops them, and what the crash keeps.
//!
//! The first opening makes 4 calls, the creation of `d` 4 more, and that of `e`, over two sectors, 5. In format 3, on 160
//! sectors, the first opening makes 134, and the creation of `d` writes sectors 64 and 96, and syncs.
use doc_store::{Command, Event, Life, Part, Store, Transaction, command_of};
use doc_tree::Tree;
use sector_device::{Damage, MemDisk};
use std::alloc::Global;
use std::process::Abort;
use store_journal::{format, format_in};

const CREATE_D: &str = r#"{"cmd":"create","doc":{"a":1},"name":"d","schema":true}"#;

fn formatted(rt: &impl Abort, alloc: Global) -> MemDisk {
    let mut disk = MemDisk::new(alloc, 16).expect(rt, "a disk");
    format(&mut disk).expect(rt, "formatted");
    disk.crash(&[])
}

fn formatted_in_3(rt: &impl Abort, alloc: Global) -> MemDisk {
    let mut disk = MemDisk::new(alloc, 160).expect(rt, "a disk");
    format_in(&mut disk, true, 7).expect(rt, "formatted");
    disk.crash(&[])
}

fn create_d(rt: &impl Abort, alloc: Global) -> Event {
    let tree = Tree::read(alloc, CREATE_D.as_bytes()).expect(rt, "a JSON text");
    let command = command_of(alloc, &tree).expect(rt, "a command");
    Event::Run(Transaction::Single(command))
}

fn create_e(rt: &impl Abort, alloc: Global) -> Event {
    let mut text = String::new(alloc);
    for _ in 0..600u64 {
        text.push('x').expect(rt, "a text");
    }
    Event::Run(Transaction::Single(Command::Create {
        name: String::from_str(alloc, "e").expect(rt, "a name"),
        schema: Tree::Bool(true),
        doc: Tree::Text(text),
    }))
}

// A life with both creations.
fn creating(rt: &impl Abort, alloc: Global, stop: u64, picks: &[u64]) -> Life {
    let mut life = idle(rt, alloc, stop, picks);
    life.events.push(create_d(rt, alloc)).expect(rt, "room");
    life.events.push(create_e(rt, alloc)).expect(rt, "room");
    life
}

// A life with no events.
fn idle(rt: &impl Abort, alloc: Global, stop: u64, picks: &[u64]) -> Life {
    Life {
        stop,
        picks: Vec::from_slice(alloc, picks).expect(rt, "room"),
        damage: Vec::new(alloc),
        events: Vec::new(alloc),
    }
}

fn lived(rt: &impl Abort, alloc: Global, all: Vec<Life>) -> (Vec<Part>, Store<MemDisk>) {
    lived_on(rt, alloc, formatted(rt, alloc), all)
}

fn lived_on(
    rt: &impl Abort,
    alloc: Global,
    disk: MemDisk,
    all: Vec<Life>,
) -> (Vec<Part>, Store<MemDisk>) {
    match Store::lives(alloc, disk, all) {
        Ok(told) => told,
        Err(_) => panic!(rt; "an opening was refused"),
    }
}

// The contents of a life's part: opened, replies, accepted, acknowledged, kept, faults of the disk.
type Told = (bool, u64, u64, u64, u64, u64);

fn told(part: &Part) -> Told {
    (
        part.opened,
        part.replies.len() as u64,
        part.accepted.len() as u64,
        part.acknowledged,
        part.kept,
        part.disk_faults,
    )
}

// The part of that life has these contents.
fn tells(rt: &impl Abort, parts: &[Part], life: usize, want: Told) {
    match parts.get(life) {
        Some(part) => assert_eq!(rt; told(part), want),
        None => panic!(rt; "a part is missing"),
    }
}

// Asserts the number of the last change that is there.
fn stands_at(rt: &impl Abort, store: &Store<MemDisk>, seq: u64) {
    assert_eq!(rt; store.status().seq, seq);
}

// One creating life with this stop and these picks.
fn alone(rt: &impl Abort, alloc: Global, stop: u64, picks: &[u64]) -> Vec<Life> {
    let mut all = Vec::new(alloc);
    all.push(creating(rt, alloc, stop, picks))
        .expect(rt, "room");
    all
}

// Asserts the part of one creating life with this stop and these picks.
fn one(rt: &impl Abort, alloc: Global, stop: u64, picks: &[u64], want: Told) {
    let (parts, store) = lived(rt, alloc, alone(rt, alloc, stop, picks));
    assert!(rt; parts.len() == 1);
    tells(rt, &parts, 0, want);
    stands_at(rt, &store, want.4);
}

#[test]
fn stops_and_picks(rt: HostRuntime) {
    let alloc = rt.alloc();
    one(&rt, alloc, 13, &[], (true, 2, 2, 2, 2, 0));
    one(&rt, alloc, 12, &[], (true, 2, 2, 1, 1, 0));
    one(&rt, alloc, 12, &[1], (true, 2, 2, 1, 2, 0));
    one(&rt, alloc, 8, &[], (true, 2, 2, 1, 1, 0));
    one(&rt, alloc, 8, &[1, 1, 1], (true, 2, 2, 1, 1, 0));
    one(&rt, alloc, 3, &[], (false, 0, 0, 0, 0, 0));
}

// The part of a creating life with this stop, of which the crash keeps the first write since the last sync, or not.
fn wanted(stop: u64, picked: bool) -> Told {
    let opened = 4 <= stop;
    let accepted = if !opened {
        0
    } else if stop < 8 {
        1
    } else {
        2
    };
    let done = if stop < 8 {
        0
    } else if stop < 13 {
        1
    } else {
        2
    };
    // Only after its commit sector is a change kept that a fault hit, and only if that sector is kept.
    let hit = picked && (stop == 7 || stop == 12);
    let kept = if hit { done + 1 } else { done };
    (opened, if opened { 2 } else { 0 }, accepted, done, kept, 0)
}

#[test]
fn a_stop_at_each_call(rt: HostRuntime) {
    let alloc = rt.alloc();
    for stop in 0..14u64 {
        for picks in 0..8u64 {
            let want = wanted(stop, picks % 2 == 1);
            let picks = [picks % 2, picks / 2 % 2, picks / 4];
            one(&rt, alloc, stop, &picks, want);
        }
    }
}

// A creating life that is stopped before its last sync, and keeps its commit sector, and one that is stopped as it opens.
fn twice(rt: &impl Abort, alloc: Global, picks: u64) -> Vec<Life> {
    let mut all = Vec::new(alloc);
    all.push(creating(rt, alloc, 12, &[1])).expect(rt, "room");
    all.push(idle(rt, alloc, 5, &[picks])).expect(rt, "room");
    all
}

// Both changes are there, after `opens` openings.
fn stands(rt: &impl Abort, store: &Store<MemDisk>, opens: u64) {
    stands_at(rt, store, 2);
    assert!(rt; store.status().opens == opens);
    assert!(rt; store.list().expect(rt, "room").len() == 2);
}

// Two lives, of which the second is stopped as it opens, and how many openings count then.
fn reopened(rt: &impl Abort, alloc: Global, picks: u64, opens: u64) {
    let (parts, store) = lived(rt, alloc, twice(rt, alloc, picks));
    assert!(rt; parts.len() == 2);
    tells(rt, &parts, 0, (true, 2, 2, 1, 2, 0));
    tells(rt, &parts, 1, (false, 0, 0, 0, 0, 0));
    stands(rt, &store, opens);
}

#[test]
fn a_reopening_is_stopped_too(rt: HostRuntime) {
    reopened(&rt, rt.alloc(), 0, 2);
    reopened(&rt, rt.alloc(), 1, 3);
}

// A creating life in format 3 that is stopped before the sync of its first change. The crash keeps what was written to the
// sectors with a pick, and tears one of them.
fn torn(rt: &impl Abort, alloc: Global, keeps: &[u64], tears: u64) -> Vec<Life> {
    let mut life = creating(rt, alloc, 136, &[]);
    for at in 0..160u64 {
        let pick = if keeps.contains(&at) { 1 } else { 0 };
        life.picks.push(pick).expect(rt, "room");
    }
    life.damage
        .push(Damage {
            at: tears,
            content: [0xd5; 512],
        })
        .expect(rt, "room");
    let mut all = Vec::new(alloc);
    all.push(life).expect(rt, "room");
    all
}

// Asserts how many changes it keeps.
fn keeps(rt: &impl Abort, alloc: Global, all: Vec<Life>, kept: u64) {
    let (parts, store) = lived_on(rt, alloc, formatted_in_3(rt, alloc), all);
    tells(rt, &parts, 0, (true, 2, 1, 0, kept, 0));
    stands_at(rt, &store, kept);
}

#[test]
fn one_slot_in_a_torn_block(rt: HostRuntime) {
    let alloc = rt.alloc();
    keeps(&rt, alloc, torn(&rt, alloc, &[], 64), 0);
    keeps(&rt, alloc, torn(&rt, alloc, &[64, 96], 64), 1);
    keeps(&rt, alloc, torn(&rt, alloc, &[64], 96), 1);
    keeps(&rt, alloc, torn(&rt, alloc, &[96], 96), 0);
}
