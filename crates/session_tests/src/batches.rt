//! Changes that a store makes by as few commits as their room allows.
use crate::support::{formatted, new_store, opened};
use doc_store::{Command, Refusal, Reply, Store};
use doc_tree::Tree;
use sector_device::{DeviceCall, Fuse, MemDisk, SectorDevice};
use std::alloc::Global;
use std::process::Abort;

/// What a store says to a batch.
fn said_to<D: SectorDevice>(
    rt: &impl Abort,
    store: &mut Store<D>,
    batch: Vec<Command>,
) -> Vec<Reply> {
    store.execute_batch(batch).expect(rt, "memory")
}

/// A name.
fn name(rt: &impl Abort, alloc: Global, text: &str) -> String {
    String::from_str(alloc, text).expect(rt, "memory")
}

/// The value of a JSON text.
fn value(rt: &impl Abort, alloc: Global, text: &[u8]) -> Tree {
    Tree::read(alloc, text).expect(rt, "a JSON text")
}

/// The creation of a document under the schema `true`.
fn creation(rt: &impl Abort, alloc: Global, of: &str, doc: Tree) -> Command {
    Command::Create {
        name: name(rt, alloc, of),
        schema: Tree::Bool(true),
        doc,
    }
}

/// The creation of d, with one member.
fn creation_of_d(rt: &impl Abort, alloc: Global) -> Command {
    creation(rt, alloc, "d", value(rt, alloc, b"{\"a\":1}"))
}

/// The deletion of a document.
fn deletion(rt: &impl Abort, alloc: Global, of: &str) -> Command {
    Command::Delete {
        name: name(rt, alloc, of),
    }
}

/// The text of `many` letters x.
fn letters(rt: &impl Abort, alloc: Global, many: usize) -> Tree {
    Tree::Text("x".repeat(alloc, many).expect(rt, "memory"))
}

/// Creations of d, e and d again, and a deletion of z.
fn four(rt: &impl Abort, alloc: Global) -> Vec<Command> {
    let mut commands = Vec::new(alloc);
    add(rt, &mut commands, creation_of_d(rt, alloc));
    add(
        rt,
        &mut commands,
        creation(rt, alloc, "e", letters(rt, alloc, 600)),
    );
    add(rt, &mut commands, creation_of_d(rt, alloc));
    add(rt, &mut commands, deletion(rt, alloc, "z"));
    commands
}

/// Adds a command to others.
fn add(rt: &impl Abort, commands: &mut Vec<Command>, command: Command) {
    commands.push(command).expect(rt, "memory");
}

/// Asserts that the first creations of four are answered in this way, and the other commands refused.
fn assert_answers(rt: &impl Abort, said: &[Reply], d: Reply, e: Reply) {
    let wanted = [
        d,
        e,
        Reply::Refused(Refusal::plain(20)),
        Reply::Refused(Refusal::plain(21)),
    ];
    assert_eq!(rt; said, wanted.as_slice());
}

/// That the last calls are those of one commit of two sectors.
fn assert_one_commit(rt: &impl Abort, disk: &MemDisk) {
    let calls = [
        DeviceCall::Write(1),
        DeviceCall::Write(2),
        DeviceCall::Sync,
        DeviceCall::Write(0),
        DeviceCall::Sync,
    ];
    assert!(rt; disk.calls().ends_with(calls.as_slice()));
}

#[test]
fn two_changes_make_one_commit(rt: HostRuntime) {
    let alloc = rt.alloc();
    let mut store = new_store(&rt, alloc);
    let said = said_to(&rt, &mut store, four(&rt, alloc));
    assert_answers(&rt, &said, Reply::Done(1), Reply::Done(2));
    assert_eq!(rt; store.status().used, 729);
    assert_one_commit(&rt, &store.into_device());
}

/// A patch of d that replaces its member a.
fn replaced(rt: &impl Abort, alloc: Global, ops: &[u8]) -> Command {
    Command::Patch {
        name: name(rt, alloc, "d"),
        ops: value(rt, alloc, ops),
        if_rev: None,
    }
}

/// The creation of d, and six patches of it.
fn creation_and_patches(rt: &impl Abort, alloc: Global) -> Vec<Command> {
    let patches: [&[u8]; 6] = [
        b"[{\"op\":\"replace\",\"path\":\"/a\",\"value\":2}]",
        b"[{\"op\":\"replace\",\"path\":\"/a\",\"value\":3}]",
        b"[{\"op\":\"replace\",\"path\":\"/a\",\"value\":4}]",
        b"[{\"op\":\"replace\",\"path\":\"/a\",\"value\":5}]",
        b"[{\"op\":\"replace\",\"path\":\"/a\",\"value\":6}]",
        b"[{\"op\":\"replace\",\"path\":\"/a\",\"value\":7}]",
    ];
    let mut commands = Vec::new(alloc);
    add(rt, &mut commands, creation_of_d(rt, alloc));
    for ops in patches.as_slice() {
        add(rt, &mut commands, replaced(rt, alloc, ops));
    }
    commands
}

/// How many calls formatting and opening a disk of three sectors makes.
fn calls_of_opening(rt: &impl Abort, alloc: Global) -> usize {
    let store = opened(rt, alloc, formatted(rt, alloc, 3));
    store.into_device().calls().len()
}

/// Asserts that `many` changes are made, in turn.
fn assert_done(rt: &impl Abort, said: &[Reply], many: u64) {
    let mut seq: u64 = 0;
    for reply in said {
        seq = seq.saturating_add(1);
        assert!(rt; *reply == Reply::Done(seq));
    }
    assert_eq!(rt; seq, many);
}

/// A store of three sectors, in which a change of seven had no room beside the others.
fn made_by_two_commits(rt: &impl Abort, alloc: Global) -> Store<MemDisk> {
    let mut store = opened(rt, alloc, formatted(rt, alloc, 3));
    let said = said_to(rt, &mut store, creation_and_patches(rt, alloc));
    assert_done(rt, &said, 7);
    store
}

#[test]
fn a_change_without_room_commits_the_others_and_goes_on_alone(rt: HostRuntime) {
    let wanted = calls_of_opening(&rt, rt.alloc()).saturating_add(12);
    let store = made_by_two_commits(&rt, rt.alloc());
    assert_eq!(rt; store.status().used, 152);
    assert_eq!(rt; store.status().half, 1);
    assert_eq!(rt; store.into_device().calls().len(), wanted);
}

/// A store with a batch whose last sync failed.
fn in_doubt(rt: &impl Abort, alloc: Global) -> Store<Fuse<MemDisk>> {
    // An opening of an empty store makes four calls, and four of those of the batch pass.
    let mut store = opened(rt, alloc, Fuse::new(formatted(rt, alloc, 16), 8));
    let said = said_to(rt, &mut store, four(rt, alloc));
    let doubt = Reply::Refused(Refusal::plain(61));
    assert_answers(rt, &said, doubt, doubt);
    store
}

/// That a broken store refuses a change.
fn assert_broken<D: SectorDevice>(rt: &impl Abort, alloc: Global, store: &mut Store<D>) {
    let next = store.execute(deletion(rt, alloc, "d"));
    assert_eq!(rt; next, Err(Refusal::plain(62)));
}

/// Asserts the documents and the seq after a batch whose last sync failed, if the crash keeps these picks.
fn assert_left(rt: &impl Abort, alloc: Global, picks: &[u64], documents: u64, seq: u64) {
    let mut store = in_doubt(rt, alloc);
    assert_broken(rt, alloc, &mut store);
    let disk = store.into_device().into_inner().crash(picks);
    let status = opened(rt, alloc, disk).status();
    assert_eq!(rt; status.documents, documents);
    assert_eq!(rt; status.seq, seq);
}

#[test]
fn a_batch_in_doubt_stands_whole_or_not_at_all(rt: HostRuntime) {
    assert_left(&rt, rt.alloc(), &[], 0, 0);
    assert_left(&rt, rt.alloc(), &[1], 2, 2);
}
