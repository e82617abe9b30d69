//! The limits of a frame: how high its trees are, and how long its body is; and the parts that are lent of a patch's
//! frame.
use doc_tree::Tree;
use record_text::{Command, RecordFault, frame, patch_frame, read_frame};
use std::alloc::Global;
use std::process::Abort;

/// A patch of the document `d` with these operations, from that revision on.
fn patch(rt: &impl Abort, alloc: Global, ops: Tree, if_rev: Option<u64>) -> Command {
    let name = String::from_str(alloc, "d").expect(rt, "room");
    Command::Patch { name, ops, if_rev }
}

/// Lists within lists, `levels` of them, and nothing in the innermost.
fn lists(rt: &impl Abort, alloc: Global, levels: usize) -> Tree {
    let mut text = "[".repeat(alloc, levels).expect(rt, "room");
    let end = "]".repeat(alloc, levels).expect(rt, "room");
    text.push_str(end.as_str()).expect(rt, "room");
    Tree::read(alloc, text.as_bytes()).expect(rt, "lists")
}

/// The frame of the command, or why it isn't written.
fn framed(alloc: Global, command: Command) -> Result<Vec<u8>, RecordFault> {
    frame(alloc, &command, 1)
}

/// Why the frame of a patch that many lists high isn't read.
fn fault_at(rt: &impl Abort, alloc: Global, levels: usize) -> Option<RecordFault> {
    let patch = patch(rt, alloc, lists(rt, alloc, levels), None);
    let bytes = framed(alloc, patch).expect(rt, "a frame");
    read_frame(alloc, bytes.as_slice()).err()
}

#[test]
fn trees_are_read_that_are_126_high(rt: HostRuntime) {
    assert_eq!(rt; fault_at(&rt, rt.alloc(), 126), None);
    assert_eq!(rt; fault_at(&rt, rt.alloc(), 127), Some(RecordFault::Text));
}

/// The length of the frame of a patch whose operations are a text of `letters` letters, or why it isn't written.
fn frame_len(rt: &impl Abort, alloc: Global, letters: usize) -> Result<usize, RecordFault> {
    let text = "a".repeat(alloc, letters).expect(rt, "room");
    match framed(alloc, patch(rt, alloc, Tree::Text(text), None)) {
        Ok(bytes) => Ok(bytes.len()),
        Err(fault) => Err(fault),
    }
}

#[test]
fn bodies_have_at_most_4_194_304_bytes(rt: HostRuntime) {
    let letters = 4_194_304 - r#"{"cmd":"patch","name":"d","ops":""}"#.len();
    assert_eq!(rt; frame_len(&rt, rt.alloc(), letters), Ok(4_194_316));
    let fault = frame_len(&rt, rt.alloc(), letters + 1).err();
    assert_eq!(rt; fault, Some(RecordFault::Long));
}

/// Why the frame of a patch that asks for that revision isn't written.
fn fault_of(rt: &impl Abort, alloc: Global, rev: u64) -> Option<RecordFault> {
    framed(alloc, patch(rt, alloc, Tree::Null, Some(rev))).err()
}

#[test]
fn revisions_are_spelled_to_2_63(rt: HostRuntime) {
    let most = 9_223_372_036_854_775_807;
    assert_eq!(rt; fault_of(&rt, rt.alloc(), most), None);
    let fault = fault_of(&rt, rt.alloc(), most + 1);
    assert_eq!(rt; fault, Some(RecordFault::Shape));
}

const OPS: &str = r#"[{"op":"add","path":"/a","value":"\u0001}"}]"#;

/// The frame of a patch with the operations `OPS`, from that revision on.
fn frame_with_ops(rt: &impl Abort, alloc: Global, if_rev: Option<u64>) -> Vec<u8> {
    let ops = Tree::read(alloc, OPS.as_bytes()).expect(rt, "operations");
    let command = patch(rt, alloc, ops, if_rev);
    frame(alloc, &command, 7).expect(rt, "a frame")
}

#[test]
fn the_frame_of_a_patch_is_lent_in_parts(rt: HostRuntime) {
    let mut bytes = frame_with_ops(&rt, rt.alloc(), None);
    let len = bytes.len();
    bytes.extend_from_slice(b"more").expect(&rt, "room");
    are_lent(&rt, bytes.as_slice(), len);
}

// The parts of that frame, of `len` bytes, are lent.
fn are_lent(rt: &impl Abort, bytes: &[u8], len: usize) {
    let parts = patch_frame(bytes).expect(rt, "a patch");
    assert_eq!(rt; parts.name, "d");
    assert_eq!(rt; parts.ops, OPS.as_bytes());
    assert_eq!(rt; parts.seq, 7);
    assert_eq!(rt; parts.len, len);
}

#[test]
fn no_parts_are_lent_of_other_frames(rt: HostRuntime) {
    let name = String::from_str(rt.alloc(), "d").expect(&rt, "room");
    let (schema, doc) = (Tree::Bool(true), Tree::Null);
    let creation = Command::Create { name, schema, doc };
    let bytes = framed(rt.alloc(), creation).expect(&rt, "a frame");
    assert!(rt; patch_frame(bytes.as_slice()).is_none());
    let bytes = frame_with_ops(&rt, rt.alloc(), Some(3));
    assert!(rt; patch_frame(bytes.as_slice()).is_none());
}

#[test]
fn no_parts_are_lent_of_a_frame_cut_short(rt: HostRuntime) {
    let mut bytes = frame_with_ops(&rt, rt.alloc(), None);
    bytes.pop();
    assert!(rt; patch_frame(bytes.as_slice()).is_none());
}
