//! The limit of a patch's text, which no line reaches.
use doc_patch::{Patch, PatchFault};
use doc_tree::Tree;
use std::alloc::Global;
use std::process::Abort;

/// A list of one text of `letters` letters.
fn list(rt: &impl Abort, alloc: Global, letters: usize) -> Tree {
    let text = "a".repeat(alloc, letters).expect(rt, "room");
    let mut ops = Vec::new(alloc);
    ops.push(Tree::Text(text)).expect(rt, "room");
    Tree::List(ops)
}

/// A list of one text of `letters` letters is no patch, for that reason.
fn has_fault(rt: &impl Abort, alloc: Global, letters: usize, number: u16, op: Option<u64>) {
    let fault = Patch::read(alloc, &list(rt, alloc, letters)).err();
    assert_eq!(rt; fault, Some(PatchFault { number, op }));
}

#[test]
fn a_patch_has_at_most_2_097_152_bytes(rt: HostRuntime) {
    let letters = 2_097_152 - r#"[""]"#.len();
    // The text itself is no operation; one letter more, and the patch is too long.
    has_fault(&rt, rt.alloc(), letters, 30, Some(0));
    has_fault(&rt, rt.alloc(), letters + 1, 36, None);
}
