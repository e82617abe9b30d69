//! Pointers as texts: a pointer writes the text that it was read from.
use doc_pointer::Pointer;
use std::alloc::Global;
use std::process::Abort;

/// The text is a pointer's, which writes it again.
fn writes_again(rt: &impl Abort, alloc: Global, text: &str) {
    let pointer = Pointer::read(alloc, text).expect(rt, "a pointer");
    let again = pointer.text(alloc).expect(rt, "room");
    assert_eq!(rt; again.as_str(), text);
}

#[test]
fn a_pointer_writes_its_text_again(rt: HostRuntime) {
    let alloc = rt.alloc();
    writes_again(&rt, alloc, "");
    writes_again(&rt, alloc, "/");
    writes_again(&rt, alloc, "//");
    writes_again(&rt, alloc, "/a~1b/m~0n");
    writes_again(&rt, alloc, "/~01/~10/\u{e9}");
}
