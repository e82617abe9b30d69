//! The quick reader of lines that are patches, of which no clause says what it reads.
use doc_machine::SpelledPatch;
use std::alloc::Global;
use std::process::Abort;

/// Whether the line is read quickly, as its own text.
fn is_read(alloc: Global, line: &str) -> bool {
    match SpelledPatch::read(alloc, line.as_bytes()) {
        Some(patch) => patch.text() == line.as_bytes(),
        None => false,
    }
}

/// A line with that many operations.
fn line_of(rt: &impl Abort, alloc: Global, operations: usize) -> String {
    let mut line = String::from_str(alloc, r#"{"cmd":"patch","name":"d","ops":["#).expect(
        rt, "room",
    );
    for number in 0..operations {
        let comma = if number > 0 { "," } else { "" };
        line.push_str(comma).expect(rt, "room");
        line.push_str(r#"{"op":"remove","path":"/a"}"#)
            .expect(rt, "room");
    }
    line.push_str("]}").expect(rt, "room");
    line
}

#[test]
fn compact_patches_are_read_quickly(rt: HostRuntime) {
    let lines = [
        r#"{"cmd":"patch","name":"d","ops":[{"op":"add","path":"/a","value":{"x":[true,-17]}}]}"#,
        r#"{"cmd":"patch","name":"d","ops":[{"from":"/c","op":"copy","path":"/a"},{"op":"remove","path":"/b"}]}"#,
        r#"{"cmd":"patch","name":"no name","ops":[{"op":"test","path":"/Zürich","value":"水"}]}"#,
    ];
    for line in lines {
        assert!(rt; is_read(rt.alloc(), line));
    }
    let longest = line_of(&rt, rt.alloc(), 4096);
    assert!(rt; is_read(rt.alloc(), longest.as_str()));
}

#[test]
fn other_lines_are_not(rt: HostRuntime) {
    let lines = [
        "",
        r#"{"cmd":"list"}"#,
        r#"{"cmd":"patch","name":"d","ops":[]}"#,
        r#"{"cmd":"patch","if_rev":1,"name":"d","ops":[{"op":"remove","path":"/a"}]}"#,
        r#"{"cmd":"patch","name":"d","ops":[{"op":"remove","path":"/a"}],"z":1}"#,
        r#"{"cmd":"patch","mark":{"key":"k","value":""},"name":"d","ops":[{"op":"remove","path":"/a"}]}"#,
        r#"{"cmd":"patch","name":"d","ops":[{"op":"remove","path":"/a"}]}}"#,
        r#"{"cmd":"patch","name":"d","ops":[{"op":"remove","path":"/a"}]} "#,
        r#"{"cmd":"patch","ops":[{"op":"remove","path":"/a"}],"name":"d"}"#,
        r#"{"cmd":"patch","name":"d","ops":[{"path":"/a","op":"remove"}]}"#,
        r#"{"cmd":"patch","name":"\u0064","ops":[{"op":"remove","path":"/a"}]}"#,
        r#"{"cmd":"patch","name":"d","ops":[{"op":"remove","path":"/\u0061"}]}"#,
        r#"{"cmd":"patch","name":"d","ops":[{"op":"remove","path":"/a","why":1}]}"#,
        r#"{"cmd":"create","name":"d","ops":[{"op":"remove","path":"/a"}]}"#,
    ];
    for line in lines {
        assert!(rt; SpelledPatch::read(rt.alloc(), line.as_bytes()).is_none());
    }
    let longer = line_of(&rt, rt.alloc(), 4097);
    assert!(rt; SpelledPatch::read(rt.alloc(), longer.as_bytes()).is_none());
}
