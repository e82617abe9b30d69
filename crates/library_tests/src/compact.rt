//! The quick reader of compact text, of which no clause says anything.
use doc_tree::Tree;
use std::alloc::Global;
use std::process::Abort;

/// Whether the quick reader reads the whole text, and as `Tree::read` does.
fn is_read(alloc: Global, text: &str) -> bool {
    let Some((tree, rest)) = Tree::read_compact(alloc, text.as_bytes()) else {
        return false;
    };
    match Tree::read(alloc, text.as_bytes()) {
        Ok(other) => rest.is_empty() && tree.equals(&other),
        Err(_) => false,
    }
}

#[test]
fn compact_texts_are_read_quickly(rt: HostRuntime) {
    let numbers = "[0,7,-17,9223372036854775807,-9223372036854775807]";
    let texts = r#"["","d","a longer text","Zürich, 水"]"#;
    let nested = r#"{"a":null,"b":[true,false,[],{}],"c":{"d":[{"e":1}]}}"#;
    for text in [numbers, texts, nested] {
        assert!(rt; is_read(rt.alloc(), text));
    }
}

#[test]
fn other_texts_are_not(rt: HostRuntime) {
    let broken = [
        "", "[", "[1", "{\"a\"}", "{\"a\":}", "nul", "\"a", "-", "[,]", "\u{1}",
    ];
    let spelled_so = ["[1, 2]", "\"\\n\"", "1.5", "9223372036854775808", "01"];
    for text in broken {
        assert!(rt; !is_read(rt.alloc(), text));
    }
    for text in spelled_so {
        assert!(rt; !is_read(rt.alloc(), text));
    }
}

/// Whether `levels` lists within lists are read quickly.
fn are_lists_read(rt: &impl Abort, alloc: Global, levels: usize) -> bool {
    let mut text = "[".repeat(alloc, levels).expect(rt, "room");
    let end = "]".repeat(alloc, levels).expect(rt, "room");
    text.push_str(end.as_str()).expect(rt, "room");
    Tree::read_compact(alloc, text.as_bytes()).is_some()
}

#[test]
fn the_quick_reader_goes_127_levels_deep(rt: HostRuntime) {
    assert!(rt; are_lists_read(&rt, rt.alloc(), 127));
    assert!(rt; !are_lists_read(&rt, rt.alloc(), 128));
    assert!(rt; !are_lists_read(&rt, rt.alloc(), 100_000));
}
