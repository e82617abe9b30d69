//! The quick reader of patches, of which no clause says what it reads.
use doc_patch::Patch;
use doc_tree::Tree;
use std::alloc::Global;

/// What the patch makes of the document.
fn applied(alloc: Global, patch: &Patch, document: &[u8]) -> Option<Tree> {
    let tree = Tree::read(alloc, document).ok()?;
    patch.apply(alloc, &tree).ok()
}

/// Whether the patch is read quickly, and makes of the document what the other reader's patch makes of it.
fn is_read(alloc: Global, ops: &[u8], document: &[u8]) -> bool {
    let Some(quick) = Patch::read_unescaped(alloc, ops) else {
        return false;
    };
    let Ok(tree) = Tree::read(alloc, ops) else {
        return false;
    };
    let Ok(slow) = Patch::read(alloc, &tree) else {
        return false;
    };
    match (
        applied(alloc, &quick, document),
        applied(alloc, &slow, document),
    ) {
        (Some(left), Some(right)) => left.equals(&right),
        _ => false,
    }
}

#[test]
fn each_kind_of_operation_is_read_quickly(rt: HostRuntime) {
    let document = r#"{"a":[1,{"b":null}],"c":"Zürich","d~e":{}}"#;
    let ops = [
        r#"[{"op":"add","path":"/a/-","value":{"x":[true,-17]}}]"#,
        r#"[{"op":"remove","path":"/a/1/b"}]"#,
        r#"[{"op":"replace","path":"/d~0e","value":"水"}]"#,
        r#"[{"from":"/a/1","op":"move","path":"/f"}]"#,
        r#"[{"from":"/c","op":"copy","path":"/a/0"}]"#,
        r#"[{"op":"test","path":"/a/0","value":1}]"#,
        r#"[{"op":"test","path":"/c","value":"Zürich"},{"op":"replace","path":"","value":[]},{"op":"add","path":"/0","value":2}]"#,
    ];
    for text in ops {
        assert!(rt; is_read(rt.alloc(), text.as_bytes(), document.as_bytes()));
    }
}

#[test]
fn other_texts_of_patches_are_not(rt: HostRuntime) {
    let no_patches = [
        "",
        "[",
        "{}",
        r#"[{"op":"remove","path":"/a"}"#,
        r#"[{"op":"remove","path":"/a"}] "#,
        r#"[{"op":"remove","path":"/a"},]"#,
        r#"[{"op":"remove","path":"a"}]"#,
        r#"[{"op":"increment","path":"/a"}]"#,
        r#"[{"from":"/a","op":"move","path":"/a/b"}]"#,
    ];
    let spelled_so = [
        "[]",
        r#"[{"path":"/a","op":"remove"}]"#,
        r#"[{"op": "remove","path":"/a"}]"#,
        r#"[{"op":"remove","path":"/\u0061"}]"#,
    ];
    for text in no_patches {
        assert!(rt; Patch::read_unescaped(rt.alloc(), text.as_bytes()).is_none());
    }
    for text in spelled_so {
        assert!(rt; Patch::read_unescaped(rt.alloc(), text.as_bytes()).is_none());
    }
}
