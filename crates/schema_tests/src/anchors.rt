//! Anchors of schemas in each profile, by JSON Schema Core 2020-12, section 8.2.2, read by hand.
use doc_schema::{Profile, Schema};
use doc_tree::Tree;
use refusals::numbers::{SCHEMA_FORM, SCHEMA_KEYWORD, SCHEMA_LOOP, SCHEMA_REF};
use std::alloc::Global;
use std::process::Abort;

fn tree(rt: &impl Abort, alloc: Global, text: &str) -> Tree {
    Tree::read(alloc, text.as_bytes()).expect(rt, "a JSON text")
}

// The number by which the profile refuses the schema; 0 if it doesn't.
fn number_of(rt: &impl Abort, alloc: Global, profile: Profile, text: &str) -> u16 {
    match Schema::read_in(profile, alloc, &tree(rt, alloc, text)) {
        Ok(_) => 0,
        Err(fault) => fault.number,
    }
}

// Profile 2 leaves the keyword out, and profile 3 answers that number.
fn is_read(rt: &impl Abort, alloc: Global, text: &str, number: u16) {
    assert_eq!(rt; number_of(rt, alloc, Profile::Two, text), SCHEMA_KEYWORD);
    assert_eq!(rt; number_of(rt, alloc, Profile::Three, text), number);
}

// Whether the instance is valid under the schema.
fn judges(rt: &impl Abort, alloc: Global, text: &str, instance: &str, valid: bool) {
    is_read(rt, alloc, text, 0);
    let schema = Schema::read_in(Profile::Three, alloc, &tree(rt, alloc, text)).expect(
        rt, "a schema",
    );
    let instance = tree(rt, alloc, instance);
    let mut trial = schema.trial(alloc).expect(rt, "room");
    assert!(rt; trial.accepts(&instance) == valid);
    assert!(rt; trial.accepts_change(&instance, &[]) == valid);
}

// The anchor, as it is in a JSON text, has the number 7 as its schema's one value; `reference` must lead there.
fn names(rt: &impl Abort, alloc: Global, anchor: &str, reference: &str) {
    let text = format!(in alloc;
        r#"{{"items":{{"$anchor":"other","const":8}},"contains":{{"not":{{"$anchor":"{anchor}","const":7}}}},"$ref":"{reference}"}}"#
    ).expect(rt, "room");
    judges(rt, alloc, text.as_str(), "7", true);
    judges(rt, alloc, text.as_str(), "8", false);
}

// The text is no anchor.
fn is_none(rt: &impl Abort, alloc: Global, anchor: &str) {
    let text = format!(in alloc; r#"{{"items":{{"$anchor":{anchor}}}}}"#).expect(rt, "room");
    is_read(rt, alloc, text.as_str(), SCHEMA_FORM);
}

#[test]
fn anchors_name_schemas(rt: HostRuntime) {
    let alloc = rt.alloc();
    names(&rt, alloc, "a", "#a");
    names(&rt, alloc, "a", "#%61");
    names(&rt, alloc, "_", "#_");
    names(&rt, alloc, "Z-9._x", "#Z-9._x");
    names(&rt, alloc, "Z-9._x", "#Z%2D9%2e_x");
    let whole = r##"{"$anchor":"top","maxProperties":1,"properties":{"k":{"$ref":"#top"}}}"##;
    judges(&rt, alloc, whole, r#"{"k":{"k":{}}}"#, true);
    judges(&rt, alloc, whole, r#"{"k":{"k":1,"l":2}}"#, false);
    let identified =
        r##"{"$id":"http://x.example/s","$defs":{"a":{"$anchor":"n","const":7}},"$ref":"http://x.example/s#n"}"##;
    judges(&rt, alloc, identified, "7", true);
    judges(&rt, alloc, identified, "8", false);
    let elsewhere =
        r##"{"$id":"http://x.example/s","$defs":{"a":{"$anchor":"n"}},"not":{"$ref":"http://x.example/t#n"}}"##;
    is_read(&rt, alloc, elsewhere, SCHEMA_REF);
    // A member of a document, and of `properties`, is no keyword.
    let plain = r##"{"properties":{"$anchor":{"$anchor":"n","const":7}},"items":{"$ref":"#n"}}"##;
    judges(&rt, alloc, plain, "[7]", true);
    judges(&rt, alloc, plain, "[8]", false);
    judges(&rt, alloc, plain, r#"{"$anchor":8}"#, false);
}

#[test]
fn references_to_no_anchor_are_refused(rt: HostRuntime) {
    let alloc = rt.alloc();
    is_read(
        &rt,
        alloc,
        r##"{"items":{"$anchor":"a"},"not":{"$ref":"#b"}}"##,
        SCHEMA_REF,
    );
    is_read(
        &rt,
        alloc,
        r##"{"items":{"$anchor":"a"},"not":{"$ref":"#A"}}"##,
        SCHEMA_REF,
    );
    is_read(
        &rt,
        alloc,
        r##"{"items":{"$anchor":"a"},"not":{"$ref":"#a/"}}"##,
        SCHEMA_REF,
    );
    is_read(
        &rt,
        alloc,
        r##"{"items":{"$anchor":"a"},"not":{"$ref":"#/a"}}"##,
        SCHEMA_REF,
    );
    is_read(
        &rt,
        alloc,
        r##"{"items":{"$anchor":"a"},"not":{"$ref":"a"}}"##,
        SCHEMA_REF,
    );
    is_read(
        &rt,
        alloc,
        r###"{"items":{"$anchor":"a"},"not":{"$ref":"##a"}}"###,
        SCHEMA_REF,
    );
    is_read(
        &rt,
        alloc,
        r##"{"items":{"$anchor":"a"},"not":{"$ref":"#a%"}}"##,
        SCHEMA_REF,
    );
    let below =
        r##"{"$anchor":"z","default":{"$anchor":"a"},"enum":[{"$anchor":"a"}],"definitions":{"a":{"$anchor":"a"}},"not":{"$ref":"#a"}}"##;
    is_read(&rt, alloc, below, SCHEMA_REF);
    is_read(
        &rt,
        alloc,
        r##"{"$anchor":"z","const":{"$anchor":"a"},"examples":[{"$anchor":"a"}],"not":{"$ref":"#a"}}"##,
        SCHEMA_REF,
    );
}

#[test]
fn anchors_have_a_form(rt: HostRuntime) {
    let alloc = rt.alloc();
    is_none(&rt, alloc, r#""""#);
    is_none(&rt, alloc, r#""1a""#);
    is_none(&rt, alloc, r#""-a""#);
    is_none(&rt, alloc, r#"".a""#);
    is_none(&rt, alloc, r#""a:b""#);
    is_none(&rt, alloc, r#""a b""#);
    is_none(&rt, alloc, r##""#a""##);
    is_none(&rt, alloc, r#""ü""#);
    is_none(&rt, alloc, "1");
    is_none(&rt, alloc, "null");
    is_none(&rt, alloc, r#"["a"]"#);
}

#[test]
fn equal_anchors_are_refused(rt: HostRuntime) {
    let alloc = rt.alloc();
    is_read(
        &rt,
        alloc,
        r#"{"$anchor":"a","not":{"$anchor":"a"}}"#,
        SCHEMA_FORM,
    );
    is_read(
        &rt,
        alloc,
        r#"{"allOf":[{"$anchor":"a"},{"$anchor":"b"},{"$anchor":"a"}]}"#,
        SCHEMA_FORM,
    );
    is_read(
        &rt,
        alloc,
        r#"{"$defs":{"x":{"$anchor":"a"},"y":{"$anchor":"a"}}}"#,
        SCHEMA_FORM,
    );
    is_read(
        &rt,
        alloc,
        r#"{"allOf":[{"$anchor":"a"},{"$anchor":"A"}]}"#,
        0,
    );
    is_read(
        &rt,
        alloc,
        r#"{"$anchor":"a","default":{"$anchor":"a"}}"#,
        0,
    );
}

#[test]
fn loops_by_anchors_are_refused(rt: HostRuntime) {
    let alloc = rt.alloc();
    is_read(&rt, alloc, r##"{"$anchor":"a","$ref":"#a"}"##, SCHEMA_LOOP);
    is_read(
        &rt,
        alloc,
        r##"{"allOf":[{"$anchor":"a","$ref":"#b"},{"$anchor":"b","not":{"$ref":"#a"}}]}"##,
        SCHEMA_LOOP,
    );
    is_read(&rt, alloc, r##"{"$anchor":"a","items":{"$ref":"#a"}}"##, 0);
}
