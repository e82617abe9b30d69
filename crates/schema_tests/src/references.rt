//! References of schemas in each profile. What each names is read off RFC 6901 and the percent-decoding of URLs by hand.
use doc_schema::laws::judge_source;
use doc_schema::{Profile, Schema};
use doc_tree::Tree;
use refusals::numbers::{SCHEMA_LOOP, SCHEMA_REF};
use std::alloc::Global;
use std::process::Abort;

fn tree(rt: &impl Abort, alloc: Global, text: &str) -> Tree {
    Tree::read(alloc, text.as_bytes()).expect(rt, "a JSON text")
}

// The number by which the profile refuses the schema; 0 if it doesn't.
fn number_of(rt: &impl Abort, alloc: Global, profile: Profile, text: &str) -> u16 {
    match Schema::read_in(profile, alloc, &tree(rt, alloc, text)) {
        Ok(_) => 0,
        Err(fault) => fault.number,
    }
}

// Profile 2 hasn't the reference, and profile 3 answers that number.
fn is_read(rt: &impl Abort, alloc: Global, text: &str, number: u16) {
    assert_eq!(rt; number_of(rt, alloc, Profile::Two, text), SCHEMA_REF);
    assert_eq!(rt; number_of(rt, alloc, Profile::Three, text), number);
}

// Whether the instance is valid under the schema, which has a reference of profile 3.
fn judges(rt: &impl Abort, alloc: Global, text: &str, instance: &str, valid: bool) {
    assert_eq!(rt; number_of(rt, alloc, Profile::Two, text), SCHEMA_REF);
    judges_in_three(rt, alloc, text, instance, valid);
}

// Whether the instance is valid under the schema of profile 3.
fn judges_in_three(rt: &impl Abort, alloc: Global, text: &str, instance: &str, valid: bool) {
    let schema = Schema::read_in(Profile::Three, alloc, &tree(rt, alloc, text)).expect(
        rt, "a schema",
    );
    let instance = tree(rt, alloc, instance);
    let mut trial = schema.trial(alloc).expect(rt, "room");
    assert!(rt; trial.accepts(&instance) == valid);
    assert!(rt; trial.accepts_change(&instance, &[]) == valid);
    assert!(rt; judge_source(&schema, &instance, alloc).expect(rt, "room") == None);
}

// The name, as it is in a JSON text, has the number 7 as its schema's one value; `reference` must lead there.
fn names(rt: &impl Abort, alloc: Global, name: &str, reference: &str) {
    let text = format!(in alloc;
        r#"{{"$defs":{{"{name}":{{"const":7}},"other":{{"const":8}}}},"$ref":"{reference}"}}"#
    ).expect(rt, "room");
    judges(rt, alloc, text.as_str(), "7", true);
    judges(rt, alloc, text.as_str(), "8", false);
}

// No schema of profile 3 is there.
fn names_none(rt: &impl Abort, alloc: Global, reference: &str) {
    let text = format!(in alloc;
        r#"{{"$defs":{{"a":{{"const":7}},"%FF":true,"~":true,"":true}},"prefixItems":[true],"properties":{{"a":{{"type":"null"}}}},"default":{{"a":true}},"definitions":{{"a":true}},"enum":[true],"not":{{"$ref":"{reference}"}}}}"#
    ).expect(rt, "room");
    is_read(rt, alloc, text.as_str(), SCHEMA_REF);
}

#[test]
fn references_lead_through_keywords(rt: HostRuntime) {
    let alloc = rt.alloc();
    let named = r##"{"properties":{"a":{"type":"integer"},"b":{"$ref":"#/properties/a"}}}"##;
    judges(&rt, alloc, named, r#"{"b":1}"#, true);
    judges(&rt, alloc, named, r#"{"b":"x"}"#, false);
    let placed = r##"{"prefixItems":[{"type":"string"},{"$ref":"#/prefixItems/0"}]}"##;
    judges(&rt, alloc, placed, r#"["a","b"]"#, true);
    judges(&rt, alloc, placed, r#"["a",1]"#, false);
    let deep =
        r##"{"items":{"allOf":[{"not":{"patternProperties":{"^a":{"minimum":3}}}}]},"contains":{"$ref":"#/items/allOf/0/not/patternProperties/%5Ea"}}"##;
    judges_in_three(&rt, alloc, deep, r#"[{"a":1}]"#, true);
    judges_in_three(&rt, alloc, deep, r#"[{"a":4}]"#, false);
    let twice =
        r##"{"$ref":"#/properties/k","properties":{"k":{"$ref":"#/$defs/k/if"}},"$defs":{"k":{"if":{"maxProperties":1}}}}"##;
    judges(&rt, alloc, twice, r#"{"a":1}"#, true);
    judges(&rt, alloc, twice, r#"{"a":1,"b":2}"#, false);
    judges(&rt, alloc, twice, r#"{"k":{"a":1,"b":2}}"#, false);
}

// The examples of RFC 6901, section 6, each below `$defs`.
#[test]
fn references_are_decoded(rt: HostRuntime) {
    let alloc = rt.alloc();
    names(&rt, alloc, "a/b", "#/$defs/a~1b");
    names(&rt, alloc, "c%d", "#/$defs/c%25d");
    names(&rt, alloc, "e^f", "#/$defs/e%5Ef");
    names(&rt, alloc, "g|h", "#/$defs/g%7Ch");
    names(&rt, alloc, r#"i\\j"#, "#/$defs/i%5Cj");
    names(&rt, alloc, r#"k\"l"#, "#/$defs/k%22l");
    names(&rt, alloc, " ", "#/$defs/%20");
    names(&rt, alloc, "m~n", "#/$defs/m~0n");
    names(&rt, alloc, "", "#/$defs/");
    names(&rt, alloc, "~1", "#/$defs/~01");
    names(&rt, alloc, "a/b", "#/%24defs/a%7E1b");
    names(&rt, alloc, "ü", "#/$defs/%c3%BC");
    names(&rt, alloc, "ü", "#/$defs/ü");
    names(&rt, alloc, "a b", "#/$defs/a b");
    names(&rt, alloc, "a", "#%2F$defs/%61");
    names(&rt, alloc, "a+b", "#/$defs/a+b");
    names(&rt, alloc, "c%2", "#/$defs/c%2");
    names(&rt, alloc, "%", "#/$defs/%");
    names(&rt, alloc, "%zz", "#/$defs/%zz");
}

#[test]
fn references_that_lead_to_no_schema_are_refused(rt: HostRuntime) {
    let alloc = rt.alloc();
    names_none(&rt, alloc, "#/$defs");
    names_none(&rt, alloc, "#/$defs/b");
    names_none(&rt, alloc, "#/$defs/a/");
    names_none(&rt, alloc, "#/$defs/a/const");
    names_none(&rt, alloc, "#/$defs/%FF");
    names_none(&rt, alloc, "#/$defs/~");
    names_none(&rt, alloc, "#/$defs/~2");
    names_none(&rt, alloc, "#$defs/a");
    names_none(&rt, alloc, "#/");
    names_none(&rt, alloc, "##");
    names_none(&rt, alloc, "/$defs/a");
    names_none(&rt, alloc, "x#/$defs/a");
    names_none(&rt, alloc, "#/prefixItems");
    names_none(&rt, alloc, "#/prefixItems/1");
    names_none(&rt, alloc, "#/prefixItems/00");
    names_none(&rt, alloc, "#/prefixItems/-");
    names_none(&rt, alloc, "#/prefixItems/+0");
    names_none(&rt, alloc, "#/prefixItems/18446744073709551616");
    names_none(&rt, alloc, "#/properties/a/type");
    names_none(&rt, alloc, "#/default/a");
    names_none(&rt, alloc, "#/definitions/a");
    names_none(&rt, alloc, "#/enum/0");
    names_none(&rt, alloc, "#a");
}

#[test]
fn the_identifier_may_stand_in_front(rt: HostRuntime) {
    let alloc = rt.alloc();
    let named =
        r##"{"$id":"http://x.example/s","$defs":{"a":{"const":7}},"$ref":"http://x.example/s#/$defs/a"}"##;
    judges(&rt, alloc, named, "7", true);
    judges(&rt, alloc, named, "8", false);
    let whole =
        r##"{"$id":"http://x.example/s","maxProperties":1,"properties":{"k":{"$ref":"http://x.example/s"}}}"##;
    judges(&rt, alloc, whole, r#"{"k":{"k":{}}}"#, true);
    judges(&rt, alloc, whole, r#"{"k":{"k":1,"l":2}}"#, false);
    let empty = r##"{"maxProperties":1,"properties":{"k":{"$ref":""}}}"##;
    judges(&rt, alloc, empty, r#"{"k":{"k":1,"l":2}}"#, false);
    let other =
        r##"{"$id":"http://x.example/s","$defs":{"a":true},"$ref":"http://x.example/t#/$defs/a"}"##;
    is_read(&rt, alloc, other, SCHEMA_REF);
    let longer =
        r##"{"$id":"http://x.example/s","$defs":{"a":true},"$ref":"http://x.example/st#/$defs/a"}"##;
    is_read(&rt, alloc, longer, SCHEMA_REF);
    // An empty fragment of the identifier itself is no part of it.
    let hashed =
        r##"{"$id":"http://x.example/s#","$defs":{"a":{"const":7}},"$ref":"http://x.example/s#/$defs/a"}"##;
    judges(&rt, alloc, hashed, "7", true);
    judges(&rt, alloc, hashed, "8", false);
    let twice =
        r##"{"$id":"http://x.example/s#","$defs":{"a":true},"$ref":"http://x.example/s##/$defs/a"}"##;
    is_read(&rt, alloc, twice, SCHEMA_REF);
    let alone =
        r##"{"$id":"http://x.example/s#","maxProperties":1,"properties":{"k":{"$ref":"http://x.example/s#"}}}"##;
    judges(&rt, alloc, alone, r#"{"k":{"k":1,"l":2}}"#, false);
}

#[test]
fn loops_of_references_are_refused(rt: HostRuntime) {
    let alloc = rt.alloc();
    is_read(&rt, alloc, r##"{"$ref":""}"##, SCHEMA_LOOP);
    is_read(
        &rt,
        alloc,
        r##"{"properties":{"a":{"$ref":"#/properties/a"}}}"##,
        SCHEMA_LOOP,
    );
    is_read(
        &rt,
        alloc,
        r##"{"properties":{"a":{"$ref":"#/properties/b"},"b":{"$ref":"#/properties/a"}}}"##,
        SCHEMA_LOOP,
    );
    is_read(
        &rt,
        alloc,
        r##"{"$ref":"#/allOf/0","allOf":[{"$ref":"#"}]}"##,
        SCHEMA_LOOP,
    );
    is_read(
        &rt,
        alloc,
        r##"{"properties":{"n":{"$ref":"#/$defs/x/properties/y"}},"$defs":{"x":{"properties":{"y":{"properties":{"n":{"$ref":"#/properties/n"}}}}}}}"##,
        0,
    );
}
