//! Schemas in each profile.
use doc_schema::laws::judge_source;
use doc_schema::{Profile, Schema};
use doc_tree::{Step, Tree};
use refusals::numbers::{SCHEMA_FORM, SCHEMA_KEYWORD, SCHEMA_LOOP, SCHEMA_REF};
use std::alloc::Global;
use std::process::Abort;

fn tree(rt: &impl Abort, alloc: Global, text: &str) -> Tree {
    Tree::read(alloc, text.as_bytes()).expect(rt, "a JSON text")
}

// The number by which the profile refuses the schema; 0 if it doesn't.
fn number_of(rt: &impl Abort, alloc: Global, profile: Profile, text: &str) -> u16 {
    match Schema::read_in(profile, alloc, &tree(rt, alloc, text)) {
        Ok(_) => 0,
        Err(fault) => fault.number,
    }
}

fn is_refused(rt: &impl Abort, alloc: Global, text: &str, two: u16, three: u16) {
    assert_eq!(rt; number_of(rt, alloc, Profile::Two, text), two);
    assert_eq!(rt; number_of(rt, alloc, Profile::Three, text), three);
}

#[test]
fn a_profile_refuses_dependent_schemas_or_reads_them(rt: HostRuntime) {
    let alloc = rt.alloc();
    is_refused(&rt, alloc, r#"{"dependentSchemas":{}}"#, SCHEMA_KEYWORD, 0);
    is_refused(
        &rt,
        alloc,
        r#"{"dependentSchemas":{"a":5}}"#,
        SCHEMA_KEYWORD,
        SCHEMA_FORM,
    );
    is_refused(
        &rt,
        alloc,
        r#"{"dependentSchemas":[]}"#,
        SCHEMA_KEYWORD,
        SCHEMA_FORM,
    );
    is_refused(
        &rt,
        alloc,
        r#"{"dependentSchemas":{"a":{"type":5}},"type":5}"#,
        SCHEMA_FORM,
        SCHEMA_FORM,
    );
    is_refused(
        &rt,
        alloc,
        r##"{"dependentSchemas":{"a":{"$ref":"#/$defs/b"}}}"##,
        SCHEMA_KEYWORD,
        SCHEMA_REF,
    );
    is_refused(
        &rt,
        alloc,
        r##"{"dependentSchemas":{"a":{"$ref":"#"}}}"##,
        SCHEMA_KEYWORD,
        SCHEMA_LOOP,
    );
}

#[test]
fn a_profile_refuses_properties_by_patterns_or_reads_them(rt: HostRuntime) {
    let alloc = rt.alloc();
    is_refused(
        &rt,
        alloc,
        r#"{"patternProperties":{"a":{}}}"#,
        SCHEMA_KEYWORD,
        0,
    );
    is_refused(
        &rt,
        alloc,
        r#"{"patternProperties":{"(":{}}}"#,
        SCHEMA_KEYWORD,
        SCHEMA_FORM,
    );
    is_refused(
        &rt,
        alloc,
        r#"{"patternProperties":{"a":5}}"#,
        SCHEMA_KEYWORD,
        SCHEMA_FORM,
    );
    is_refused(
        &rt,
        alloc,
        r#"{"patternProperties":[]}"#,
        SCHEMA_KEYWORD,
        SCHEMA_FORM,
    );
    is_refused(
        &rt,
        alloc,
        r##"{"patternProperties":{"a":{"$ref":"#/$defs/b"}}}"##,
        SCHEMA_KEYWORD,
        SCHEMA_REF,
    );
    is_refused(
        &rt,
        alloc,
        r##"{"patternProperties":{"a":{"$ref":"#"}}}"##,
        SCHEMA_KEYWORD,
        0,
    );
}

#[test]
fn what_no_profile_has_is_refused_in_each(rt: HostRuntime) {
    let alloc = rt.alloc();
    is_refused(
        &rt,
        alloc,
        r#"{"$dynamicRef":"x"}"#,
        SCHEMA_KEYWORD,
        SCHEMA_KEYWORD,
    );
    is_refused(&rt, alloc, r#"{"definitions":{"a":5}}"#, 0, 0);
}

// Whether the instance is valid under the schema in profile 3: so says its compiled form, and so its tree.
fn judges(rt: &impl Abort, alloc: Global, text: &str, instance: &str, valid: bool) {
    let schema = Schema::read_in(Profile::Three, alloc, &tree(rt, alloc, text)).expect(
        rt, "a schema",
    );
    let instance = tree(rt, alloc, instance);
    let mut trial = schema.trial(alloc).expect(rt, "room");
    assert!(rt; trial.accepts(&instance) == valid);
    assert!(rt; trial.accepts_change(&instance, &[]) == valid);
    if !schema.has_patterns() {
        assert!(rt; schema.accepts(&instance) == Some(valid));
        assert!(rt; judge_source(&schema, &instance, alloc).expect(rt, "room") == Some(valid));
    }
}

// What Python's `jsonschema` says of each.
#[test]
fn dependent_schemas_are_asked_of_the_object(rt: HostRuntime) {
    let alloc = rt.alloc();
    let card =
        r#"{"dependentSchemas":{"card":{"required":["address"],"properties":{"card":{"type":"string"}}},"vip":false}}"#;
    judges(&rt, alloc, card, "{}", true);
    judges(&rt, alloc, card, r#"{"card":"1"}"#, false);
    judges(&rt, alloc, card, r#"{"card":"1","address":"x"}"#, true);
    judges(&rt, alloc, card, r#"{"card":1,"address":"x"}"#, false);
    judges(&rt, alloc, card, r#"{"vip":1}"#, false);
    judges(&rt, alloc, card, r#"{"address":1}"#, true);
    judges(&rt, alloc, card, r#"["card"]"#, true);
    judges(&rt, alloc, card, r#""card""#, true);
    judges(
        &rt,
        alloc,
        card,
        r#"{"card":"1","address":"x","vip":null}"#,
        false,
    );
}

#[test]
fn dependent_schemas_are_asked_under_other_keywords(rt: HostRuntime) {
    let alloc = rt.alloc();
    let under = r#"{"not":{"dependentSchemas":{"a":{"properties":{"b":{"type":"integer"}}}}}}"#;
    judges(&rt, alloc, under, "{}", false);
    judges(&rt, alloc, under, r#"{"a":1}"#, false);
    judges(&rt, alloc, under, r#"{"a":1,"b":"x"}"#, true);
    judges(&rt, alloc, under, r#"{"b":"x"}"#, false);
    let named =
        r##"{"properties":{"x":{"$ref":"#/$defs/n"}},"$defs":{"n":{"dependentSchemas":{"k":{"maxProperties":1},"l":{"$ref":"#/$defs/m"}}},"m":{"minProperties":3}}}"##;
    judges(&rt, alloc, named, r#"{"x":{"k":1}}"#, true);
    judges(&rt, alloc, named, r#"{"x":{"k":1,"z":1}}"#, false);
    judges(&rt, alloc, named, r#"{"x":{"l":1,"z":1}}"#, false);
    judges(&rt, alloc, named, r#"{"x":{"l":1,"z":1,"y":1}}"#, true);
    judges(&rt, alloc, named, r#"{"k":1,"z":1}"#, true);
}

#[test]
fn patterns_ask_the_members_whose_names_match(rt: HostRuntime) {
    let alloc = rt.alloc();
    let two = r#"{"patternProperties":{"^n":{"type":"integer"},"e$":{"maximum":9}}}"#;
    judges(&rt, alloc, two, "{}", true);
    judges(&rt, alloc, two, r#"{"n":1}"#, true);
    judges(&rt, alloc, two, r#"{"n":"x"}"#, false);
    judges(&rt, alloc, two, r#"{"name":5}"#, true);
    judges(&rt, alloc, two, r#"{"name":10}"#, false);
    judges(&rt, alloc, two, r#"{"name":"x"}"#, false);
    judges(&rt, alloc, two, r#"{"pie":10}"#, false);
    judges(&rt, alloc, two, r#"{"pie":"x"}"#, true);
    judges(&rt, alloc, two, r#"{"o":"x"}"#, true);
    judges(&rt, alloc, two, r#"["n"]"#, true);
    judges(&rt, alloc, two, r#""n""#, true);
    judges(&rt, alloc, two, r#"{"nie":null}"#, false);
    let each = r#"{"patternProperties":{"":{"type":"integer"}}}"#;
    judges(&rt, alloc, each, r#"{"a":1}"#, true);
    judges(&rt, alloc, each, r#"{"a":"x"}"#, false);
    judges(&rt, alloc, each, r#"{"":1}"#, true);
    judges(&rt, alloc, each, r#"{"":"x"}"#, false);
    let alike = r#"{"patternProperties":{"^v":{"pattern":"v"}}}"#;
    judges(&rt, alloc, alike, r#"{"v":"v"}"#, true);
    judges(&rt, alloc, alike, r#"{"v":"w"}"#, false);
    judges(&rt, alloc, alike, r#"{"w":"w"}"#, true);
}

#[test]
fn other_members_are_those_without_name_and_pattern(rt: HostRuntime) {
    let alloc = rt.alloc();
    let beside =
        r#"{"properties":{"id":{"type":"integer"}},"patternProperties":{"^x-":{"type":"string"},"[0-9]":false},"additionalProperties":{"type":"boolean"}}"#;
    judges(&rt, alloc, beside, "{}", true);
    judges(&rt, alloc, beside, r#"{"id":1}"#, true);
    judges(&rt, alloc, beside, r#"{"id":"1"}"#, false);
    judges(&rt, alloc, beside, r#"{"x-a":"v"}"#, true);
    judges(&rt, alloc, beside, r#"{"x-a":1}"#, false);
    judges(&rt, alloc, beside, r#"{"x-a":true}"#, false);
    judges(&rt, alloc, beside, r#"{"other":true}"#, true);
    judges(&rt, alloc, beside, r#"{"other":"v"}"#, false);
    judges(&rt, alloc, beside, r#"{"a1":true}"#, false);
    judges(&rt, alloc, beside, r#"{"x-1":"v"}"#, false);
    judges(
        &rt,
        alloc,
        beside,
        r#"{"id":1,"x-a":"v","other":false}"#,
        true,
    );
    let closed = r#"{"patternProperties":{"b":{}},"additionalProperties":false}"#;
    judges(&rt, alloc, closed, r#"{"abc":1}"#, true);
    judges(&rt, alloc, closed, r#"{"a":1}"#, false);
    judges(&rt, alloc, closed, r#"{"b":2,"c":3}"#, false);
    judges(&rt, alloc, closed, r#"{"B":1}"#, false);
    judges(&rt, alloc, closed, "{}", true);
}

#[test]
fn patterns_ask_members_under_other_keywords(rt: HostRuntime) {
    let alloc = rt.alloc();
    let under = r#"{"not":{"patternProperties":{"a":{"type":"string"}}}}"#;
    judges(&rt, alloc, under, "{}", false);
    judges(&rt, alloc, under, r#"{"a":"x"}"#, false);
    judges(&rt, alloc, under, r#"{"a":1}"#, true);
    judges(&rt, alloc, under, r#"{"b":1}"#, false);
    judges(&rt, alloc, under, r#"{"ba":2,"a":"x"}"#, true);
    judges(&rt, alloc, under, "5", false);
    let nested =
        r##"{"$defs":{"n":{"patternProperties":{"^.{2}$":{"$ref":"#/$defs/n"},"k":{"minimum":0}},"additionalProperties":{"pattern":"^k"}}},"$ref":"#/$defs/n"}"##;
    judges(&rt, alloc, nested, r#"{"ab":{"ab":{"x":"k"}}}"#, true);
    judges(&rt, alloc, nested, r#"{"ab":{"ab":{"x":"j"}}}"#, false);
    judges(&rt, alloc, nested, r#"{"ak":{"k":-1}}"#, false);
    judges(&rt, alloc, nested, r#"{"ak":-1}"#, false);
    judges(&rt, alloc, nested, r#"{"k":0}"#, true);
    judges(&rt, alloc, nested, r#"{"é":"k"}"#, true);
    judges(&rt, alloc, nested, r#"{"éé":{"éé":{"z":"k1"}}}"#, true);
    judges(&rt, alloc, nested, r#"{"éé":{"éé":{"z":"x"}}}"#, false);
    let listed =
        r#"{"items":{"propertyNames":{"pattern":"^[a-z]+$"},"patternProperties":{"^s":{"type":"string"},"^t":{"pattern":"^t"}}}}"#;
    judges(&rt, alloc, listed, r#"[{"sa":"x","ta":"tt"}]"#, true);
    judges(&rt, alloc, listed, r#"[{"sa":1}]"#, false);
    judges(&rt, alloc, listed, r#"[{"ta":"x"}]"#, false);
    judges(&rt, alloc, listed, r#"[{"S":1}]"#, false);
    judges(&rt, alloc, listed, r#"[{"t":5},{"s":"y"}]"#, true);
    judges(&rt, alloc, listed, r#"[{"t":"t"},{"t":"s"}]"#, false);
}

// Whether what a valid document became by a change of the member of that name is valid.
fn judges_change(
    rt: &impl Abort,
    alloc: Global,
    text: &str,
    changed: &str,
    name: &str,
    valid: bool,
) {
    let schema = Schema::read_in(Profile::Three, alloc, &tree(rt, alloc, text)).expect(
        rt, "a schema",
    );
    let changed = tree(rt, alloc, changed);
    let steps = [Step::Name(String::from_str(alloc, name).expect(rt, "room"))];
    let mut trial = schema.trial(alloc).expect(rt, "room");
    assert!(rt; trial.accepts_change(&changed, &steps) == valid);
    assert!(rt; trial.accepts(&changed) == valid);
}

#[test]
fn a_change_is_judged_by_the_patterns_of_its_name(rt: HostRuntime) {
    let alloc = rt.alloc();
    let closed =
        r#"{"patternProperties":{"^n":{"type":"integer"},"1$":{"maximum":5}},"additionalProperties":{"type":"boolean"}}"#;
    // From {"n1":1}.
    judges_change(&rt, alloc, closed, r#"{"n1":5}"#, "n1", true);
    judges_change(&rt, alloc, closed, r#"{"n1":6}"#, "n1", false);
    judges_change(&rt, alloc, closed, r#"{"n1":"x"}"#, "n1", false);
    judges_change(&rt, alloc, closed, r#"{"n1":1,"n2":6}"#, "n2", true);
    judges_change(&rt, alloc, closed, r#"{"n1":1,"x":true}"#, "x", true);
    judges_change(&rt, alloc, closed, r#"{"n1":1,"x":1}"#, "x", false);
}
