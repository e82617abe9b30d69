//! Schemas with patterns.
use doc_machine::{Machine, command_of};
use doc_schema::limits::{MOST_PATTERN_BYTES, MOST_PATTERNS};
use doc_schema::{Profile, Schema};
use doc_tree::Tree;
use refusals::numbers::{INVALID, MEMORY, SCHEMA_FORM, SCHEMA_KEYWORD, SCHEMA_SIZE};
use std::alloc::Global;
use std::process::Abort;

fn tree(rt: &impl Abort, alloc: Global, text: &str) -> Tree {
    Tree::read(alloc, text.as_bytes()).expect(rt, "a JSON text")
}

// The number by which the profile refuses the schema; 0 if it doesn't.
fn number_of(rt: &impl Abort, alloc: Global, profile: Profile, text: &str) -> u16 {
    match Schema::read_in(profile, alloc, &tree(rt, alloc, text)) {
        Ok(_) => 0,
        Err(fault) => fault.number,
    }
}

fn is_refused(rt: &impl Abort, alloc: Global, text: &str, two: u16, three: u16) {
    assert_eq!(rt; number_of(rt, alloc, Profile::Two, text), two);
    assert_eq!(rt; number_of(rt, alloc, Profile::Three, text), three);
}

// Whether the instance is valid under the schema in profile 3.
fn judges(rt: &impl Abort, alloc: Global, text: &str, instance: &str, valid: bool) {
    let schema = Schema::read_in(Profile::Three, alloc, &tree(rt, alloc, text)).expect(
        rt, "a schema",
    );
    let instance = tree(rt, alloc, instance);
    let mut trial = schema.trial(alloc).expect(rt, "room");
    assert!(rt; schema.has_patterns());
    assert!(rt; schema.accepts(&instance) == None);
    assert!(rt; trial.accepts(&instance) == valid);
    assert!(rt; trial.accepts_change(&instance, &[]) == valid);
    assert!(rt; trial.accepts(&instance) == valid);
}

#[test]
fn a_text_that_is_no_pattern_has_no_form(rt: HostRuntime) {
    let alloc = rt.alloc();
    is_refused(&rt, alloc, r#"{"pattern":"a+"}"#, SCHEMA_KEYWORD, 0);
    is_refused(
        &rt,
        alloc,
        r#"{"pattern":"("}"#,
        SCHEMA_KEYWORD,
        SCHEMA_FORM,
    );
    is_refused(
        &rt,
        alloc,
        r#"{"pattern":"(?=a)"}"#,
        SCHEMA_KEYWORD,
        SCHEMA_FORM,
    );
    is_refused(&rt, alloc, r#"{"pattern":5}"#, SCHEMA_KEYWORD, SCHEMA_FORM);
    is_refused(
        &rt,
        alloc,
        r#"{"items":{"not":{"pattern":"[b-a]"}}}"#,
        SCHEMA_KEYWORD,
        SCHEMA_FORM,
    );
    is_refused(
        &rt,
        alloc,
        r#"{"pattern":"[","$dynamicRef":"x"}"#,
        SCHEMA_KEYWORD,
        SCHEMA_FORM,
    );
    is_refused(&rt, alloc, r#"{"const":{"pattern":"("}}"#, 0, 0);
    is_refused(
        &rt,
        alloc,
        r#"{"properties":{"pattern":{"type":"null"}}}"#,
        0,
        0,
    );
}

// A schema with one pattern of that many bytes.
fn long(rt: &impl Abort, alloc: Global, bytes: usize) -> String {
    let mut text = String::from_str(alloc, r#"{"pattern":""#).expect(rt, "room");
    for _ in 0..bytes {
        text.push('a').expect(rt, "room");
    }
    text.push_str(r#""}"#).expect(rt, "room");
    text
}

// A schema with that many patterns beside those of the first.
fn many(rt: &impl Abort, alloc: Global, first: &str, count: usize) -> String {
    let mut text = String::from_str(alloc, r#"{"allOf":["#).expect(rt, "room");
    text.push_str(first).expect(rt, "room");
    for _ in 0..count {
        text.push_str(r#",{"pattern":"a"}"#).expect(rt, "room");
    }
    text.push_str("]}").expect(rt, "room");
    text
}

#[test]
fn patterns_have_limits(rt: HostRuntime) {
    let alloc = rt.alloc();
    let most = long(&rt, alloc, MOST_PATTERN_BYTES);
    is_refused(&rt, alloc, most.as_str(), SCHEMA_KEYWORD, 0);
    let more = long(&rt, alloc, MOST_PATTERN_BYTES + 1);
    is_refused(&rt, alloc, more.as_str(), SCHEMA_KEYWORD, SCHEMA_SIZE);
    let most = many(&rt, alloc, "{}", MOST_PATTERNS);
    is_refused(&rt, alloc, most.as_str(), SCHEMA_KEYWORD, 0);
    let more = many(&rt, alloc, "{}", MOST_PATTERNS + 1);
    is_refused(&rt, alloc, more.as_str(), SCHEMA_KEYWORD, SCHEMA_SIZE);
    let two = r#"{"patternProperties":{"a":{},"b":{}}}"#;
    let most = many(&rt, alloc, two, MOST_PATTERNS - 2);
    is_refused(&rt, alloc, most.as_str(), SCHEMA_KEYWORD, 0);
    let more = many(&rt, alloc, two, MOST_PATTERNS - 1);
    is_refused(&rt, alloc, more.as_str(), SCHEMA_KEYWORD, SCHEMA_SIZE);
    let large = r#"{"pattern":"((a{100}){100}){100}"}"#;
    is_refused(&rt, alloc, large, SCHEMA_KEYWORD, MEMORY);
}

// What Python's `jsonschema` says of each.
#[test]
fn patterns_are_searched_for_anywhere_in_texts(rt: HostRuntime) {
    let alloc = rt.alloc();
    let schema = r#"{"pattern":"b+"}"#;
    judges(&rt, alloc, schema, r#""abc""#, true);
    judges(&rt, alloc, schema, r#""ac""#, false);
    judges(&rt, alloc, schema, r#""""#, false);
    judges(&rt, alloc, schema, r#"5"#, true);
    judges(&rt, alloc, schema, r#"null"#, true);
    judges(&rt, alloc, schema, r#"["b"]"#, true);
    judges(&rt, alloc, schema, r#"{"b":1}"#, true);
    let schema = r#"{"pattern":"^a.c$"}"#;
    judges(&rt, alloc, schema, r#""abc""#, true);
    judges(&rt, alloc, schema, r#""abcd""#, false);
    judges(&rt, alloc, schema, r#""xabc""#, false);
    judges(&rt, alloc, schema, r#""aéc""#, true);
    judges(&rt, alloc, schema, r#""a€c""#, true);
    judges(&rt, alloc, schema, r#""ac""#, false);
    judges(&rt, alloc, schema, r#""a😀c""#, true);
    let schema = r#"{"pattern":"^[^é]{2}$"}"#;
    judges(&rt, alloc, schema, r#""ab""#, true);
    judges(&rt, alloc, schema, r#""a😀""#, true);
    judges(&rt, alloc, schema, r#""aé""#, false);
    judges(&rt, alloc, schema, r#""a""#, false);
    judges(&rt, alloc, schema, r#""€€""#, true);
    let schema = r#"{"pattern":""}"#;
    judges(&rt, alloc, schema, r#""""#, true);
    judges(&rt, alloc, schema, r#""x""#, true);
    judges(&rt, alloc, schema, r#"1"#, true);
    let schema = r#"{"pattern":"a","minLength":2}"#;
    judges(&rt, alloc, schema, r#""a""#, false);
    judges(&rt, alloc, schema, r#""ba""#, true);
    judges(&rt, alloc, schema, r#""bb""#, false);
}

#[test]
fn patterns_are_asked_of_children(rt: HostRuntime) {
    let alloc = rt.alloc();
    let schema = r#"{"properties":{"k":{"pattern":"^[a-z0-9-]{1,8}$"},"l":{"pattern":"x|y"}}}"#;
    judges(&rt, alloc, schema, r#"{"k":"ab-9"}"#, true);
    judges(&rt, alloc, schema, r#"{"k":"AB"}"#, false);
    judges(&rt, alloc, schema, r#"{"k":"ab","l":"z"}"#, false);
    judges(&rt, alloc, schema, r#"{"k":"ab","l":"zy"}"#, true);
    judges(&rt, alloc, schema, r#"{"l":5}"#, true);
    judges(&rt, alloc, schema, r#"{"k":""}"#, false);
    let schema = r#"{"items":{"anyOf":[{"pattern":"^a"},{"pattern":"z$"}]}}"#;
    judges(&rt, alloc, schema, r#"["ab","cz"]"#, true);
    judges(&rt, alloc, schema, r#"["ab","c"]"#, false);
    judges(&rt, alloc, schema, r#"[]"#, true);
    judges(&rt, alloc, schema, r#"[1,"a"]"#, true);
    let schema = r#"{"items":{"oneOf":[{"pattern":"a"},{"pattern":"b"}]}}"#;
    judges(&rt, alloc, schema, r#"["a","b"]"#, true);
    judges(&rt, alloc, schema, r#"["ab"]"#, false);
    judges(&rt, alloc, schema, r#"["c"]"#, false);
    let schema = r#"{"propertyNames":{"pattern":"^[a-z]+$"}}"#;
    judges(&rt, alloc, schema, r#"{"ab":1}"#, true);
    judges(&rt, alloc, schema, r#"{"aB":1}"#, false);
    judges(&rt, alloc, schema, r#"{"":1}"#, false);
    judges(&rt, alloc, schema, r#"{}"#, true);
    judges(&rt, alloc, schema, r#"{"a":1,"9":2}"#, false);
    let schema =
        r##"{"$defs":{"n":{"pattern":"^n"}},"additionalProperties":{"$ref":"#/$defs/n"}}"##;
    judges(&rt, alloc, schema, r#"{"a":"n1"}"#, true);
    judges(&rt, alloc, schema, r#"{"a":"1n"}"#, false);
    judges(&rt, alloc, schema, r#"{"a":"n","b":"m"}"#, false);
}

#[test]
fn patterns_are_asked_under_other_keywords(rt: HostRuntime) {
    let alloc = rt.alloc();
    let schema = r#"{"not":{"pattern":"a"}}"#;
    judges(&rt, alloc, schema, r#""a""#, false);
    judges(&rt, alloc, schema, r#""b""#, true);
    judges(&rt, alloc, schema, r#"1"#, false);
    let schema = r#"{"if":{"pattern":"^a"},"then":{"maxLength":2},"else":{"pattern":"b$"}}"#;
    judges(&rt, alloc, schema, r#""ab""#, true);
    judges(&rt, alloc, schema, r#""abc""#, false);
    judges(&rt, alloc, schema, r#""cb""#, true);
    judges(&rt, alloc, schema, r#""c""#, false);
    let schema = r#"{"contains":{"pattern":"q"},"minContains":2}"#;
    judges(&rt, alloc, schema, r#"["q","aq"]"#, true);
    judges(&rt, alloc, schema, r#"["q"]"#, false);
    judges(&rt, alloc, schema, r#"["q",1]"#, true);
    let schema = r#"{"allOf":[{"pattern":"a"},{"pattern":"b"},{"pattern":"a"}]}"#;
    judges(&rt, alloc, schema, r#""ab""#, true);
    judges(&rt, alloc, schema, r#""a""#, false);
    judges(&rt, alloc, schema, r#""b""#, false);
    let schema = r#"{"dependentSchemas":{"a":{"properties":{"b":{"pattern":"^x"}}}}}"#;
    judges(&rt, alloc, schema, r#"{"b":"y"}"#, true);
    judges(&rt, alloc, schema, r#"{"a":1,"b":"y"}"#, false);
    judges(&rt, alloc, schema, r#"{"a":1,"b":"xy"}"#, true);
}

#[test]
fn patterns_have_choices_and_escapes(rt: HostRuntime) {
    let alloc = rt.alloc();
    let schema = r#"{"pattern":"(a|aa)+$"}"#;
    judges(&rt, alloc, schema, r#""aaaa""#, true);
    judges(&rt, alloc, schema, r#""aab""#, false);
    judges(&rt, alloc, schema, r#""baa""#, true);
    let schema = r#"{"pattern":"\\.json$"}"#;
    judges(&rt, alloc, schema, r#""a.json""#, true);
    judges(&rt, alloc, schema, r#""ajson""#, false);
    judges(&rt, alloc, schema, r#"".json ""#, false);
}

// By what number the machine refuses the change; 0 if it doesn't.
fn change(rt: &impl Abort, alloc: Global, machine: &mut Machine, text: &str, number: u16) {
    let command = command_of(alloc, &tree(rt, alloc, text)).expect(rt, "a command");
    let answer = match machine.step(command) {
        Ok(_) => 0,
        Err(refusal) => refusal.number,
    };
    assert_eq!(rt; answer, number);
}

#[test]
fn a_machine_judges_by_patterns_in_profile_3(rt: HostRuntime) {
    let alloc = rt.alloc();
    let mut machine = Machine::at(alloc, 0, Profile::Three);
    let other =
        r#"{"cmd":"create","doc":{"k":"B"},"name":"d","schema":{"properties":{"k":{"pattern":"^[a-z]+$"}}}}"#;
    change(&rt, alloc, &mut machine, other, INVALID);
    let creation =
        r#"{"cmd":"create","doc":{"k":"b","l":[1]},"name":"d","schema":{"properties":{"k":{"pattern":"^[a-z]+$"}}}}"#;
    change(&rt, alloc, &mut machine, creation, 0);
    let matching =
        r#"{"cmd":"patch","name":"d","ops":[{"op":"replace","path":"/k","value":"cc"}]}"#;
    change(&rt, alloc, &mut machine, matching, 0);
    let other = r#"{"cmd":"patch","name":"d","ops":[{"op":"replace","path":"/k","value":"C"}]}"#;
    change(&rt, alloc, &mut machine, other, INVALID);
    let beside = r#"{"cmd":"patch","name":"d","ops":[{"op":"add","path":"/l/-","value":"C"}]}"#;
    change(&rt, alloc, &mut machine, beside, 0);
    let nothing = r#"{"cmd":"patch","name":"d","ops":[{"op":"test","path":"/k","value":"cc"}]}"#;
    change(&rt, alloc, &mut machine, nothing, 0);
    let other = r#"{"cmd":"schema","name":"d","schema":{"properties":{"k":{"pattern":"^c$"}}}}"#;
    change(&rt, alloc, &mut machine, other, INVALID);
    let matching = r#"{"cmd":"schema","name":"d","schema":{"properties":{"k":{"pattern":"^c"}}}}"#;
    change(&rt, alloc, &mut machine, matching, 0);
    let mut earlier = Machine::new(alloc);
    change(&rt, alloc, &mut earlier, creation, SCHEMA_KEYWORD);
}
