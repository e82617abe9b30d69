//! Calls that no line and no program makes, each once with ample memory.
use doc_machine::{Machine, Node, Refusal};
use doc_schema::Schema;
use doc_schema::laws::judge_source;
use doc_store::{Command, Store, command_of};
use doc_tree::{Step, Tree};
use path_parse::{Query, normal_text};
use refusals::numbers::EXISTS;
use sector_device::MemDisk;
use std::alloc::Global;
use std::process::Abort;
use store_journal::format;

const CREATION: &str = r#"{"cmd":"create","doc":{"a":[5,6]},"name":"d","schema":true}"#;

fn tree(rt: &impl Abort, alloc: Global, text: &str) -> Tree {
    Tree::read(alloc, text.as_bytes()).expect(rt, "a JSON text")
}

fn creation(rt: &impl Abort, alloc: Global) -> Command {
    command_of(alloc, &tree(rt, alloc, CREATION)).expect(rt, "a command")
}

// What selects the elements of the document's list.
fn elements(rt: &impl Abort, alloc: Global) -> Query {
    Query::read(alloc, "$.a[*]").expect(rt, "a query")
}

fn is_written(rt: &impl Abort, alloc: Global, steps: &[Step], path: &str) {
    let text = normal_text(alloc, steps).expect(rt, "room");
    assert_eq!(rt; text.as_str(), path);
}

// The node of that number has that normalized path.
fn is_at(rt: &impl Abort, alloc: Global, nodes: &[Node<'_>], number: usize, path: &str) {
    match nodes.get(number) {
        Some(node) => is_written(rt, alloc, &node.steps, path),
        None => panic!(rt; "a node is missing"),
    }
}

fn are_elements(rt: &impl Abort, alloc: Global, found: Result<Vec<Node<'_>>, Refusal>) {
    let nodes = found.expect(rt, "nodes");
    assert!(rt; nodes.len() == 2);
    is_at(rt, alloc, &nodes, 0, "$['a'][0]");
    is_at(rt, alloc, &nodes, 1, "$['a'][1]");
}

// A machine with that document.
fn machine(rt: &impl Abort, alloc: Global) -> Machine {
    let mut machine = Machine::new(alloc);
    assert_eq!(rt; machine.step(creation(rt, alloc)), Ok(1));
    machine
}

#[test]
fn a_machine_steps_and_is_queried(rt: HostRuntime) {
    let machine = machine(&rt, rt.alloc());
    assert_eq!(rt; machine.revision("d"), Ok(1));
    let query = elements(&rt, rt.alloc());
    are_elements(&rt, rt.alloc(), machine.query("d", &query));
}

fn opened(rt: &impl Abort, alloc: Global) -> Store<MemDisk> {
    let mut disk = MemDisk::new(alloc, 16).expect(rt, "a disk");
    format(&mut disk).expect(rt, "formatted");
    match Store::open(alloc, disk) {
        Ok(store) => store,
        Err(_) => panic!(rt; "not opened"),
    }
}

// A store with that document.
fn store(rt: &impl Abort, alloc: Global) -> Store<MemDisk> {
    let mut store = opened(rt, alloc);
    store.execute(creation(rt, alloc)).expect(rt, "accepted");
    store
}

#[test]
fn a_store_is_queried(rt: HostRuntime) {
    has_elements(&rt, rt.alloc(), &store(&rt, rt.alloc()));
}

fn has_elements(rt: &impl Abort, alloc: Global, store: &Store<MemDisk>) {
    assert_eq!(rt; store.revision("d"), Ok(1));
    let query = elements(rt, alloc);
    are_elements(rt, alloc, store.query("d", &query));
}

fn delete(rt: &impl Abort, alloc: Global) -> Command {
    Command::Delete {
        name: String::from_str(alloc, "d").expect(rt, "room"),
    }
}

// The creation of that document, and a change after it.
fn creation_and(rt: &impl Abort, alloc: Global, next: Command) -> Vec<Command> {
    let mut both = Vec::new(alloc);
    both.push(creation(rt, alloc)).expect(rt, "room");
    both.push(next).expect(rt, "room");
    both
}

#[test]
fn a_transaction_makes_all_of_its_changes_or_none(rt: HostRuntime) {
    let alloc = rt.alloc();
    let mut store = opened(&rt, alloc);
    transacts(&rt, alloc, &mut store, delete(&rt, alloc), Ok(2));
    let exists = Refusal::plain(EXISTS).at_change(1);
    transacts(&rt, alloc, &mut store, creation(&rt, alloc), Err(exists));
}

// The creation and the change after it, as one transaction, end in this way; no document is there then.
fn transacts(
    rt: &impl Abort,
    alloc: Global,
    store: &mut Store<MemDisk>,
    next: Command,
    wanted: Result<u64, Refusal>,
) {
    assert_eq!(rt; store.transact(creation_and(rt, alloc, next)), wanted);
    assert!(rt; store.status().seq == 2);
    assert!(rt; store.status().documents == 0);
}

// A patch of that document from that revision on.
fn patch(rt: &impl Abort, alloc: Global, rev: u64) -> Command {
    Command::Patch {
        name: String::from_str(alloc, "d").expect(rt, "room"),
        ops: Tree::Null,
        if_rev: Some(rev),
    }
}

#[test]
fn a_revision_that_no_line_spells_is_another(rt: HostRuntime) {
    let patch = patch(&rt, rt.alloc(), 9_223_372_036_854_775_808);
    let mut machine = machine(&rt, rt.alloc());
    assert_eq!(rt; machine.step(patch), Err(Refusal::other_revision(1)));
}

fn schema(rt: &impl Abort, alloc: Global, text: &str) -> Schema {
    Schema::read(alloc, &tree(rt, alloc, text)).expect(rt, "a schema")
}

// Whether the instance is valid under the schema: so says its compiled form, and so its tree.
fn judges(rt: &impl Abort, alloc: Global, text: &str, instance: &str, valid: bool) {
    let schema = schema(rt, alloc, text);
    let instance = tree(rt, alloc, instance);
    let mut trial = schema.trial(alloc).expect(rt, "room");
    assert!(rt; trial.accepts(&instance) == valid);
    if !schema.has_patterns() {
        assert!(rt; schema.accepts(&instance) == Some(valid));
        assert!(rt; judge_source(&schema, &instance, alloc).expect(rt, "room") == Some(valid));
    }
}

#[test]
fn a_schemas_tree_judges_as_its_nodes_do(rt: HostRuntime) {
    let nested =
        r##"{"$defs":{"n":{"properties":{"next":{"not":{"$ref":"#/$defs/n"}}}}},"$ref":"#/$defs/n"}"##;
    let chosen =
        r#"{"if":{"required":["a"]},"then":{"required":["b"]},"else":{"maxProperties":1}}"#;
    let alloc = rt.alloc();
    judges(&rt, alloc, nested, "1", true);
    judges(&rt, alloc, nested, r#"{"next":1}"#, false);
    judges(&rt, alloc, nested, r#"{"next":{"next":1}}"#, true);
    judges(&rt, alloc, chosen, r#"{"a":1,"b":2}"#, true);
    judges(&rt, alloc, chosen, r#"{"a":1}"#, false);
    judges(&rt, alloc, chosen, r#"{"c":1,"d":2}"#, false);
    judges(&rt, alloc, r#"{"required":["z"]}"#, r#"{"k":1}"#, false);
    judges(&rt, alloc, r#"{"required":["k"]}"#, r#"{"k":1}"#, true);
    judges_nested(&rt, alloc, nested, 63, false);
    judges_nested(&rt, alloc, nested, 64, true);
}

// The same of that many objects, each under the name `next` of the one before it.
fn judges_nested(rt: &impl Abort, alloc: Global, text: &str, levels: usize, valid: bool) {
    let mut instance = r#"{"next":"#.repeat(alloc, levels).expect(rt, "room");
    let end = "}".repeat(alloc, levels).expect(rt, "room");
    instance.push_str("1").expect(rt, "room");
    instance.push_str(end.as_str()).expect(rt, "room");
    judges(rt, alloc, text, instance.as_str(), valid);
}

#[test]
fn elements_and_choices_are_judged_as_their_nodes_are(rt: HostRuntime) {
    let elements = r#"{"prefixItems":[{"type":"string"}],"items":{"type":"integer"}}"#;
    let one = r#"{"oneOf":[{"minimum":2},{"maximum":5}]}"#;
    let alloc = rt.alloc();
    judges(&rt, alloc, elements, "[]", true);
    judges(&rt, alloc, elements, r#"["x",1,2]"#, true);
    judges(&rt, alloc, elements, r#"["x","y"]"#, false);
    judges(&rt, alloc, one, "7", true);
    judges(&rt, alloc, one, "1", true);
    judges(&rt, alloc, one, "3", false);
    judges(&rt, alloc, one, r#""t""#, false);
}

fn name_step(rt: &impl Abort, alloc: Global, name: &str) -> Step {
    Step::Name(String::from_str(alloc, name).expect(rt, "room"))
}

// Whether what a valid document became by a change at those steps is valid: judged again along them, and as a whole.
fn judges_change(
    rt: &impl Abort,
    alloc: Global,
    text: &str,
    changed: &str,
    steps: &[Step],
    valid: bool,
) {
    let schema = schema(rt, alloc, text);
    let changed = tree(rt, alloc, changed);
    assert!(rt; schema.accepts_change(&changed, steps) == Some(valid));
    assert!(rt; schema.accepts(&changed) == Some(valid));
}

#[test]
fn a_change_is_judged_along_its_steps(rt: HostRuntime) {
    let alloc = rt.alloc();
    let typed =
        r##"{"properties":{"a":{"items":{"$ref":"#/$defs/n"}}},"$defs":{"n":{"type":"integer"}}}"##;
    let second = [name_step(&rt, alloc, "a"), Step::Index(1)];
    // From {"a":[1,2]}.
    judges_change(&rt, alloc, typed, r#"{"a":[1,"x"]}"#, &second, false);
    judges_change(&rt, alloc, typed, r#"{"a":[1,3]}"#, &second, true);
    judges_change(&rt, alloc, typed, r#"{"a":[1]}"#, &second, true);
}

#[test]
fn a_change_is_judged_with_its_siblings_under_not(rt: HostRuntime) {
    let alloc = rt.alloc();
    let neither = r#"{"not":{"properties":{"a":{"const":1},"b":{"const":1}}}}"#;
    let first = [name_step(&rt, alloc, "a")];
    // From {"a":0,"b":0}, and from {"a":0,"b":1}.
    judges_change(&rt, alloc, neither, r#"{"a":1,"b":0}"#, &first, true);
    judges_change(&rt, alloc, neither, r#"{"a":1,"b":1}"#, &first, false);
}

#[test]
fn a_member_that_comes_is_judged_by_its_name(rt: HostRuntime) {
    let alloc = rt.alloc();
    let named = r#"{"propertyNames":{"maxLength":1},"additionalProperties":{"minimum":1}}"#;
    let short = [name_step(&rt, alloc, "a")];
    let long = [name_step(&rt, alloc, "aa")];
    // From {}.
    judges_change(&rt, alloc, named, r#"{"aa":1}"#, &long, false);
    judges_change(&rt, alloc, named, r#"{"a":1}"#, &short, true);
    judges_change(&rt, alloc, named, r#"{"a":0}"#, &short, false);
}

#[test]
fn a_changed_list_is_counted_again(rt: HostRuntime) {
    let alloc = rt.alloc();
    let counted = r#"{"contains":{"const":1},"maxContains":1,"uniqueItems":true}"#;
    let second = [Step::Index(1)];
    // From [1,2].
    judges_change(&rt, alloc, counted, "[1,3]", &second, true);
    judges_change(&rt, alloc, counted, "[1,1]", &second, false);
    judges_change(&rt, alloc, counted, "[2,2]", &[], false);
}
