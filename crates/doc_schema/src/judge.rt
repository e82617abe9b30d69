//! The judgement of an instance under a schema without patterns, whose references are those of profile 2, by recursion
//! over both. No memory is taken.

ghost use Rattle.std.specs.Prelude.{◌≡◌, [], ◌==◌, Some, false, is_none, option_map, codes, if◌then◌else◌};
ghost use Rattle.doc_tree.specs.Doc.{get_member, object};
ghost use Rattle.doc_tree.specs.Lists.{names_list};
ghost use Rattle.doc_tree.specs.TreeView.{view, elements_view, members_view};
ghost use Rattle.schema_graph.specs.Walks.{In};
ghost use Rattle.schema_rules.specs.Instances.{seen};
ghost use Rattle.schema_rules.specs.Assertions.{at_least, at_most, on_list};
ghost use Rattle.schema_rules.specs.Parts.{beside, elements_in, members_in};
ghost use Rattle.schema_rules.specs.Rules.{asks, at_each, by_each, of_each, by_place, by_name, each_named, of_names, of_others, of_contained, at_target, after_if, every, some, how_many, where_true, where_false, where_present, with_if, with_schema, or_one};
ghost use Rattle.schema_rules.specs.EarlierReferences.{earlier_target};
ghost use Rattle.schema_rules.specs.PatternTexts.{texts_of};
ghost use Rattle.schema_rules.specs.References.{is_dangling, target};
ghost use Rattle.schema_rules.specs.declared.profile.Profile.TheVariants.{Two};
ghost use Rattle.doc_schema.specs.Schemas.{schemas, IsPlain};
ghost use Rattle.doc_schema.specs.Steps.{verdict, all_hold, holds, told, ArePlaced};

use crate::parts::{
    after, elements_of, is_enough, is_named, is_within, items_of, members_of, prefix_len,
};
use doc_tree::Tree;
use name_map::NameMap;
use schema_rules::{
    Instance, Keyword, asserts, earlier_target, has_member, keyword_named, member_named,
};

/// Whether the instance passes a schema of the whole one, `root`.
#[cycle(judge)]
pub(crate) fn accepts_at(root: &Tree, schema: &Tree, instance: Instance<'_>) -> bool
    requires plain { IsPlain (view root.now) }
    requires placed { In (view schema.now) (schemas (view root.now)) }
    ensures { result ≡ verdict (view root.now) (view schema.now) (seen instance.entry) }
{
    match schema {
        Tree::Bool(b) => *b,
        Tree::Object(members) => members_hold(root, members, instance),
        _ => true,
    }
}

// All members of a schema object apply together.
#[cycle(judge)]
#[tactic(auto, using(crate::proofs::Searchless::searchless_object))]
fn members_hold(root: &Tree, members: &NameMap<Tree>, instance: Instance<'_>) -> bool
    requires plain { IsPlain (view root.now) }
    requires placed { In (object (members_view members.now.entries)) (schemas (view root.now)) }
    ensures { let ms = members_view members.now.entries in
        result ≡ all_hold (verdict (view root.now)) (view root.now) ms ms (seen instance.entry) }
{
    for (name, value) in members.iter() {
        if !member_holds(root, members, keyword_named(name.as_str()), value, instance) {
            return false;
        }
    }
    true
}

// What one member says, with all members of its object beside it.
#[cycle(judge)]
fn member_holds(
    root: &Tree,
    siblings: &NameMap<Tree>,
    keyword: Keyword,
    value: &Tree,
    instance: Instance<'_>,
) -> bool
    requires plain { IsPlain (view root.now) }
    requires placed { ArePlaced (view root.now) (asks (view root.now) (members_view siblings.now.entries) keyword (view value.now) (seen instance)) }
    requires searchless { texts_of keyword (view value.now) ≡ [] }
    requires near { is_dangling Two (view root.now) keyword (view value.now) ≡ false }
    requires unpatterned { names_list (members_in (beside (codes "patternProperties") (members_view siblings.now.entries))) ≡ [] }
    ensures { result ≡ holds (verdict (view root.now)) (view root.now) (members_view siblings.now.entries) keyword (view value.now) (seen instance.entry) }
{
    match keyword {
        Keyword::Properties => match members_of(instance) {
            Some(members) => properties_accepted(root, value, members),
            None => true,
        },
        Keyword::AdditionalProperties => match members_of(instance) {
            Some(members) => others_accepted(root, siblings, value, members),
            None => true,
        },
        Keyword::PropertyNames => match members_of(instance) {
            Some(members) => names_accepted(root, value, members),
            None => true,
        },
        Keyword::PrefixItems => placed_accepted(root, elements_of(value), items_of(instance)),
        Keyword::Items => each_accepted(
            root,
            value,
            after(items_of(instance), prefix_len(siblings)),
        ),
        Keyword::Contains => contains_accepted(root, siblings, value, instance),
        Keyword::MaxContains => limit_accepted(
            root,
            member_named(siblings, "contains"),
            value,
            instance,
        ),
        Keyword::AllOf => all_accept(root, elements_of(value), instance),
        Keyword::AnyOf => some_accepts(root, elements_of(value), instance),
        Keyword::OneOf => one_accepts(root, elements_of(value), instance),
        Keyword::Not => !accepts_at(root, value, instance),
        Keyword::Then => accepts_where(root, member_named(siblings, "if"), true, value, instance),
        Keyword::Else => accepts_where(root, member_named(siblings, "if"), false, value, instance),
        Keyword::DependentSchemas => match value {
            Tree::Object(schemas) => present_accept(root, schemas, instance),
            _ => true,
        },
        Keyword::Ref => found_accepts(root, near_target(root, value), instance),
        Keyword::Pattern => true,
        Keyword::PatternProperties => true,
        _ => asserts(keyword, value, instance),
    }
}

// The schema that a reference of profile 2 names.
fn near_target<'t>(root: &'t Tree, value: &Tree) -> Option<&'t Tree>
    requires { is_none (earlier_target (view root.now) (view value.now)) ≡ false }
    ensures { option_map (λ t. view t.now) result ≡ target (view root.now) (view value.now) }
{
    earlier_target(root, value)
}

// Whether each schema accepts.
#[cycle(judge)]
fn all_accept(root: &Tree, schemas: &[Tree], instance: Instance<'_>) -> bool
    requires plain { IsPlain (view root.now) }
    requires placed { ArePlaced (view root.now) (at_each (elements_view schemas.now) (seen instance)) }
    ensures { result ≡ every (told (verdict (view root.now)) (at_each (elements_view schemas.now) (seen instance.entry))) }
{
    for schema in schemas {
        if !accepts_at(root, schema, instance) {
            return false;
        }
    }
    true
}

// Whether at least one schema accepts.
#[cycle(judge)]
fn some_accepts(root: &Tree, schemas: &[Tree], instance: Instance<'_>) -> bool
    requires plain { IsPlain (view root.now) }
    requires placed { ArePlaced (view root.now) (at_each (elements_view schemas.now) (seen instance)) }
    ensures { result ≡ some (told (verdict (view root.now)) (at_each (elements_view schemas.now) (seen instance.entry))) }
{
    for schema in schemas {
        if accepts_at(root, schema, instance) {
            return true;
        }
    }
    false
}

// Whether exactly one schema accepts.
#[cycle(judge)]
fn one_accepts(root: &Tree, schemas: &[Tree], instance: Instance<'_>) -> bool
    requires plain { IsPlain (view root.now) }
    requires placed { ArePlaced (view root.now) (at_each (elements_view schemas.now) (seen instance)) }
    ensures { result ≡ (how_many (told (verdict (view root.now)) (at_each (elements_view schemas.now) (seen instance.entry))) == 1) }
{
    let mut found = false;
    for schema in schemas {
        if accepts_at(root, schema, instance) {
            if found {
                return false;
            }
            found = true;
        }
    }
    found
}

// Whether the schema accepts each element.
#[cycle(judge)]
fn each_accepted(root: &Tree, schema: &Tree, items: &[Tree]) -> bool
    requires plain { IsPlain (view root.now) }
    requires placed { ArePlaced (view root.now) (of_each (view schema.now) (elements_view items.now)) }
    ensures { result ≡ every (told (verdict (view root.now)) (of_each (view schema.now) (elements_view items.now))) }
{
    for item in items {
        if !accepts_at(root, schema, Instance::Value(item)) {
            return false;
        }
    }
    true
}

// How many elements the schema accepts.
#[cycle(judge)]
fn how_many_accepted(root: &Tree, schema: &Tree, items: &[Tree]) -> usize
    requires plain { IsPlain (view root.now) }
    requires placed { ArePlaced (view root.now) (of_each (view schema.now) (elements_view items.now)) }
    ensures { result ≡ how_many (told (verdict (view root.now)) (of_each (view schema.now) (elements_view items.now))) }
{
    let mut count = 0;
    for item in items {
        if accepts_at(root, schema, Instance::Value(item)) {
            count += 1;
        }
    }
    count
}

// Whether it accepts as many as `minContains` beside it says.
#[cycle(judge)]
fn contains_accepted(
    root: &Tree,
    siblings: &NameMap<Tree>,
    schema: &Tree,
    instance: Instance<'_>,
) -> bool
    requires plain { IsPlain (view root.now) }
    requires placed { ArePlaced (view root.now) (of_each (view schema.now) (elements_in (seen instance))) }
    ensures { let many = how_many (told (verdict (view root.now)) (of_each (view schema.now) (elements_in (seen instance.entry)))) in
        result ≡ on_list (λ _. at_least (or_one (get_member (codes "minContains") (members_view siblings.now.entries))) many) (seen instance.entry) }
{
    let many = how_many_accepted(root, schema, items_of(instance));
    is_enough(member_named(siblings, "minContains"), many, instance)
}

// Whether the schema of `contains`, if there is one, accepts at most `most` elements.
#[cycle(judge)]
fn limit_accepted(
    root: &Tree,
    contained: Option<&Tree>,
    most: &Tree,
    instance: Instance<'_>,
) -> bool
    requires plain { IsPlain (view root.now) }
    requires placed { ArePlaced (view root.now) (of_contained (option_map (λ t. view t.now) contained) (elements_in (seen instance))) }
    ensures { let o = option_map (λ t. view t.now) contained.entry in
        let many = how_many (told (verdict (view root.now)) (of_contained o (elements_in (seen instance.entry)))) in
        result ≡ with_schema o (on_list (λ _. at_most (view most.now) many) (seen instance.entry)) }
{
    match contained {
        Some(schema) => {
            let many = how_many_accepted(root, schema, items_of(instance));
            is_within(most, many, instance)
        }
        None => true,
    }
}

// Whether each schema accepts the element at its place, as far as both go.
#[cycle(judge)]
fn placed_accepted(root: &Tree, schemas: &[Tree], items: &[Tree]) -> bool
    requires plain { IsPlain (view root.now) }
    requires placed { ArePlaced (view root.now) (by_place (elements_view schemas.now) (elements_view items.now)) }
    ensures { result ≡ every (told (verdict (view root.now)) (by_place (elements_view schemas.now) (elements_view items.now))) }
{
    for (schema, item) in schemas.iter().zip(items) {
        if !accepts_at(root, schema, Instance::Value(item)) {
            return false;
        }
    }
    true
}

// Whether each member that this value of `properties` names passes the schema of its name.
#[cycle(judge)]
fn properties_accepted(root: &Tree, value: &Tree, members: &NameMap<Tree>) -> bool
    requires plain { IsPlain (view root.now) }
    requires placed { ArePlaced (view root.now) (each_named (view value.now) (members_view members.now.entries)) }
    ensures { result ≡ every (told (verdict (view root.now)) (each_named (view value.now) (members_view members.now.entries))) }
{
    match value {
        Tree::Object(schemas) => named_accepted(root, schemas, members),
        _ => true,
    }
}

// Whether the schema accepts each member's name.
#[cycle(judge)]
fn names_accepted(root: &Tree, schema: &Tree, members: &NameMap<Tree>) -> bool
    requires plain { IsPlain (view root.now) }
    requires placed { ArePlaced (view root.now) (of_names (view schema.now) (members_view members.now.entries)) }
    ensures { result ≡ every (told (verdict (view root.now)) (of_names (view schema.now) (members_view members.now.entries))) }
{
    for (name, _) in members.iter() {
        if !accepts_at(root, schema, Instance::Name(name.as_str())) {
            return false;
        }
    }
    true
}

// Whether each member that is named passes the schema of its name.
#[cycle(judge)]
fn named_accepted(root: &Tree, schemas: &NameMap<Tree>, members: &NameMap<Tree>) -> bool
    requires plain { IsPlain (view root.now) }
    requires placed { ArePlaced (view root.now) (by_name (members_view schemas.now.entries) (members_view members.now.entries)) }
    ensures { result ≡ every (told (verdict (view root.now)) (by_name (members_view schemas.now.entries) (members_view members.now.entries))) }
{
    for (name, member) in members.iter() {
        if !found_accepts(
            root,
            member_named(schemas, name.as_str()),
            Instance::Value(member),
        ) {
            return false;
        }
    }
    true
}

// Whether the schema accepts each member that `properties` beside it doesn't name, with no `patternProperties` beside.
#[cycle(judge)]
fn others_accepted(
    root: &Tree,
    siblings: &NameMap<Tree>,
    schema: &Tree,
    members: &NameMap<Tree>,
) -> bool
    requires plain { IsPlain (view root.now) }
    requires placed { ArePlaced (view root.now) (of_others (members_in (beside (codes "properties") (members_view siblings.now.entries))) [] (view schema.now) (members_view members.now.entries)) }
    ensures { result ≡ every (told (verdict (view root.now))
        (of_others (members_in (beside (codes "properties") (members_view siblings.now.entries))) [] (view schema.now) (members_view members.now.entries))) }
{
    for (name, member) in members.iter() {
        if !is_named(siblings, name.as_str())
            && !accepts_at(root, schema, Instance::Value(member))
        {
            return false;
        }
    }
    true
}

// Whether each schema accepts whose name is that of a member.
#[cycle(judge)]
fn present_accept(root: &Tree, schemas: &NameMap<Tree>, instance: Instance<'_>) -> bool
    requires plain { IsPlain (view root.now) }
    requires placed { ArePlaced (view root.now) (by_each (members_view schemas.now.entries) (seen instance)) }
    ensures { let ss = members_view schemas.now.entries in
        result ≡ where_present (names_list ss) (seen instance.entry) (told (verdict (view root.now)) (by_each ss (seen instance.entry))) }
{
    for (name, schema) in schemas.iter() {
        if has_member(instance, name.as_str()) && !accepts_at(root, schema, instance) {
            return false;
        }
    }
    true
}

// Whether the schema, if there is one, accepts.
#[cycle(judge)]
fn found_accepts(root: &Tree, found: Option<&Tree>, instance: Instance<'_>) -> bool
    requires plain { IsPlain (view root.now) }
    requires placed { ArePlaced (view root.now) (at_target (option_map (λ t. view t.now) found) (seen instance)) }
    ensures { result ≡ every (told (verdict (view root.now)) (at_target (option_map (λ t. view t.now) found.entry) (seen instance.entry))) }
{
    match found {
        Some(schema) => accepts_at(root, schema, instance),
        None => true,
    }
}

// Whether the schema accepts the instance, or the condition's answer isn't `holds`; also true without a condition.
#[cycle(judge)]
fn accepts_where(
    root: &Tree,
    condition: Option<&Tree>,
    holds: bool,
    schema: &Tree,
    instance: Instance<'_>,
) -> bool
    requires plain { IsPlain (view root.now) }
    requires placed { ArePlaced (view root.now) (after_if (option_map (λ t. view t.now) condition) (view schema.now) (seen instance)) }
    ensures { let o = option_map (λ t. view t.now) condition.entry in
        let answers = told (verdict (view root.now)) (after_if o (view schema.now) (seen instance.entry)) in
        result ≡ with_if o (if holds then where_true answers else where_false answers) }
{
    match condition {
        Some(condition) => {
            accepts_at(root, condition, instance) != holds || accepts_at(root, schema, instance)
        }
        None => true,
    }
}
