//! The patterns in a schema: their texts, and whether they are too large.

ghost use Rattle.std.specs.Prelude.{◌≡◌, ◌<◌, ◌++◌, ◌⊎◌, IfErr, IfOk, MatchOption, false, length, map, nat_lt, true};
ghost use Rattle.std.specs.List.{list_any};
ghost use Rattle.doc_tree.specs.Lists.{names_list};
ghost use Rattle.doc_tree.specs.TreeView.{view, elements_view, members_view};
ghost use Rattle.refusals.specs.declared.numbers.TheConstants.{MEMORY, SCHEMA_FORM};
ghost use Rattle.schema_pattern.specs.Tables.{are_patterns, pattern_sources};
ghost use Rattle.schema_rules.specs.Parts.{members_in};
ghost use Rattle.schema_rules.specs.PatternTexts.{offered_texts, texts_by, texts_in, texts_of};
ghost use Rattle.schema_rules.specs.declared.keyword.Keyword.TheVariants as keywords;
ghost use Rattle.schema_rules.specs.Schemas.{offered_below, offered_each, offered_in, offered_named};
ghost use Rattle.doc_schema.specs.Faults.{are_too_large};

use crate::fault::SchemaFault;
use crate::limits::{MOST_PATTERN_BYTES, MOST_PATTERNS, PATTERN_ROOM};
use doc_tree::Tree;
use name_map::NameMap;
use refusals::numbers::{MEMORY, SCHEMA_FORM};
use schema_pattern::{Pattern, PatternFault, read_patterns};
use schema_rules::{Keyword, Profile, Shape, keyword_named, shape_of};
use std::alloc::{AllocError, Global};

/// The texts of all patterns in the schema that the profile offers.
pub(crate) fn texts_of_patterns<'s>(
    profile: Profile,
    root: &'s Tree,
    alloc: Global,
) -> Result<Vec<&'s str>, AllocError>
    ensures { IfOk result (λ v. map (λ s. s.now) v.items ≡ offered_texts profile (view root.now)) }
{
    texts_in(root, Shape::One, profile, Vec::new(alloc))
}

/// Whether there are too many, or one is too long.
pub(crate) fn are_too_large(texts: &[&str]) -> bool
    ensures { result ≡ are_too_large (map (λ s. s.now) texts.now) }
{
    texts.len() > MOST_PATTERNS || some_is_long(texts)
}

fn some_is_long(texts: &[&str]) -> bool
    ensures { result ≡ list_any (λ p. nat_lt 4_096 (length p)) (map (λ s. s.now) texts.now) }
{
    for text in texts {
        if text.len() > MOST_PATTERN_BYTES {
            return true;
        }
    }
    false
}

/// The patterns that the texts are; none if each is a pattern, and they take too much room.
pub(crate) fn patterns_of(
    texts: &[&str],
    alloc: Global,
) -> Result<Option<Vec<Pattern>>, SchemaFault>
    ensures found { IfOk result (λ found. MatchOption found (0 < length texts.now) (λ ps. pattern_sources ps.items ≡ map (λ s. s.now) texts.now)) }
    ensures ok { IfOk result (λ _. are_patterns (map (λ s. s.now) texts.now) ≡ true) }
    ensures err { IfErr result (λ e. ((e.number ≡ SCHEMA_FORM) × (are_patterns (map (λ s. s.now) texts.now) ≡ false)) ⊎ (e.number ≡ MEMORY)) }
{
    match read_patterns(alloc, texts, PATTERN_ROOM) {
        Ok(patterns) => Ok(Some(patterns)),
        Err(PatternFault::Large) => Ok(None),
        Err(PatternFault::Form) => Err(SchemaFault {
            number: SCHEMA_FORM,
        }),
        Err(PatternFault::Memory) => Err(SchemaFault { number: MEMORY }),
    }
}

// Adds those in a value of that shape.
#[cycle(patterns)]
#[tactic(auto, using(crate::proofs::Collecting::nothing_added))]
fn texts_in<'s>(
    value: &'s Tree,
    shape: Shape,
    profile: Profile,
    found: Vec<&'s str>,
) -> Result<Vec<&'s str>, AllocError>
    ensures { IfOk result (λ v. map (λ s. s.now) v.items ≡ map (λ s. s.now) found.entry.items ++ texts_in profile (offered_in profile shape (view value.now))) }
{
    match shape {
        Shape::One => match value {
            Tree::Object(members) => {
                let found = texts_by(members, profile, found)?;
                texts_below(members, profile, found)
            }
            _ => Ok(found),
        },
        Shape::Several => match value {
            Tree::List(schemas) => texts_each(schemas, profile, found),
            _ => Ok(found),
        },
        Shape::Named => match value {
            Tree::Object(schemas) => texts_named(schemas, profile, found),
            _ => Ok(found),
        },
        Shape::Plain => Ok(found),
    }
}

#[cycle(patterns)]
fn texts_each<'s>(
    schemas: &'s Vec<Tree>,
    profile: Profile,
    before: Vec<&'s str>,
) -> Result<Vec<&'s str>, AllocError>
    ensures { IfOk result (λ v. map (λ s. s.now) v.items ≡ map (λ s. s.now) before.entry.items ++ texts_in profile (offered_each profile (elements_view schemas.now.items))) }
{
    let mut found = before;
    for schema in schemas {
        found = texts_in(schema, Shape::One, profile, found)?;
    }
    Ok(found)
}

#[cycle(patterns)]
fn texts_named<'s>(
    schemas: &'s NameMap<Tree>,
    profile: Profile,
    before: Vec<&'s str>,
) -> Result<Vec<&'s str>, AllocError>
    ensures { IfOk result (λ v. map (λ s. s.now) v.items ≡ map (λ s. s.now) before.entry.items ++ texts_in profile (offered_named profile (members_view schemas.now.entries))) }
{
    let mut found = before;
    for (_, schema) in schemas.iter() {
        found = texts_in(schema, Shape::One, profile, found)?;
    }
    Ok(found)
}

// Adds those in the schemas below a schema object with these members.
#[cycle(patterns)]
fn texts_below<'s>(
    members: &'s NameMap<Tree>,
    profile: Profile,
    before: Vec<&'s str>,
) -> Result<Vec<&'s str>, AllocError>
    ensures { IfOk result (λ v. map (λ s. s.now) v.items ≡ map (λ s. s.now) before.entry.items ++ texts_in profile (offered_below profile (members_view members.now.entries))) }
{
    let mut found = before;
    for (name, value) in members.iter() {
        let keyword = profile.offered(keyword_named(name.as_str()));
        found = texts_in(value, shape_of(keyword), profile, found)?;
    }
    Ok(found)
}

// Adds those in the members of a schema object.
fn texts_by<'s>(
    members: &'s NameMap<Tree>,
    profile: Profile,
    before: Vec<&'s str>,
) -> Result<Vec<&'s str>, AllocError>
    ensures { IfOk result (λ v. map (λ s. s.now) v.items ≡ map (λ s. s.now) before.entry.items ++ texts_by profile (members_view members.now.entries)) }
{
    let mut found = before;
    for (name, value) in members.iter() {
        let keyword = profile.offered(keyword_named(name.as_str()));
        found = with_texts(keyword, value, found)?;
    }
    Ok(found)
}

// Adds those in a keyword's value.
fn with_texts<'s>(
    keyword: Keyword,
    value: &'s Tree,
    found: Vec<&'s str>,
) -> Result<Vec<&'s str>, AllocError>
    ensures { IfOk result (λ v. map (λ s. s.now) v.items ≡ map (λ s. s.now) found.entry.items ++ texts_of keyword (view value.now)) }
{
    match keyword {
        Keyword::Pattern => with_text(value, found),
        Keyword::PatternProperties => with_names(value, found),
        _ => Ok(found),
    }
}

fn with_text<'s>(value: &'s Tree, before: Vec<&'s str>) -> Result<Vec<&'s str>, AllocError>
    ensures { IfOk result (λ v. map (λ s. s.now) v.items ≡ map (λ s. s.now) before.entry.items ++ texts_of keywords.Pattern (view value.now)) }
{
    let mut found = before;
    if let Tree::Text(text) = value {
        found.push(text.as_str())?;
    }
    Ok(found)
}

#[tactic(auto, using(crate::proofs::Collecting::nothing_added))]
fn with_names<'s>(value: &'s Tree, found: Vec<&'s str>) -> Result<Vec<&'s str>, AllocError>
    ensures { IfOk result (λ v. map (λ s. s.now) v.items ≡ map (λ s. s.now) found.entry.items ++ names_list (members_in (view value.now))) }
{
    match value {
        Tree::Object(members) => with_each_name(members, found),
        _ => Ok(found),
    }
}

fn with_each_name<'s>(
    members: &'s NameMap<Tree>,
    before: Vec<&'s str>,
) -> Result<Vec<&'s str>, AllocError>
    ensures { IfOk result (λ v. map (λ s. s.now) v.items ≡ map (λ s. s.now) before.entry.items ++ names_list (members_view members.now.entries)) }
{
    let mut found = before;
    for (name, _) in members.iter() {
        found.push(name.as_str())?;
    }
    Ok(found)
}
