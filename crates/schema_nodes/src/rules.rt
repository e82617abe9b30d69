//! The rules of a schema object's members.
ghost use Rattle.std.specs.Prelude.{◌≡◌, IfOk, Some, codes, map, option_map, string_bytes};
ghost use Rattle.doc_tree.specs.Doc.{text};
ghost use Rattle.doc_tree.specs.Lists.{names_list};
ghost use Rattle.doc_tree.specs.TreeView.{view, members_view};
ghost use Rattle.schema_rules.specs.Parts.{members_in, or_null};
ghost use Rattle.schema_rules.specs.declared.keyword.Keyword.TheVariants.{PatternProperties};
ghost use Rattle.schema_graph.specs.Orders.{at};
ghost use Rattle.schema_levels.specs.Below.{number_named};
ghost use Rattle.schema_nodes.specs.Fits.{Fits, FitAll, Follow, AreFitting, AreMatching, ArePatterns, IsNamePattern, IsOthers, or_first, AsMany, AreSorted, AreTargets, AsksNoSchema, IsCount, IsDependent, IsLimit, IsMatch, IsReference, around, first_of, known_near, number_by, number_in, pattern_number, target_number};

use crate::names::single_number;
use crate::ranks::rank_of;
use crate::targets::{Targets, target_number};
use doc_tree::Tree;
use name_map::NameMap;
use schema_levels::{NamePattern, Rule};
use schema_rules::{Assertion, Keyword, keyword_named, member_named};
use std::alloc::{AllocError, Global};

/// What a rule needs to know of the members beside its own.
#[derive(Clone, Copy)]
pub struct Near<'s> {
    /// The number of the schema of `if`.
    pub condition: Option<usize>,
    /// That of the schema of `contains`.
    pub contained: Option<usize>,
    /// The value of `minContains`.
    pub least: Option<&'s Tree>,
    /// The value of `patternProperties`.
    pub patterned: Option<&'s Tree>,
}

/// The rules of all members.
pub(crate) fn rules_of(
    members: &NameMap<Tree>,
    rows: &[Vec<usize>],
    root: &Tree,
    targets: &Targets<'_>,
    ranks: &[usize],
    alloc: Global,
) -> Result<Vec<Rule>, AllocError>
    requires as_many { AsMany (members_view members.now.entries) rows.now }
    ensures fits { let ms = members_view members.now.entries in
        IfOk result (λ rs. AreFitting targets.now ranks.now (view root.now) (around ms rows.now) ms rows.now rs.items) }
    ensures sorted { AreSorted (members_view members.now.entries) }
{
    let near = near_in(members, rows);
    let mut rules = Vec::new(alloc);
    for ((name, value), row) in members.iter().zip(rows) {
        rules = with_member(
            rules,
            &near,
            keyword_named(name.as_str()),
            value,
            row,
            root,
            targets,
            ranks,
            alloc,
        )?;
    }
    Ok(rules)
}

// With those of one member after them.
fn with_member(
    mut rules: Vec<Rule>,
    near: &Near<'_>,
    keyword: Keyword,
    value: &Tree,
    row: &[usize],
    root: &Tree,
    targets: &Targets<'_>,
    ranks: &[usize],
    alloc: Global,
) -> Result<Vec<Rule>, AllocError>
    ensures { IfOk result (λ rs. Follow rules.items (FitAll targets.now ranks.now (view root.now) (known_near near.now) keyword (view value.now) row.now) rs.items) }
{
    match keyword {
        Keyword::PatternProperties => with_patterns(rules, value, row, targets.patterns, alloc),
        _ => {
            rules.push(rule_of(near, keyword, value, row, root, targets, ranks, alloc)?)?;
            Ok(rules)
        }
    }
}

fn near_in<'s>(members: &'s NameMap<Tree>, rows: &[Vec<usize>]) -> Near<'s>
    ensures { known_near result ≡ around (members_view members.now.entries) rows.now }
{
    Near {
        condition: single_number("if", members, rows),
        contained: single_number("contains", members, rows),
        least: member_named(members, "minContains"),
        patterned: member_named(members, "patternProperties"),
    }
}

// The rule of one member, if it is no `patternProperties`.
fn rule_of(
    near: &Near<'_>,
    keyword: Keyword,
    value: &Tree,
    row: &[usize],
    root: &Tree,
    targets: &Targets<'_>,
    ranks: &[usize],
    alloc: Global,
) -> Result<Rule, AllocError>
    requires { keyword ≡ PatternProperties → ⊥ }
    ensures { IfOk result (λ r. Fits targets.now ranks.now (view root.now) (known_near near.now) keyword (view value.now) row.now r) }
{
    match keyword {
        Keyword::Properties => Ok(Rule::Properties),
        Keyword::AdditionalProperties => others(near.patterned, row, targets.patterns, alloc),
        Keyword::PropertyNames => Ok(Rule::Names(first_of(row))),
        Keyword::PrefixItems => Ok(Rule::ByPlace(copy(row, alloc)?)),
        Keyword::Items => Ok(Rule::Rest(first_of(row))),
        Keyword::AllOf => Ok(Rule::All(copy(row, alloc)?)),
        Keyword::AnyOf => Ok(Rule::Any(copy(row, alloc)?)),
        Keyword::OneOf => Ok(Rule::One(copy(row, alloc)?)),
        Keyword::Not => Ok(Rule::Not(first_of(row))),
        Keyword::Contains => counting(near.least, row, alloc),
        Keyword::MaxContains => limit(near.contained, value, alloc),
        Keyword::Then => Ok(match near.condition {
            Some(condition) => Rule::Then(condition, first_of(row)),
            None => Rule::Says(true),
        }),
        Keyword::Else => Ok(match near.condition {
            Some(condition) => Rule::Else(condition, first_of(row)),
            None => Rule::Says(true),
        }),
        Keyword::DependentSchemas => dependent(value, row, alloc),
        Keyword::Pattern => matching(pattern_number(targets.patterns, value), value, alloc),
        Keyword::Ref => {
            let number = target_number(targets, root, value, alloc)?;
            Ok(reference(number, ranks, alloc))
        },
        _ => alone(keyword, value, alloc),
    }
}

// Of a keyword that asks no schema: what it asserts, if it asserts something.
fn alone(keyword: Keyword, value: &Tree, alloc: Global) -> Result<Rule, AllocError>
    ensures { IfOk result (AsksNoSchema keyword (view value.now)) }
{
    match keyword {
        Keyword::If
        | Keyword::MinContains
        | Keyword::Defs
        | Keyword::Anchor
        | Keyword::Id
        | Keyword::Dialect
        | Keyword::LeftOut
        | Keyword::Unknown => Ok(Rule::Says(true)),
        _ => Ok(Rule::Asserts(Assertion::new(alloc, keyword, value)?)),
    }
}

// Of `contains`, with the value of `minContains` beside it.
fn counting(least: Option<&Tree>, row: &[usize], alloc: Global) -> Result<Rule, AllocError>
    ensures { IfOk result (IsCount (option_map (λ t. view t.now) least.entry) row.now) }
{
    match least {
        Some(least) => Ok(Rule::AtLeast(first_of(row), least.copy(alloc)?)),
        None => Ok(Rule::Contains(first_of(row))),
    }
}

// Of `maxContains`, with the number of the schema of `contains` beside it.
fn limit(contained: Option<usize>, value: &Tree, alloc: Global) -> Result<Rule, AllocError>
    ensures { IfOk result (IsLimit contained (view value.now)) }
{
    match contained {
        Some(number) => Ok(Rule::AtMost(number, value.copy(alloc)?)),
        None => Ok(Rule::Says(true)),
    }
}

// Of `pattern`, with the number of the pattern.
fn matching(number: Option<usize>, value: &Tree, alloc: Global) -> Result<Rule, AllocError>
    ensures { IfOk result (IsMatch number (view value.now)) }
{
    match number {
        Some(number) => Ok(Rule::Matches(number, value.copy(alloc)?)),
        None => Ok(Rule::Says(true)),
    }
}

fn pattern_number(patterns: &[&str], value: &Tree) -> Option<usize>
    ensures { result ≡ pattern_number (map (λ s. s.now) patterns.now) (view value.now) }
{
    match value {
        Tree::Text(text) => number_in(patterns, text.as_str()),
        _ => None,
    }
}

// The number of the first of these texts that is this one.
fn number_in(texts: &[&str], text: &str) -> Option<usize>
    ensures { result ≡ number_in (map (λ s. s.now) texts.now) text.now }
{
    let mut number = 0;
    while number < texts.len() {
        if texts[number] == text {
            return Some(number);
        }
        number += 1;
    }
    None
}

// ---- Patterns for the names of members.

// Of `patternProperties`: with one for each pattern after them.
fn with_patterns(
    rules: Vec<Rule>,
    value: &Tree,
    row: &[usize],
    patterns: &[&str],
    alloc: Global,
) -> Result<Vec<Rule>, AllocError>
    ensures { IfOk result (λ rs. Follow rules.items (AreMatching (map (λ s. s.now) patterns.now) (members_in (view value.now)) row.now) rs.items) }
{
    match value {
        Tree::Object(named) => with_each_pattern(rules, named, row, patterns, alloc),
        _ => Ok(rules),
    }
}

fn with_each_pattern(
    mut rules: Vec<Rule>,
    named: &NameMap<Tree>,
    row: &[usize],
    patterns: &[&str],
    alloc: Global,
) -> Result<Vec<Rule>, AllocError>
    ensures { IfOk result (λ rs. Follow rules.items (AreMatching (map (λ s. s.now) patterns.now) (members_view named.now.entries) row.now) rs.items) }
{
    for ((name, _), number) in named.iter().zip(row) {
        let pattern = name_pattern(name.as_str(), patterns, alloc)?;
        rules.push(Rule::Matching(pattern, *number))?;
    }
    Ok(rules)
}

fn name_pattern(name: &str, patterns: &[&str], alloc: Global) -> Result<NamePattern, AllocError>
    ensures { IfOk result (IsNamePattern (map (λ s. s.now) patterns.now) name.now) }
{
    let text = String::from_str(alloc, name)?;
    Ok(NamePattern {
        number: or_first(number_in(patterns, name)),
        text,
    })
}

fn or_first(number: Option<usize>) -> usize
    ensures { result ≡ or_first number }
{
    match number {
        Some(number) => number,
        None => 0,
    }
}

// Of `additionalProperties`, with the value of `patternProperties` beside it.
fn others(
    patterned: Option<&Tree>,
    row: &[usize],
    patterns: &[&str],
    alloc: Global,
) -> Result<Rule, AllocError>
    ensures { IfOk result (IsOthers (map (λ s. s.now) patterns.now) (option_map (λ t. view t.now) patterned.entry) row.now) }
{
    Ok(Rule::Others(patterns_beside(patterned, patterns, alloc)?, first_of(row)))
}

fn patterns_beside(
    patterned: Option<&Tree>,
    patterns: &[&str],
    alloc: Global,
) -> Result<Vec<NamePattern>, AllocError>
    ensures { IfOk result (λ v. ArePatterns (map (λ s. s.now) patterns.now) (names_list (members_in (or_null (option_map (λ t. view t.now) patterned.entry)))) v.items) }
{
    match patterned {
        Some(value) => patterns_named(value, patterns, alloc),
        None => Ok(Vec::new(alloc)),
    }
}

fn patterns_named(
    value: &Tree,
    patterns: &[&str],
    alloc: Global,
) -> Result<Vec<NamePattern>, AllocError>
    ensures { IfOk result (λ v. ArePatterns (map (λ s. s.now) patterns.now) (names_list (members_in (view value.now))) v.items) }
{
    match value {
        Tree::Object(members) => patterns_in(members, patterns, alloc),
        _ => Ok(Vec::new(alloc)),
    }
}

fn patterns_in(
    members: &NameMap<Tree>,
    patterns: &[&str],
    alloc: Global,
) -> Result<Vec<NamePattern>, AllocError>
    ensures { IfOk result (λ v. ArePatterns (map (λ s. s.now) patterns.now) (names_list (members_view members.now.entries)) v.items) }
{
    let mut found = Vec::with_capacity(alloc, members.len())?;
    for (name, _) in members.iter() {
        found.push(name_pattern(name.as_str(), patterns, alloc)?)?;
    }
    Ok(found)
}

// Of `dependentSchemas`: the names, and the numbers of their schemas.
fn dependent(value: &Tree, row: &[usize], alloc: Global) -> Result<Rule, AllocError>
    ensures { IfOk result (IsDependent (view value.now) row.now) }
{
    Ok(Rule::Dependent(names_of(value, alloc)?, copy(row, alloc)?))
}

fn names_of(value: &Tree, alloc: Global) -> Result<Vec<String>, AllocError>
    ensures { IfOk result (λ v. map string_bytes v.items ≡ names_list (members_in (view value.now))) }
{
    match value {
        Tree::Object(members) => names_in(members, alloc),
        _ => Ok(Vec::new(alloc)),
    }
}

fn names_in(members: &NameMap<Tree>, alloc: Global) -> Result<Vec<String>, AllocError>
    ensures { IfOk result (λ v. map string_bytes v.items ≡ names_list (members_view members.now.entries)) }
{
    let mut names = Vec::with_capacity(alloc, members.len())?;
    for (name, _) in members.iter() {
        names.push(String::from_str(alloc, name.as_str())?)?;
    }
    Ok(names)
}

// If a reference names no schema, the rule asks all of no nodes.
fn reference(number: Option<usize>, ranks: &[usize], alloc: Global) -> Rule
    ensures { IsReference (option_map (at ranks.now) number) result }
{
    match number {
        Some(number) => Rule::Refers(rank_of(ranks, number)),
        None => Rule::All(Vec::new(alloc)),
    }
}

fn first_of(row: &[usize]) -> usize
    ensures { result ≡ first_of row.now }
{
    match row.get(0) {
        Some(number) => *number,
        None => 0,
    }
}

fn copy(row: &[usize], alloc: Global) -> Result<Vec<usize>, AllocError>
    ensures { IfOk result (λ v. v.items ≡ row.now) }
{
    let mut copied = Vec::with_capacity(alloc, row.len())?;
    for number in row {
        copied.push(*number)?;
    }
    Ok(copied)
}
