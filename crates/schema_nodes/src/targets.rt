//! The numbers of the schemas that references name.
ghost use Rattle.std.specs.Prelude.{◌≡◌, ◌∷◌, [], IfOk, codes, decimal, map, option_map, option_to_list, string_bytes};
ghost use Rattle.std.specs.Option.{option_and_then};
ghost use Rattle.doc_tree.specs.Doc.{text};
ghost use Rattle.doc_tree.specs.TreeView.{view};
ghost use Rattle.schema_levels.specs.Below.{number_named};
ghost use Rattle.schema_rules.specs.EarlierReferences.{without_front};
ghost use Rattle.schema_rules.specs.Pointers.{held_at, shape_at};
ghost use Rattle.schema_rules.specs.References.{spelled_by};
ghost use Rattle.schema_rules.specs.declared.keyword.Shape.TheVariants as shapes;
ghost use Rattle.schema_nodes.specs.Fits.{number_by, target_number};
ghost use Rattle.schema_nodes.specs.Reaching.{held_from, held_named, names_at, number_at, number_to, row_at};

use crate::held::Held;
use doc_pointer::array_index;
use doc_tree::Tree;
use schema_references::{held_at, shape_at, spelled_by, tokens_to};
use schema_rules::{Shape, earlier_target};
use std::alloc::{AllocError, Global};
use std::collections::BTreeMap;
use std::slice;

/// What is known of the schemas that references name, and the patterns, each at its number.
#[derive(Drop)]
pub struct Targets<'s> {
    /// What their members hold, each at the number of its schema.
    pub held: &'s [Vec<Held<'s>>],
    /// The number of the whole schema.
    pub whole: usize,
    /// Those of its definitions.
    pub named: BTreeMap<String, usize>,
    /// Those of the schemas that have anchors.
    pub anchors: BTreeMap<String, usize>,
    /// The texts of the patterns, in the order of their numbers.
    pub patterns: &'s [&'s str],
}

/// The number of the schema that a reference names, if it names one. An error means that memory ran out; none is taken
/// for a definition by its plain name.
pub(crate) fn target_number(
    targets: &Targets<'_>,
    root: &Tree,
    value: &Tree,
    alloc: Global,
) -> Result<Option<usize>, AllocError>
    ensures { IfOk result (λ o. o ≡ target_number targets.now (view root.now) (view value.now)) }
{
    if earlier_target(root, value).is_some() {
        return Ok(number_by(targets, value));
    }
    match tokens_to(root, value, alloc)? {
        Some(pointer) => Ok(number_to(targets, root, pointer.tokens())),
        None => number_by_anchor(targets, root, value, alloc),
    }
}

// The number of the schema whose anchor the fragment spells.
fn number_by_anchor(
    targets: &Targets<'_>,
    root: &Tree,
    value: &Tree,
    alloc: Global,
) -> Result<Option<usize>, AllocError>
    ensures { IfOk result (λ o. o ≡ option_and_then (λ s. number_named s targets.now.anchors.entries) (spelled_by (view root.now) (view value.now))) }
{
    match spelled_by(root, value, alloc)? {
        Some(name) => Ok(number_named(&targets.anchors, name.as_str())),
        None => Ok(None),
    }
}

fn number_by(targets: &Targets<'_>, value: &Tree) -> Option<usize>
    ensures { result ≡ number_by targets.now (view value.now) }
{
    match value {
        Tree::Text(text) => number_of_text(targets, text.as_str()),
        _ => None,
    }
}

fn number_of_text(targets: &Targets<'_>, name: &str) -> Option<usize>
    ensures { result ≡ number_by targets.now (text name.now) }
{
    if name == "#" {
        return Some(targets.whole);
    }
    number_named(&targets.named, definition_name(name)?)
}

fn definition_name(name: &str) -> Option<&str>
    ensures { option_map (λ s. s.now) result ≡ without_front (codes "#/$defs/") name.now }
{
    name.strip_prefix("#/$defs/")
}

fn number_named(named: &BTreeMap<String, usize>, name: &str) -> Option<usize>
    ensures { result ≡ number_named name.now named.now.entries }
{
    match named.get(name) {
        Some(number) => Some(*number),
        None => None,
    }
}

// ---- Along a pointer.

// The number of the schema at the end of the tokens.
fn number_to(targets: &Targets<'_>, root: &Tree, tokens: &[String]) -> Option<usize>
    ensures { result ≡ number_to targets.now.held.now shapes.One (map string_bytes tokens.now) (view root.now) (targets.now.whole ∷ []) targets.now.named.entries }
{
    let mut value = root;
    let mut shape = Shape::One;
    let mut row = slice::from_ref(&targets.whole);
    let mut names = &targets.named;
    for token in tokens {
        let held = held_at(shape, token, value)?;
        let below = names_at(targets.held, shape, token, row, names);
        row = row_at(targets.held, shape, token, row, names);
        names = below;
        shape = shape_at(shape, token);
        value = held;
    }
    match shape {
        Shape::One => Some(*row.first()?),
        _ => None,
    }
}

// The numbers of the schemas that the value holds to which a token leads.
fn row_at<'e>(
    all: &'e [Vec<Held<'_>>],
    shape: Shape,
    token: &str,
    row: &'e [usize],
    names: &'e BTreeMap<String, usize>,
) -> &'e [usize]
    ensures { result.now ≡ row_at all.now shape token.now row.now names.now.entries }
{
    match shape {
        Shape::One => match held_from(all, token, row) {
            Some(held) => held.row,
            None => &[],
        },
        Shape::Several => number_at(token, row),
        Shape::Named => number_beside(token, names),
        Shape::Plain => &[],
    }
}

// The same by their names, if they have names.
fn names_at<'e>(
    all: &'e [Vec<Held<'_>>],
    shape: Shape,
    token: &str,
    row: &[usize],
    names: &'e BTreeMap<String, usize>,
) -> &'e BTreeMap<String, usize>
    ensures { result.now.entries ≡ names_at all.now shape token.now row.now names.now.entries }
{
    match shape {
        Shape::One => match held_from(all, token, row) {
            Some(held) => &held.named,
            None => names,
        },
        _ => names,
    }
}

// What the member of that name holds, in the schema of the first number.
fn held_from<'e, 's>(all: &'e [Vec<Held<'s>>], name: &str, row: &[usize]) -> Option<&'e Held<'s>>
    ensures { option_map (λ h. h.now) result ≡ held_from all.now name.now row.now }
{
    held_named(name, all.get(*row.first()?)?)
}

fn held_named<'e, 's>(name: &str, members: &'e [Held<'s>]) -> Option<&'e Held<'s>>
    ensures { option_map (λ h. h.now) result ≡ held_named name.now members.now }
{
    for held in members {
        if held.name == name {
            return Some(held);
        }
    }
    None
}

fn number_at<'e>(token: &str, row: &'e [usize]) -> &'e [usize]
    ensures { result.now ≡ option_to_list (number_at 0 token.now row.now) }
{
    let Some(index) = array_index(token) else {
        return &[];
    };
    match row.get(index as usize) {
        Some(number) => slice::from_ref(number),
        None => &[],
    }
}

fn number_beside<'e>(name: &str, names: &'e BTreeMap<String, usize>) -> &'e [usize]
    ensures { result.now ≡ option_to_list (number_named name.now names.now.entries) }
{
    match names.get(name) {
        Some(number) => slice::from_ref(number),
        None => &[],
    }
}
