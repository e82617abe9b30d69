//! Numbers by name.
ghost use Rattle.std.specs.Prelude.{◌≡◌, ℕ, IfOk, codes, length, map, slice_get};
ghost use Rattle.doc_tree.specs.Doc.{Doc};
ghost use Rattle.doc_tree.specs.Lists.{elements_list, values_list};
ghost use Rattle.doc_tree.specs.TreeView.{view, members_view};
ghost use Rattle.schema_rules.specs.Keywords.{keyword_of, shape_of};
ghost use Rattle.schema_rules.specs.Parts.{beside, members_in, elements_in};
ghost use Rattle.schema_rules.specs.declared.keyword.Shape.TheVariants as shapes;
ghost use Rattle.schema_nodes.specs.Nodes.{AreNamed, HaveRows};
ghost use Rattle.schema_nodes.specs.Fits.{row_named, single_number};

use doc_tree::Tree;
use name_map::NameMap;
use schema_rules::member_named;
use std::alloc::{AllocError, Global};
use std::collections::BTreeMap;

/// The numbers of the schemas in the member of that name, by their names.
pub(crate) fn numbers_under(
    name: &str,
    members: &NameMap<Tree>,
    rows: &[Vec<usize>],
    alloc: Global,
) -> Result<BTreeMap<String, usize>, AllocError>
    ensures { IfOk result (λ m. (schema : ℕ → Doc) → HaveRows schema (members_view members.now.entries) rows.now → shape_of (keyword_of name.now) ≡ shapes.Named
        → AreNamed schema m.entries (members_in (beside name.now (members_view members.now.entries)))) }
{
    match member_named(members, name) {
        Some(value) => numbers_in(value, row_named(name, members, rows), alloc),
        None => Ok(BTreeMap::new(alloc)),
    }
}

/// The numbers of the schemas in a value by their names; none if it is no object.
pub(crate) fn numbers_in(
    value: &Tree,
    row: &[usize],
    alloc: Global,
) -> Result<BTreeMap<String, usize>, AllocError>
    ensures { IfOk result (λ m. (schema : ℕ → Doc) → map schema row.now ≡ values_list (members_in (view value.now)) → AreNamed schema m.entries (members_in (view value.now))) }
{
    match value {
        Tree::Object(named) => numbers_named(named, row, alloc),
        _ => Ok(BTreeMap::new(alloc)),
    }
}

/// The row of the member of that name; empty without.
pub(crate) fn row_named<'r>(
    name: &str,
    members: &NameMap<Tree>,
    rows: &'r [Vec<usize>],
) -> &'r [usize]
    ensures { result.now ≡ row_named name.now (members_view members.now.entries) rows.now }
{
    for ((key, _), row) in members.iter().zip(rows) {
        if key.as_str() == name {
            return row.as_slice();
        }
    }
    &[]
}

fn numbers_named(
    named: &NameMap<Tree>,
    row: &[usize],
    alloc: Global,
) -> Result<BTreeMap<String, usize>, AllocError>
    ensures { IfOk result (λ m. (schema : ℕ → Doc) → map schema row.now ≡ values_list (members_view named.now.entries) → AreNamed schema m.entries (members_view named.now.entries)) }
{
    let mut numbers = BTreeMap::new(alloc);
    for ((key, _), number) in named.iter().zip(row) {
        let name = String::from_str(alloc, key.as_str())?;
        drop(numbers.insert(name, *number)?);
    }
    Ok(numbers)
}

/// The number of the schema that the member of that name is, if there is one.
pub(crate) fn single_number(
    name: &str,
    members: &NameMap<Tree>,
    rows: &[Vec<usize>],
) -> Option<usize>
    ensures { result ≡ single_number name.now (members_view members.now.entries) rows.now }
{
    match member_named(members, name) {
        Some(_) => first_in(row_named(name, members, rows)),
        None => None,
    }
}

fn first_in(row: &[usize]) -> Option<usize>
    ensures { result ≡ slice_get row.now 0 }
{
    match row.get(0) {
        Some(number) => Some(*number),
        None => None,
    }
}

/// How many elements `prefixItems` has.
pub(crate) fn prefix_len(members: &NameMap<Tree>) -> usize
    ensures { result ≡ length (elements_list (elements_in (beside (codes "prefixItems") (members_view members.now.entries)))) }
{
    match member_named(members, "prefixItems") {
        Some(value) => len_of(value),
        None => 0,
    }
}

fn len_of(value: &Tree) -> usize
    ensures { result ≡ length (elements_list (elements_in (view value.now))) }
{
    match value {
        Tree::List(items) => items.as_slice().len(),
        _ => 0,
    }
}
