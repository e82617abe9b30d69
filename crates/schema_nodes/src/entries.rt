//! The schemas in a schema by numbers, those in a value before the one that holds it.
ghost use Rattle.std.specs.Prelude.{◌≡◌, IfOk, ◌++◌, [], ◌∷◌, length};
ghost use Rattle.doc_tree.specs.TreeView.{view, elements_view, members_view};
ghost use Rattle.doc_tree.specs.Lists.{elements_list, values_list};
ghost use Rattle.schema_rules.specs.Parts.{members_in};
ghost use Rattle.schema_rules.specs.Schemas.{schemas, schemas_in, schemas_each, schemas_named, schemas_below, held_in};
ghost use Rattle.schema_rules.specs.declared.keyword.Shape.TheVariants as shapes;
ghost use Rattle.schema_nodes.specs.Entries.{Adds, AddsAll, Makes};

use doc_tree::Tree;
use name_map::NameMap;
use schema_rules::{Shape, keyword_named, shape_of};
use std::alloc::{AllocError, Global};

/// A schema, and for each of its members the numbers of the schemas that it holds.
#[derive(Drop)]
pub struct Entry<'t> {
    /// The schema.
    pub schema: &'t Tree,
    /// The numbers, member by member.
    pub rows: Vec<Vec<usize>>,
}

/// Entries, and the numbers of some of them.
#[derive(Drop)]
pub struct Grown<'t> {
    /// All that have a number.
    pub entries: Vec<Entry<'t>>,
    /// The numbers.
    pub row: Vec<usize>,
}

/// Entries, and the rows of a schema object's members.
#[derive(Drop)]
pub struct Rows<'t> {
    /// All that have a number.
    pub entries: Vec<Entry<'t>>,
    /// The rows.
    pub rows: Vec<Vec<usize>>,
}

/// Adds a schema with all below it, and its number to the row.
#[cycle(entries)]
pub(crate) fn with_schema<'t>(
    schema: &'t Tree,
    root: &Tree,
    alloc: Global,
    before: Grown<'t>,
) -> Result<Grown<'t>, AllocError>
    ensures adds { IfOk result (λ g. Adds (view root.now) before.entry g (schemas_in shapes.One (view schema.now)) (held_in shapes.One (view schema.now))) }
    ensures many { IfOk result (λ g. AddsAll before.entry.entries.items g.entries.items (schemas_in shapes.One (view schema.now))) }
{
    let made = with_rows(schema, root, alloc, before.entries)?;
    with_entry(schema, made, before.row)
}

// The rows of a schema's members; none if it is no object.
#[cycle(entries)]
fn with_rows<'t>(
    schema: &'t Tree,
    root: &Tree,
    alloc: Global,
    before: Vec<Entry<'t>>,
) -> Result<Rows<'t>, AllocError>
    ensures makes { IfOk result (λ g. Makes (view root.now) before.entry.items (schemas_in shapes.One (view schema.now)) (members_in (view schema.now)) g) }
    ensures many { IfOk result (λ g. AddsAll before.entry.items g.entries.items (schemas_below (members_in (view schema.now)))) }
{
    match schema {
        Tree::Object(members) => with_members(members, root, alloc, before),
        _ => Ok(Rows {
            entries: before,
            rows: Vec::new(alloc),
        }),
    }
}

#[cycle(entries)]
fn with_members<'t>(
    members: &'t NameMap<Tree>,
    root: &Tree,
    alloc: Global,
    before: Vec<Entry<'t>>,
) -> Result<Rows<'t>, AllocError>
    ensures makes { IfOk result (λ g. Makes (view root.now) before.entry.items (schemas_below (members_view members.now.entries)) (members_view members.now.entries) g) }
    ensures many { IfOk result (λ g. AddsAll before.entry.items g.entries.items (schemas_below (members_view members.now.entries))) }
{
    let mut entries = before;
    let mut rows = Vec::new(alloc);
    for (name, value) in members.iter() {
        let empty = Grown {
            entries,
            row: Vec::new(alloc),
        };
        let grown = with_held(
            value,
            root,
            alloc,
            shape_of(keyword_named(name.as_str())),
            empty,
        )?;
        entries = grown.entries;
        rows.push(grown.row)?;
    }
    Ok(Rows { entries, rows })
}

// Adds the schemas that a value of that shape holds.
#[cycle(entries)]
fn with_held<'t>(
    value: &'t Tree,
    root: &Tree,
    alloc: Global,
    shape: Shape,
    before: Grown<'t>,
) -> Result<Grown<'t>, AllocError>
    ensures adds { IfOk result (λ g. Adds (view root.now) before.entry g (schemas_in shape (view value.now)) (held_in shape (view value.now))) }
    ensures many { IfOk result (λ g. AddsAll before.entry.entries.items g.entries.items (schemas_in shape (view value.now))) }
{
    match shape {
        Shape::One => with_schema(value, root, alloc, before),
        Shape::Several => match value {
            Tree::List(schemas) => with_each(schemas, root, alloc, before),
            _ => Ok(before),
        },
        Shape::Named => match value {
            Tree::Object(schemas) => with_named(schemas, root, alloc, before),
            _ => Ok(before),
        },
        Shape::Plain => Ok(before),
    }
}

#[cycle(entries)]
fn with_each<'t>(
    list: &'t Vec<Tree>,
    root: &Tree,
    alloc: Global,
    before: Grown<'t>,
) -> Result<Grown<'t>, AllocError>
    ensures adds { IfOk result (λ g. Adds (view root.now) before.entry g (schemas_each (elements_view list.now.items)) (elements_list (elements_view list.now.items))) }
    ensures many { IfOk result (λ g. AddsAll before.entry.entries.items g.entries.items (schemas_each (elements_view list.now.items))) }
{
    let mut grown = before;
    for schema in list {
        grown = with_schema(schema, root, alloc, grown)?;
    }
    Ok(grown)
}

#[cycle(entries)]
fn with_named<'t>(
    named: &'t NameMap<Tree>,
    root: &Tree,
    alloc: Global,
    before: Grown<'t>,
) -> Result<Grown<'t>, AllocError>
    ensures adds { IfOk result (λ g. Adds (view root.now) before.entry g (schemas_named (members_view named.now.entries)) (values_list (members_view named.now.entries))) }
    ensures many { IfOk result (λ g. AddsAll before.entry.entries.items g.entries.items (schemas_named (members_view named.now.entries))) }
{
    let mut grown = before;
    for (_, schema) in named.iter() {
        grown = with_schema(schema, root, alloc, grown)?;
    }
    Ok(grown)
}

// Adds the schema itself, once its rows are made.
fn with_entry<'t>(
    schema: &'t Tree,
    made: Rows<'t>,
    row: Vec<usize>,
) -> Result<Grown<'t>, AllocError>
    ensures { IfOk result (λ g. (g.entries.items ≡ made.entry.entries.items ++ record { schema = schema.entry; rows = made.entry.rows } ∷ [])
        × (g.row.items ≡ row.items ++ (length made.entry.entries.items) ∷ [])) }
{
    let mut entries = made.entries;
    let mut row = row;
    row.push(entries.len())?;
    entries.push(Entry {
        schema,
        rows: made.rows,
    })?;
    Ok(Grown { entries, row })
}
