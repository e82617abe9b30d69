//! The anchors of the schemas in a schema.
ghost use Rattle.std.specs.Prelude.{◌≡◌, ◌++◌, ◌∷◌, [], IfOk, map};
ghost use Rattle.std.specs.Option.{option_to_list};
ghost use Rattle.doc_tree.specs.TreeView.{view, elements_view, members_view};
ghost use Rattle.schema_rules.specs.Anchors.{anchor_of, anchors_of};
ghost use Rattle.schema_rules.specs.Schemas.{schemas, schemas_below, schemas_each, schemas_in, schemas_named};

use doc_tree::Tree;
use name_map::NameMap;
use schema_rules::{Shape, anchor_of, keyword_named, shape_of};
use std::alloc::{AllocError, Global};

/// The anchors of all schemas in the whole one, in their order.
pub(crate) fn anchors_of<'s>(root: &'s Tree, alloc: Global) -> Result<Vec<&'s str>, AllocError>
    ensures { IfOk result (λ v. map (λ s. s.now) v.items ≡ anchors_of (schemas (view root.now))) }
{
    anchors_in(root, Shape::One, Vec::new(alloc))
}

// Adds those in a value of that shape.
#[cycle(anchors)]
#[tactic(auto, using(crate::proofs::Gathering::nothing_added))]
fn anchors_in<'s>(
    value: &'s Tree,
    shape: Shape,
    found: Vec<&'s str>,
) -> Result<Vec<&'s str>, AllocError>
    ensures { IfOk result (λ v. map (λ s. s.now) v.items ≡ map (λ s. s.now) found.entry.items ++ anchors_of (schemas_in shape (view value.now))) }
{
    match shape {
        Shape::One => match value {
            Tree::Object(members) => {
                let found = with_anchor(value, found)?;
                anchors_below(members, found)
            }
            _ => Ok(found),
        },
        Shape::Several => match value {
            Tree::List(schemas) => anchors_each(schemas, found),
            _ => Ok(found),
        },
        Shape::Named => match value {
            Tree::Object(schemas) => anchors_named(schemas, found),
            _ => Ok(found),
        },
        Shape::Plain => Ok(found),
    }
}

#[cycle(anchors)]
fn anchors_each<'s>(
    schemas: &'s Vec<Tree>,
    before: Vec<&'s str>,
) -> Result<Vec<&'s str>, AllocError>
    ensures { IfOk result (λ v. map (λ s. s.now) v.items ≡ map (λ s. s.now) before.entry.items ++ anchors_of (schemas_each (elements_view schemas.now.items))) }
{
    let mut found = before;
    for schema in schemas {
        found = anchors_in(schema, Shape::One, found)?;
    }
    Ok(found)
}

#[cycle(anchors)]
fn anchors_named<'s>(
    schemas: &'s NameMap<Tree>,
    before: Vec<&'s str>,
) -> Result<Vec<&'s str>, AllocError>
    ensures { IfOk result (λ v. map (λ s. s.now) v.items ≡ map (λ s. s.now) before.entry.items ++ anchors_of (schemas_named (members_view schemas.now.entries))) }
{
    let mut found = before;
    for (_, schema) in schemas.iter() {
        found = anchors_in(schema, Shape::One, found)?;
    }
    Ok(found)
}

// Adds those of the schemas below a schema object with these members.
#[cycle(anchors)]
fn anchors_below<'s>(
    members: &'s NameMap<Tree>,
    before: Vec<&'s str>,
) -> Result<Vec<&'s str>, AllocError>
    ensures { IfOk result (λ v. map (λ s. s.now) v.items ≡ map (λ s. s.now) before.entry.items ++ anchors_of (schemas_below (members_view members.now.entries))) }
{
    let mut found = before;
    for (name, value) in members.iter() {
        let shape = shape_of(keyword_named(name.as_str()));
        found = anchors_in(value, shape, found)?;
    }
    Ok(found)
}

// Adds that of the schema itself, if it has one.
fn with_anchor<'s>(schema: &'s Tree, found: Vec<&'s str>) -> Result<Vec<&'s str>, AllocError>
    ensures { IfOk result (λ v. map (λ s. s.now) v.items ≡ map (λ s. s.now) found.entry.items ++ option_to_list (anchor_of (view schema.now))) }
{
    match anchor_of(schema) {
        Some(anchor) => with_text(anchor, found),
        None => Ok(found),
    }
}

fn with_text<'s>(text: &'s str, before: Vec<&'s str>) -> Result<Vec<&'s str>, AllocError>
    ensures { IfOk result (λ v. map (λ s. s.now) v.items ≡ map (λ s. s.now) before.entry.items ++ text.now ∷ []) }
{
    let mut found = before;
    found.push(text)?;
    Ok(found)
}
