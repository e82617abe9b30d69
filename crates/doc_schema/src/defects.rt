//! The defects that a schema in a schema may have by itself.

ghost use Rattle.std.specs.Prelude.{◌≡◌, IfOk, false};
ghost use Rattle.std.specs.List.{list_any};
ghost use Rattle.doc_tree.specs.TreeView.{view, elements_view, members_view};
ghost use Rattle.doc_schema.specs.Defects.{has_defect, is_defective, is_wrong, some_member};
ghost use Rattle.doc_schema.specs.Positions.{offered_positions};
ghost use Rattle.schema_rules.specs.Schemas.{offered_in, offered_each, offered_named, offered_below};

use doc_tree::Tree;
use name_map::NameMap;
use schema_references::{Whole, is_dangling};
use schema_rules::{Keyword, Profile, Shape, has_form, is_left_out, keyword_named, shape_of};
use std::alloc::{AllocError, Global};

/// A defect of a position.
#[derive(Clone, Copy, Drop, PartialEq, Eq)]
pub enum Defect {
    /// It is no boolean and no object, or a member's value has not its keyword's form.
    Form,
    /// A member is left out.
    LeftOut,
    /// A reference names no schema.
    Reference,
    /// A reference that profile 2 hasn't. It is no fault, but no judgement without memory can follow it.
    ByPointer,
}

/// Whether some position that the profile offers has the defect. An error means that memory ran out; it is taken only for
/// references.
pub(crate) fn some_position_has(
    profile: Profile,
    defect: Defect,
    root: &Whole<'_>,
    alloc: Global,
) -> Result<bool, AllocError>
    ensures { IfOk result (λ b. b ≡ list_any (has_defect profile defect (view root.now)) (offered_positions profile (view root.now))) }
{
    defective_whole(root.tree(), profile, defect, root, alloc)
}

// The same of a schema at the root, with references that are followed in `root`.
fn defective_whole(
    schema: &Tree,
    profile: Profile,
    defect: Defect,
    root: &Whole<'_>,
    alloc: Global,
) -> Result<bool, AllocError>
    ensures { IfOk result (λ b. b ≡ list_any (has_defect profile defect (view root.now)) (offered_positions profile (view schema.now))) }
{
    match schema {
        Tree::Object(members) => {
            if some_member_is_wrong(profile, defect, root, true, members, alloc)? {
                return Ok(true);
            }
            defective_below(members, profile, defect, root, alloc)
        }
        _ => is_defective(profile, defect, root, true, schema, alloc),
    }
}

// Whether a schema, at the root or below it, has the defect, whatever those below it have.
fn is_defective(
    profile: Profile,
    defect: Defect,
    root: &Whole<'_>,
    at_root: bool,
    schema: &Tree,
    alloc: Global,
) -> Result<bool, AllocError>
    ensures { IfOk result (λ b. b ≡ is_defective profile defect (view root.now) at_root (view schema.now)) }
{
    match schema {
        Tree::Bool(_) => Ok(false),
        Tree::Object(members) => some_member_is_wrong(
            profile, defect, root, at_root, members, alloc,
        ),
        _ => Ok(defect == Defect::Form),
    }
}

fn some_member_is_wrong(
    profile: Profile,
    defect: Defect,
    root: &Whole<'_>,
    at_root: bool,
    members: &NameMap<Tree>,
    alloc: Global,
) -> Result<bool, AllocError>
    ensures { IfOk result (λ b. b ≡ some_member profile (is_wrong profile defect (view root.now) at_root) (members_view members.now.entries)) }
{
    for (name, value) in members.iter() {
        let keyword = profile.offered(keyword_named(name.as_str()));
        if is_wrong(profile, defect, root, at_root, keyword, value, alloc)? {
            return Ok(true);
        }
    }
    Ok(false)
}

fn is_wrong(
    profile: Profile,
    defect: Defect,
    root: &Whole<'_>,
    at_root: bool,
    keyword: Keyword,
    value: &Tree,
    alloc: Global,
) -> Result<bool, AllocError>
    ensures { IfOk result (λ b. b ≡ is_wrong profile defect (view root.now) at_root keyword (view value.now)) }
{
    match defect {
        Defect::Form => Ok(!has_form(at_root, keyword, value)),
        Defect::LeftOut => Ok(is_left_out(at_root, keyword, value)),
        Defect::Reference => is_dangling(profile, root, keyword, value, alloc),
        Defect::ByPointer => is_dangling(Profile::Two, root, keyword, value, alloc),
    }
}

// Whether some schema in a value of that shape has the defect.
#[cycle(defects)]
#[tactic(auto, using(crate::proofs::Anywhere::any_append))]
fn defective_in(
    value: &Tree,
    shape: Shape,
    profile: Profile,
    defect: Defect,
    root: &Whole<'_>,
    alloc: Global,
) -> Result<bool, AllocError>
    ensures { IfOk result (λ b. b ≡ list_any (is_defective profile defect (view root.now) false) (offered_in profile shape (view value.now))) }
{
    match shape {
        Shape::One => match value {
            Tree::Object(members) => {
                if is_defective(profile, defect, root, false, value, alloc)? {
                    return Ok(true);
                }
                defective_below(members, profile, defect, root, alloc)
            }
            _ => is_defective(profile, defect, root, false, value, alloc),
        },
        Shape::Several => match value {
            Tree::List(schemas) => defective_each(schemas, profile, defect, root, alloc),
            _ => Ok(false),
        },
        Shape::Named => match value {
            Tree::Object(schemas) => defective_named(schemas, profile, defect, root, alloc),
            _ => Ok(false),
        },
        Shape::Plain => Ok(false),
    }
}

#[cycle(defects)]
#[tactic(auto, using(crate::proofs::Anywhere::any_append))]
fn defective_each(
    schemas: &Vec<Tree>,
    profile: Profile,
    defect: Defect,
    root: &Whole<'_>,
    alloc: Global,
) -> Result<bool, AllocError>
    ensures { IfOk result (λ b. b ≡ list_any (is_defective profile defect (view root.now) false) (offered_each profile (elements_view schemas.now.items))) }
{
    for schema in schemas {
        if defective_in(schema, Shape::One, profile, defect, root, alloc)? {
            return Ok(true);
        }
    }
    Ok(false)
}

#[cycle(defects)]
#[tactic(auto, using(crate::proofs::Anywhere::any_append))]
fn defective_named(
    schemas: &NameMap<Tree>,
    profile: Profile,
    defect: Defect,
    root: &Whole<'_>,
    alloc: Global,
) -> Result<bool, AllocError>
    ensures { IfOk result (λ b. b ≡ list_any (is_defective profile defect (view root.now) false) (offered_named profile (members_view schemas.now.entries))) }
{
    for (_, schema) in schemas.iter() {
        if defective_in(schema, Shape::One, profile, defect, root, alloc)? {
            return Ok(true);
        }
    }
    Ok(false)
}

// Whether some schema below a schema object with these members has the defect.
#[cycle(defects)]
#[tactic(auto, using(crate::proofs::Anywhere::any_append))]
fn defective_below(
    members: &NameMap<Tree>,
    profile: Profile,
    defect: Defect,
    root: &Whole<'_>,
    alloc: Global,
) -> Result<bool, AllocError>
    ensures { IfOk result (λ b. b ≡ list_any (is_defective profile defect (view root.now) false) (offered_below profile (members_view members.now.entries))) }
{
    for (name, value) in members.iter() {
        let keyword = profile.offered(keyword_named(name.as_str()));
        if defective_in(value, shape_of(keyword), profile, defect, root, alloc)? {
            return Ok(true);
        }
    }
    Ok(false)
}
