//! Trees that may look like the one that is made next, so that objects share the names of their members.
ghost use Rattle.std.specs.Prelude.{◌≡◌, IfOk, IfSome, string_bytes};

use crate::tree::Tree;
use name_map::{Name, NameMap};
use std::alloc::{AllocError, Global};

/// The member of an object that may look like the one to be made next.
#[derive(Drop)]
pub(crate) struct Twin<'t> {
    /// Its name, if that is the same.
    pub name: Option<&'t Name>,
    /// Its value.
    pub value: Option<&'t Tree>,
}

/// How many children it has.
pub(crate) fn len_of(like: Option<&Tree>) -> usize {
    match like {
        Some(Tree::List(likes)) => likes.len(),
        Some(Tree::Object(likes)) => likes.len(),
        _ => 0,
    }
}

/// For the element after these: the one before it, or else the first of the list that the list looks like.
pub(crate) fn item<'t>(items: &'t Vec<Tree>, like: Option<&'t Tree>) -> Option<&'t Tree> {
    match items.last() {
        Some(item) => Some(item),
        None => match like {
            Some(Tree::List(likes)) => likes.first(),
            _ => None,
        },
    }
}

/// For the member of that name after these: the one of the same name in the object that the object looks like, or else
/// the one before it.
pub(crate) fn member<'t>(members: &'t NameMap<Tree>, name: &str, like: Option<&'t Tree>) -> Twin<'t>
    ensures { IfSome result.name (λ same. string_bytes same.now ≡ name.now) }
{
    if let Some(Tree::Object(likes)) = like {
        if let Some((name, value)) = likes.entry_near(members.len(), name) {
            return Twin {
                name: Some(name),
                value: Some(value),
            };
        }
    }
    Twin {
        name: None,
        value: members.last_value(),
    }
}

/// A name of that text: the twin's, or else a new one.
pub(crate) fn name_of(alloc: Global, text: &str, twin: Option<&Name>) -> Result<Name, AllocError>
    requires { IfSome twin (λ same. string_bytes same.now ≡ text.now) }
    ensures { IfOk result (λ name. string_bytes name ≡ text.now) }
{
    match twin {
        Some(same) => same.share(),
        None => Name::copy_of(alloc, text),
    }
}

/// The name again, which shares its text with the twin's, or else with the name.
pub(crate) fn share(name: &Name, twin: Option<&Name>) -> Result<Name, AllocError>
    requires { IfSome twin (λ same. string_bytes same.now ≡ string_bytes name.now) }
    ensures { IfOk result (λ again. string_bytes again ≡ string_bytes name.now) }
{
    match twin {
        Some(same) => same.share(),
        None => name.share(),
    }
}
