//! The schema that a reference names.
ghost use Rattle.std.specs.Prelude.{◌≡◌, IfOk, OnErr, Some, is_none, is_some, map, option_map, string_bytes, true};
ghost use Rattle.std.specs.Option.{option_and_then};
ghost use Rattle.doc_pointer.specs.Reading.{pointer_of};
ghost use Rattle.doc_tree.specs.TreeView.{view};
ghost use Rattle.schema_rules.specs.Fragments.{spelled};
ghost use Rattle.schema_rules.specs.References.{is_dangling, reached, spelled_by, target, tokens_to};

use crate::escapes::is_pointer;
use crate::fragments::{fragment, spelled};
use crate::pointers::walk;
use crate::whole::Whole;
use doc_pointer::Pointer;
use doc_tree::Tree;
use schema_rules::{Keyword, Profile, earlier_target};
use std::alloc::{AllocError, Global};

/// The tokens that lead from the root to the schema that a reference names, if the text that its fragment spells is a
/// pointer; they may also lead to none. An error means that memory ran out, for a fragment that spells a text.
pub fn tokens_to(root: &Tree, value: &Tree, alloc: Global) -> Result<Option<Pointer>, AllocError>
    ensures found { IfOk result (λ found. found ≡ tokens_to (view root.now) (view value.now)) }
    // Whether that text is a pointer shows in memory alone.
    ensures memory { OnErr result (is_some (spelled_by (view root.now) (view value.now)) ≡ true) }
{
    match spelled_by(root, value, alloc)? {
        Some(text) => pointer_of(text.as_str(), alloc),
        None => Ok(None),
    }
}

/// The text that the fragment of a reference spells: a pointer, or an anchor. `None` if it leads out of the whole schema,
/// or is no text: that takes no memory. An error means that memory ran out for a text.
pub fn spelled_by(root: &Tree, value: &Tree, alloc: Global) -> Result<Option<String>, AllocError>
    ensures found { IfOk result (λ found. option_map string_bytes found ≡ spelled_by (view root.now) (view value.now)) }
    ensures memory { OnErr result (is_some (spelled_by (view root.now) (view value.now)) ≡ true) }
{
    match value {
        Tree::Text(reference) => spelled_of(fragment(root, reference.as_str()), alloc),
        _ => Ok(None),
    }
}

fn spelled_of(fragment: Option<&str>, alloc: Global) -> Result<Option<String>, AllocError>
    ensures found { IfOk result (λ found. option_map string_bytes found ≡ option_and_then spelled (option_map (λ s. s.now) fragment.entry)) }
    ensures memory { OnErr result (is_some (option_and_then spelled (option_map (λ s. s.now) fragment.entry)) ≡ true) }
{
    match fragment {
        Some(fragment) => spelled(fragment, alloc),
        None => Ok(None),
    }
}

// A text that is no pointer takes no memory.
fn pointer_of(text: &str, alloc: Global) -> Result<Option<Pointer>, AllocError>
    ensures found { IfOk result (λ found. found ≡ pointer_of text.now) }
    ensures memory { OnErr result (is_some (pointer_of text.now) ≡ true) }
{
    if !is_pointer(text) {
        return Ok(None);
    }
    match Pointer::read(alloc, text) {
        Ok(pointer) => Ok(Some(pointer)),
        Err(_) => Err(AllocError),
    }
}

/// Whether the member is a reference that names no schema in the profile. An error means that memory ran out; none is
/// taken in profile 2.
pub fn is_dangling(
    profile: Profile,
    root: &Whole<'_>,
    keyword: Keyword,
    value: &Tree,
    alloc: Global,
) -> Result<bool, AllocError>
    ensures { IfOk result (λ b. b ≡ is_dangling profile (view root.now) keyword (view value.now)) }
{
    match keyword {
        Keyword::Ref => match profile {
            Profile::Two => Ok(earlier_target(root.tree(), value).is_none()),
            Profile::Three => names_none(root, value, alloc),
        },
        _ => Ok(false),
    }
}

fn names_none(root: &Whole<'_>, value: &Tree, alloc: Global) -> Result<bool, AllocError>
    ensures { IfOk result (λ b. b ≡ is_none (target (view root.now) (view value.now))) }
{
    match spelled_by(root.tree(), value, alloc)? {
        Some(text) => leads_nowhere(root, text.as_str(), alloc),
        None => Ok(true),
    }
}

// Whether the text is a pointer to no schema, or an anchor that no schema has.
fn leads_nowhere(root: &Whole<'_>, text: &str, alloc: Global) -> Result<bool, AllocError>
    ensures { IfOk result (λ b. b ≡ is_none (reached (view root.now) (pointer_of text.now) (Some text.now))) }
{
    match pointer_of(text, alloc)? {
        Some(pointer) => Ok(walk(root.tree(), pointer.tokens()).is_none()),
        None => Ok(!root.has_anchor(text)),
    }
}
