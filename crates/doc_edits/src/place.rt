//! The three changes of a document at a place, and how they alter its height and the length of its
//! text.

ghost use Rattle.std.specs.Prelude.{◌≡◌, ℕ, Some, IfErr, IfOk, MatchResult, OnErr, option_map};
ghost use Rattle.doc_edits.specs.Change.{tokens_of};
ghost use Rattle.doc_edits.specs.Edit as edit;
ghost use Rattle.doc_edits.specs.Operation.{replaced};
ghost use Rattle.doc_edits.specs.SizeChange.{Grew, IsPlaced, IsWeightOf, Shrank};
ghost use Rattle.doc_edits.specs.OperationFault.{IsMissing};
ghost use Rattle.doc_pointer.specs.Place.{resolve};
ghost use Rattle.doc_tree.specs.Sound.{IsSound};
ghost use Rattle.doc_tree.specs.TreeView.{view};
ghost use Rattle.refusals.specs.declared.numbers.TheConstants.{PATCH_MISSING};

use crate::change::{Change, Made, change_at};
use crate::fault::{MISSING, OperationFault, Unmade};
use crate::limits::DOCUMENT_BYTES;
use crate::size_change::{SizeChange, ValueSize, both, gone_len, old_len};
use doc_tree::Tree;
use std::alloc::Global;
use std::mem;

/// What came and went beside a value that was put at a place.
#[derive(Drop)]
pub struct Placed {
    /// The bytes that came beside it: a member's name with its colon, and a comma. `None` if they are more than a
    /// document may have.
    pub beside: Option<u64>,
    /// The bytes of the value that was there.
    pub lost: u64,
    /// That value.
    pub old: Option<Tree>,
}

/// What came and went at a place.
#[derive(Drop)]
pub struct Exchanged {
    /// How the document grew.
    pub growth: SizeChange,
    /// The value that was at the place, if it no longer is.
    pub gone: Option<Tree>,
}

/// A value that was taken from its place.
#[derive(Drop)]
pub struct Taken {
    /// The value.
    pub value: Tree,
    /// The bytes that went beside it.
    pub beside: u64,
}

/// Adds the value, of that weight, at the place (RFC 6902, section 4.1).
///
/// `PATCH_MISSING` if the place can't be, and `MEMORY` if there was none; then the document is as it was.
pub fn add(
    alloc: Global,
    tree: &mut Tree,
    path: &[String],
    value: Tree,
    weight: ValueSize,
) -> Result<Exchanged, OperationFault>
    requires { IsWeightOf weight (view value) }
    ensures made { let made = edit.add (tokens_of path.now) (view value) (view tree.old) in
        MatchResult result (λ _. made ≡ Some (view tree.new)) (IsMissing made) }
    ensures grown { IfOk result (λ x. (most : ℕ) → Grew most x.growth (view tree.old) (view tree.new)) }
    ensures gone { IfOk result (λ x. option_map view x.gone ≡ replaced (tokens_of path.now) (view tree.old)) }
    ensures unchanged { OnErr result (view tree.new ≡ view tree.old) }
    ensures sound { IsSound (view value) → IsSound (view tree.old) → IfOk result (λ _. IsSound (view tree.new)) }
{
    let reach = weight.height.saturating_add(path.len() as u64);
    let placed = insert(alloc, tree, path, value)?;
    let growth = SizeChange {
        reach,
        gained: both(weight.len, placed.beside),
        lost: placed.lost,
    };
    Ok(Exchanged {
        growth,
        gone: placed.old,
    })
}

/// Adds the value at the place (RFC 6902, section 4.1), without a look at it. Refuses as `add` does.
pub fn insert(
    alloc: Global,
    tree: &mut Tree,
    path: &[String],
    value: Tree,
) -> Result<Placed, Unmade>
    ensures made { let made = edit.add (tokens_of path.now) (view value) (view tree.old) in
        MatchResult result (λ _. made ≡ Some (view tree.new)) (λ e. IsMissing made e.fault) }
    ensures placed { IfOk result (λ p. IsPlaced p (view value) (view tree.old) (view tree.new)) }
    ensures old { IfOk result (λ p. option_map view p.old ≡ replaced (tokens_of path.now) (view tree.old)) }
    ensures returned { IfErr result (λ e. option_map view e.value ≡ Some (view value)) }
    ensures unchanged { OnErr result (view tree.new ≡ view tree.old) }
    ensures sound { IsSound (view value) → IsSound (view tree.old) → IfOk result (λ _. IsSound (view tree.new)) }
{
    let [token, rest @ ..] = path else {
        let old = mem::replace(tree, value);
        return Ok(Placed {
            beside: Some(0),
            lost: gone_len(&old, None),
            old: Some(old),
        });
    };
    let made = change_at(alloc, tree, token.as_str(), rest, Change::Add(value))?;
    Ok(Placed {
        beside: made.beside,
        lost: old_len(&made.old),
        old: made.old,
    })
}

/// Takes the value at the place away (RFC 6902, section 4.2), without a look at it.
///
/// `PATCH_MISSING` if nothing is there, and for the root; then the document is as it was.
pub fn remove(alloc: Global, tree: &mut Tree, path: &[String]) -> Result<Taken, OperationFault>
    ensures made { let made = edit.remove (tokens_of path.now) (view tree.old) in
        MatchResult result (λ _. made ≡ Some (view tree.new)) (IsMissing made) }
    ensures taken { IfOk result (λ t.
        resolve (tokens_of path.now) (view tree.old) ≡ Some (view t.value)) }
    ensures shrunk { IfOk result (λ t. Shrank t (view tree.old) (view tree.new)) }
    ensures unchanged { OnErr result (view tree.new ≡ view tree.old) }
    ensures sure { IfErr result (λ e. e.number ≡ PATCH_MISSING) }
    ensures sound { IsSound (view tree.old) → IfOk result (λ t. IsSound (view t.value) × IsSound (view tree.new)) }
{
    let [token, rest @ ..] = path else {
        return Err(MISSING);
    };
    let Made { old, beside } = change_at(alloc, tree, token.as_str(), rest, Change::Remove)?;
    match old {
        // In a document within the limits the bytes beside a value are known.
        Some(value) => Ok(Taken {
            value,
            beside: beside.unwrap_or(0),
        }),
        // A removal that was made took something.
        None => Err(MISSING),
    }
}

/// Replaces the value at the place (RFC 6902, section 4.3), and measures the new one.
///
/// `PATCH_MISSING` if nothing is there; then the document is as it was.
pub fn replace(
    alloc: Global,
    tree: &mut Tree,
    path: &[String],
    value: Tree,
) -> Result<Exchanged, OperationFault>
    ensures made { let made = edit.replace (tokens_of path.now) (view value) (view tree.old) in
        MatchResult result (λ _. made ≡ Some (view tree.new)) (IsMissing made) }
    ensures grown { IfOk result (λ x. (most : ℕ) → Grew most x.growth (view tree.old) (view tree.new)) }
    ensures gone { IfOk result (λ x. option_map view x.gone ≡ resolve (tokens_of path.now) (view tree.old)) }
    ensures unchanged { OnErr result (view tree.new ≡ view tree.old) }
    ensures sure { IfErr result (λ e. e.number ≡ PATCH_MISSING) }
    ensures sound { IsSound (view value) → IsSound (view tree.old) → IfOk result (λ _. IsSound (view tree.new)) }
{
    let reach = value.height().saturating_add(path.len() as u64);
    let gained = value.text_len_within(DOCUMENT_BYTES);
    let [token, rest @ ..] = path else {
        let old = mem::replace(tree, value);
        let growth = SizeChange {
            reach,
            gained,
            lost: gone_len(&old, None),
        };
        return Ok(Exchanged {
            growth,
            gone: Some(old),
        });
    };
    let made = change_at(alloc, tree, token.as_str(), rest, Change::Replace(value))?;
    let growth = SizeChange {
        reach,
        gained,
        lost: old_len(&made.old),
    };
    Ok(Exchanged {
        growth,
        gone: made.old,
    })
}
