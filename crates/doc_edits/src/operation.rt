//! One operation of a patch.

ghost use Rattle.std.specs.Prelude.{◌≡◌, ℕ, None, Ok, IfOk, MatchResult, OnErr, false, option_map};
ghost use Rattle.std.specs.Option.{ForSome};
ghost use Rattle.doc_edits.specs.SizeChange.{Grew, IsKnown, IsMeasured};
ghost use Rattle.doc_edits.specs.After.{LeavesMeasured};
ghost use Rattle.doc_edits.specs.Meaning.{meaning};
ghost use Rattle.doc_edits.specs.Operation as pure;
ghost use Rattle.doc_edits.specs.Operation.{op, change, gone, moves, replaced};
ghost use Rattle.doc_edits.specs.OperationFault.{IsOperationFaultOf};
ghost use Rattle.doc_pointer.specs.Place.{resolve};
ghost use Rattle.doc_tree.specs.Sound.{IsSound};
ghost use Rattle.doc_tree.specs.TreeView.{view};

use crate::fault::{MISSING, OperationFault};
use crate::limits::check_limits;
use crate::moving::move_value;
use crate::neighbour::neighbour_at;
use crate::place;
use crate::place::Exchanged;
use crate::size_change::{
    DocumentSize, KnownPlace, KnownSize, SizeChange, extent_at, gone_len, weigh,
};
use doc_pointer::Pointer;
use doc_tree::Tree;
use refusals::numbers::{PATCH_ROOT, PATCH_TEST};
use std::alloc::Global;

/// An operation with its pointers read (RFC 6902, section 4).
#[derive(Drop)]
pub enum Operation {
    Add { path: Pointer, value: Tree },
    Remove { path: Pointer },
    Replace { path: Pointer, value: Tree },
    Move { from: Pointer, path: Pointer },
    Copy { from: Pointer, path: Pointer },
    Test { path: Pointer, value: Tree },
}

/// A document's measure after an operation, and what is known of the value that it put at a place.
#[derive(Drop)]
pub struct After<'a> {
    /// The measure.
    pub measure: DocumentSize,
    /// The place, and what is known of the value there.
    pub known: Option<KnownPlace<'a>>,
}

/// What came and went with an operation, and what is known of the value that it put at a place.
#[derive(Drop)]
pub struct Done<'a> {
    /// What came and went.
    pub growth: SizeChange,
    /// The value that went, or was replaced, but with a move.
    pub gone: Option<Tree>,
    /// The place, and what is known of the value there.
    pub known: Option<KnownPlace<'a>>,
}

impl<'a> Done<'a> {
    // Nothing is known of the value at any place.
    fn of(exchanged: Exchanged) -> Done<'a>
        ensures { result ≡ record { growth = exchanged.growth; gone = exchanged.gone; known = None } }
    {
        Done {
            growth: exchanged.growth,
            gone: exchanged.gone,
            known: None,
        }
    }
}

impl Operation {
    /// Makes of the document what the operation says, in place, and answers its measure. `before` is the measure
    /// before, or `None` if the document may be over the limits; `known` is what the operation before left. After a
    /// refusal the document's contents are not stated.
    pub fn apply<'a>(
        &'a self,
        alloc: Global,
        tree: &mut Tree,
        before: Option<DocumentSize>,
        known: Option<KnownPlace<'a>>,
    ) -> Result<After<'a>, OperationFault>
        requires measured { ForSome before (λ m. IsMeasured m (view tree.old)) }
        requires known { ForSome known (λ k. IsKnown k (view tree.old)) }
        ensures made { LeavesMeasured (op (meaning self.now) (view tree.old)) (view tree.new) result }
        ensures sound { IsSound (view tree.old) → IfOk result (λ _. IsSound (view tree.new)) }
    {
        let most = match before {
            Some(before) => before.most,
            None => u64::MAX,
        };
        let Done { growth, known, .. } = perform(alloc, tree, self, most, known)?;
        let measure = check_limits(tree, before, growth)?;
        Ok(After { measure, known })
    }
}

/// The operation whatever the document's height and length are after it; `most` is a bound of its
/// height before.
pub fn perform<'a>(
    alloc: Global,
    tree: &mut Tree,
    operation: &'a Operation,
    most: u64,
    known: Option<KnownPlace<'a>>,
) -> Result<Done<'a>, OperationFault>
    requires { ForSome known (λ k. IsKnown k (view tree.old)) }
    ensures made { let made = change (meaning operation.now) (view tree.old) in
        MatchResult result (λ _. made ≡ Ok (view tree.new)) (IsOperationFaultOf made) }
    ensures grown { IfOk result (λ done. Grew most done.growth (view tree.old) (view tree.new)) }
    ensures known { IfOk result (λ done. ForSome done.known (λ k. IsKnown k (view tree.new))) }
    ensures gone { IfOk result (λ done. moves (meaning operation.now) ≡ false
        → option_map view done.gone ≡ gone (meaning operation.now) (view tree.old)) }
    ensures left { OnErr result (moves (meaning operation.now) ≡ false → view tree.new ≡ view tree.old) }
    ensures sound { IsSound (view tree.old) → IfOk result (λ _. IsSound (view tree.new)) }
{
    match operation {
        Operation::Add { path, value } => Ok(Done::of(add(alloc, tree, path, value)?)),
        Operation::Remove { path } => Ok(Done::of(remove(alloc, tree, path, known)?)),
        Operation::Replace { path, value } => {
            let value = value.copy_like(alloc, path.resolve(tree))?;
            Ok(Done::of(place::replace(alloc, tree, path.tokens(), value)?))
        }
        Operation::Move { from, path } => {
            let moved = move_value(alloc, tree, from, path, most, known)?;
            Ok(Done {
                growth: moved.growth,
                gone: None,
                known: moved.known,
            })
        }
        Operation::Copy { from, path } => copy_value(alloc, tree, from, path, known),
        Operation::Test { path, value } => {
            let growth = test(tree, path, value)?;
            Ok(Done {
                growth,
                gone: None,
                known,
            })
        }
    }
}

// Adds a copy of the value.
fn add(
    alloc: Global,
    tree: &mut Tree,
    path: &Pointer,
    value: &Tree,
) -> Result<Exchanged, OperationFault>
    ensures made { let made = change (pure.add path.now (view value.now)) (view tree.old) in
        MatchResult result (λ _. made ≡ Ok (view tree.new)) (IsOperationFaultOf made) }
    ensures grown { IfOk result (λ x. (most : ℕ) → Grew most x.growth (view tree.old) (view tree.new)) }
    ensures gone { IfOk result (λ x. option_map view x.gone ≡ replaced path.now (view tree.old)) }
    ensures unchanged { OnErr result (view tree.new ≡ view tree.old) }
    ensures sound { IsSound (view tree.old) → IfOk result (λ _. IsSound (view tree.new)) }
{
    let weight = weigh(value, KnownSize::unknown());
    let copy = value.copy_like(alloc, neighbour_at(tree, path.tokens()))?;
    place::add(alloc, tree, path.tokens(), copy, weight)
}

// Takes away the value at the place, which is not the root.
fn remove(
    alloc: Global,
    tree: &mut Tree,
    path: &Pointer,
    known: Option<KnownPlace>,
) -> Result<Exchanged, OperationFault>
    requires { ForSome known (λ k. IsKnown k (view tree.old)) }
    ensures made { let made = change (pure.remove path.now) (view tree.old) in
        MatchResult result (λ _. made ≡ Ok (view tree.new)) (IsOperationFaultOf made) }
    ensures grown { IfOk result (λ x. (most : ℕ) → Grew most x.growth (view tree.old) (view tree.new)) }
    ensures gone { IfOk result (λ x. option_map view x.gone ≡ resolve path.now (view tree.old)) }
    ensures unchanged { OnErr result (view tree.new ≡ view tree.old) }
    ensures sound { IsSound (view tree.old) → IfOk result (λ _. IsSound (view tree.new)) }
{
    if path.tokens().is_empty() {
        return Err(OperationFault { number: PATCH_ROOT });
    }
    let extent = extent_at(known, path.tokens());
    let taken = place::remove(alloc, tree, path.tokens())?;
    let lost = gone_len(&taken.value, extent.len).saturating_add(taken.beside);
    Ok(Exchanged {
        growth: SizeChange::loss(lost),
        gone: Some(taken.value),
    })
}

// Adds a copy of the value at `from` at `path`.
fn copy_value<'a>(
    alloc: Global,
    tree: &mut Tree,
    from: &Pointer,
    path: &'a Pointer,
    known: Option<KnownPlace<'a>>,
) -> Result<Done<'a>, OperationFault>
    requires { ForSome known (λ k. IsKnown k (view tree.old)) }
    ensures made { let made = change (pure.copy from.now path.now) (view tree.old) in
        MatchResult result (λ _. made ≡ Ok (view tree.new)) (IsOperationFaultOf made) }
    ensures grown { IfOk result (λ done. (most : ℕ) → Grew most done.growth (view tree.old) (view tree.new)) }
    ensures known { IfOk result (λ done. ForSome done.known (λ k. IsKnown k (view tree.new))) }
    ensures gone { IfOk result (λ done. option_map view done.gone ≡ replaced path.now (view tree.old)) }
    ensures unchanged { OnErr result (view tree.new ≡ view tree.old) }
    ensures sound { IsSound (view tree.old) → IfOk result (λ _. IsSound (view tree.new)) }
{
    let Some(value) = from.resolve(tree) else {
        return Err(MISSING);
    };
    let weight = weigh(value, extent_at(known, from.tokens()));
    let value = value.copy(alloc)?;
    let path = path.tokens();
    let Exchanged { growth, gone } = place::add(alloc, tree, path, value, weight)?;
    let extent = KnownSize {
        height: Some(weight.height),
        len: weight.len,
    };
    Ok(Done {
        growth,
        gone,
        known: Some(KnownPlace { path, extent }),
    })
}

// Whether the value at the place is the given one.
fn test(tree: &Tree, path: &Pointer, value: &Tree) -> Result<SizeChange, OperationFault>
    ensures made { let made = change (pure.test path.now (view value.now)) (view tree.now) in
        MatchResult result (λ _. made ≡ Ok (view tree.now)) (IsOperationFaultOf made) }
    ensures grown { IfOk result (λ g. (most : ℕ) → Grew most g (view tree.now) (view tree.now)) }
{
    let found = path.resolve(tree).ok_or(MISSING)?;
    if found.equals(value) {
        Ok(SizeChange::loss(0))
    } else {
        Err(OperationFault { number: PATCH_TEST })
    }
}
