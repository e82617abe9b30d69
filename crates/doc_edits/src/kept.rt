//! An operation with what takes it back: the values that went, and room at their places.

ghost use Rattle.std.specs.Prelude.{◌≡◌, Ok, Some, IfOk, MatchResult, OnErr, false, option_map};
ghost use Rattle.std.specs.Option.{ForSome};
ghost use Rattle.doc_edits.specs.Back.{step_of};
ghost use Rattle.doc_edits.specs.Edit as edit;
ghost use Rattle.doc_edits.specs.Keeping.{Restores, TakesBack, step_with};
ghost use Rattle.doc_edits.specs.Meaning.{meaning};
ghost use Rattle.doc_edits.specs.Operation.{change, gone, moves, replaced};
ghost use Rattle.doc_edits.specs.OperationFault.{IsOperationFaultOf};
ghost use Rattle.doc_edits.specs.SizeChange.{Grew, IsKnown};
ghost use Rattle.doc_pointer.specs.Place.{resolve};
ghost use Rattle.doc_tree.specs.Doc.{Doc};
ghost use Rattle.doc_tree.specs.Sound.{IsSound};
ghost use Rattle.doc_tree.specs.TreeView.{view};

use crate::back::{Back, Origin};
use crate::fault::OperationFault;
use crate::keeping::{copy_path, origin_of, path_of_addition};
use crate::moving::move_value;
use crate::operation::{Operation, perform};
use crate::size_change::{KnownPlace, SizeChange};
use doc_pointer::Pointer;
use doc_tree::Tree;
use std::alloc::{AllocError, Global};

/// What came and went with an operation, and what takes it back.
#[derive(Drop)]
pub struct Kept<'a> {
    /// What came and went.
    pub growth: SizeChange,
    /// The place, and what is known of the value there.
    pub known: Option<KnownPlace<'a>>,
    /// What takes it back; `None` if it changed nothing.
    pub back: Option<Back>,
}

/// What is made ready before an operation, to keep what goes with it.
#[derive(Drop)]
pub enum Ready {
    /// Nothing goes.
    Nothing,
    /// A value comes at this place, and one that is there goes.
    Place(Vec<String>),
    /// A value goes from there.
    Origin(Origin),
}

impl Ready {
    /// What takes the operation back, with the value that went.
    pub fn with(self, gone: Option<Tree>) -> Option<Back>
        ensures { option_map step_of result ≡ step_with self (option_map view gone) }
    {
        match self {
            Ready::Nothing => None,
            Ready::Place(path) => Some(Back::Exchange { path, old: gone }),
            Ready::Origin(origin) => match gone {
                Some(value) => Some(Back::PutIn { origin, value }),
                None => None,
            },
        }
    }
}

/// The operation as `perform` makes it, with what takes it back. After a refusal the document is as it was.
pub fn perform_kept<'a>(
    alloc: Global,
    tree: &mut Tree,
    operation: &'a Operation,
    most: u64,
    known: Option<KnownPlace<'a>>,
) -> Result<Kept<'a>, OperationFault>
    requires { ForSome known (λ k. IsKnown k (view tree.old)) }
    ensures made { let made = change (meaning operation.now) (view tree.old) in
        MatchResult result (λ _. made ≡ Ok (view tree.new)) (IsOperationFaultOf made) }
    ensures grown { IfOk result (λ kept. Grew most kept.growth (view tree.old) (view tree.new)) }
    ensures known { IfOk result (λ kept. ForSome kept.known (λ k. IsKnown k (view tree.new))) }
    ensures back { IsSound (view tree.old) → IfOk result (λ kept. TakesBack kept.back (view tree.old) (view tree.new)) }
    ensures unchanged { OnErr result (IsSound (view tree.old) → view tree.new ≡ view tree.old) }
    ensures sound { IsSound (view tree.old) → IfOk result (λ _. IsSound (view tree.new)) }
{
    match operation {
        Operation::Move { from, path } => move_value(alloc, tree, from, path, most, known),
        _ => perform_ready(alloc, tree, operation, most, known),
    }
}

// An operation that is no move.
fn perform_ready<'a>(
    alloc: Global,
    tree: &mut Tree,
    operation: &'a Operation,
    most: u64,
    known: Option<KnownPlace<'a>>,
) -> Result<Kept<'a>, OperationFault>
    requires known { ForSome known (λ k. IsKnown k (view tree.old)) }
    requires stays { moves (meaning operation.now) ≡ false }
    ensures made { let made = change (meaning operation.now) (view tree.old) in
        MatchResult result (λ _. made ≡ Ok (view tree.new)) (IsOperationFaultOf made) }
    ensures grown { IfOk result (λ kept. Grew most kept.growth (view tree.old) (view tree.new)) }
    ensures known { IfOk result (λ kept. ForSome kept.known (λ k. IsKnown k (view tree.new))) }
    ensures back { IsSound (view tree.old) → IfOk result (λ kept. TakesBack kept.back (view tree.old) (view tree.new)) }
    ensures unchanged { OnErr result (view tree.new ≡ view tree.old) }
    ensures sound { IsSound (view tree.old) → IfOk result (λ _. IsSound (view tree.new)) }
{
    let ready = make_ready(alloc, tree, operation)?;
    let done = perform(alloc, tree, operation, most, known)?;
    Ok(Kept {
        growth: done.growth,
        known: done.known,
        back: ready.with(done.gone),
    })
}

// What takes back an operation that is no move, but for the value that goes with it.
fn make_ready(alloc: Global, tree: &Tree, operation: &Operation) -> Result<Ready, AllocError>
    requires { moves (meaning operation.now) ≡ false }
    ensures { IfOk result (λ ready. (e : Doc) → IsSound (view tree.now) → change (meaning operation.now) (view tree.now) ≡ Ok e
        → Restores (step_with ready (gone (meaning operation.now) (view tree.now))) (view tree.now) e) }
{
    match operation {
        Operation::Add { path, .. } => ready_to_add(alloc, tree, path),
        Operation::Copy { path, .. } => ready_to_add(alloc, tree, path),
        Operation::Replace { path, .. } => Ok(Ready::Place(copy_path(alloc, path.tokens())?)),
        Operation::Remove { path } => ready_to_remove(alloc, tree, path),
        Operation::Move { .. } => Ok(Ready::Nothing),
        Operation::Test { .. } => Ok(Ready::Nothing),
    }
}

fn ready_to_add(alloc: Global, tree: &Tree, path: &Pointer) -> Result<Ready, AllocError>
    ensures { IfOk result (λ ready. (v e : Doc) → edit.add path.now v (view tree.now) ≡ Some e
        → Restores (step_with ready (replaced path.now (view tree.now))) (view tree.now) e) }
{
    Ok(Ready::Place(path_of_addition(alloc, tree, path.tokens())?))
}

fn ready_to_remove(alloc: Global, tree: &Tree, path: &Pointer) -> Result<Ready, AllocError>
    ensures { IfOk result (λ ready. (v e : Doc) → IsSound (view tree.now) → resolve path.now (view tree.now) ≡ Some v
        → edit.remove path.now (view tree.now) ≡ Some e → Restores (step_with ready (Some v)) (view tree.now) e) }
{
    match origin_of(alloc, tree, path.tokens())? {
        Some(origin) => Ok(Ready::Origin(origin)),
        None => Ok(Ready::Nothing),
    }
}
