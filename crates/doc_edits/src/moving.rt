//! A value that is moved, with what takes that back.

ghost use Rattle.std.specs.Prelude.{◌≡◌, Ok, Some, IfErr, IfOk, MatchResult, OnErr, option_map};
ghost use Rattle.std.specs.Option.{ForSome};
ghost use Rattle.doc_edits.specs.Change.{tokens_of};
ghost use Rattle.doc_edits.specs.Edit as edit;
ghost use Rattle.doc_edits.specs.Keeping.{LeadsBack, TakesBack};
ghost use Rattle.doc_edits.specs.Operation as pure;
ghost use Rattle.doc_edits.specs.Operation.{change, replaced};
ghost use Rattle.doc_edits.specs.OperationFault.{IsMissing, IsOperationFaultOf};
ghost use Rattle.doc_edits.specs.SizeChange.{Grew, IsKnown, IsPlaced};
ghost use Rattle.doc_tree.specs.Sound.{IsSound};
ghost use Rattle.doc_tree.specs.TreeView.{view};

use crate::back::{Back, put_in};
use crate::fault::{MISSING, NO_MEMORY, OperationFault, Unmade};
use crate::keeping::{origin_of, path_of_addition};
use crate::kept::Kept;
use crate::place;
use crate::place::{Placed, Taken};
use crate::size_change::{
    KnownPlace, KnownSize, MovedHeight, SizeChange, extent_at, reach_of_move,
};
use doc_pointer::Pointer;
use doc_tree::Tree;
use std::alloc::Global;

/// Moves the value at `from` to `path`, if that is another place (RFC 6902, section 4.4). What it adds to the text it took
/// from it, but for the bytes beside, and what is known of the value goes with it. After a refusal the value is back.
pub fn move_value<'a>(
    alloc: Global,
    tree: &mut Tree,
    from: &'a Pointer,
    path: &'a Pointer,
    most: u64,
    known: Option<KnownPlace<'a>>,
) -> Result<Kept<'a>, OperationFault>
    requires { ForSome known (λ k. IsKnown k (view tree.old)) }
    ensures made { let made = change (pure.move from.now path.now) (view tree.old) in
        MatchResult result (λ _. made ≡ Ok (view tree.new)) (IsOperationFaultOf made) }
    ensures grown { IfOk result (λ kept. Grew most kept.growth (view tree.old) (view tree.new)) }
    ensures known { IfOk result (λ kept. ForSome kept.known (λ k. IsKnown k (view tree.new))) }
    ensures back { IsSound (view tree.old) → IfOk result (λ kept. TakesBack kept.back (view tree.old) (view tree.new)) }
    ensures unchanged { OnErr result (IsSound (view tree.old) → view tree.new ≡ view tree.old) }
    ensures sound { IsSound (view tree.old) → IfOk result (λ _. IsSound (view tree.new)) }
{
    let Some(_) = from.resolve(tree) else {
        return Err(MISSING);
    };
    let (from, path) = (from.tokens(), path.tokens());
    if from == path {
        return Ok(Kept {
            growth: SizeChange::loss(0),
            known,
            back: None,
        });
    }
    let extent = extent_at(known, from);
    let Some(origin) = origin_of(alloc, tree, from)? else {
        return Err(MISSING);
    };
    let Taken { value, beside } = place::remove(alloc, tree, from)?;
    let MovedHeight { reach, height } = reach_of_move(
        &value,
        extent.height,
        from.len() as u64,
        path.len() as u64,
        most,
    );
    match put_moved(alloc, tree, path, value) {
        Ok(Moved { placed, path: kept }) => {
            let growth = SizeChange {
                reach,
                gained: placed.beside,
                lost: placed.lost.saturating_add(beside),
            };
            let extent = KnownSize {
                height,
                len: extent.len,
            };
            Ok(Kept {
                growth,
                known: Some(KnownPlace { path, extent }),
                back: Some(Back::MoveBack {
                    path: kept,
                    old: placed.old,
                    origin,
                }),
            })
        }
        Err(Unmade { fault, value }) => {
            if let Some(value) = value {
                put_in(alloc, tree, origin, value);
            }
            Err(fault)
        }
    }
}

/// A value that was moved.
#[derive(Drop)]
pub struct Moved {
    /// What came and went at its new place.
    pub placed: Placed,
    /// The place at which the move is taken back.
    pub path: Vec<String>,
}

// Adds the moved value.
fn put_moved(alloc: Global, tree: &mut Tree, path: &[String], value: Tree) -> Result<Moved, Unmade>
    ensures made { let made = edit.add (tokens_of path.now) (view value) (view tree.old) in
        MatchResult result (λ _. made ≡ Some (view tree.new)) (λ e. IsMissing made e.fault) }
    ensures placed { IfOk result (λ m. IsPlaced m.placed (view value) (view tree.old) (view tree.new)) }
    ensures path { IfOk result (λ m. LeadsBack (tokens_of m.path.items) (tokens_of path.now) (view tree.old)) }
    ensures old { IfOk result (λ m. option_map view m.placed.old ≡ replaced (tokens_of path.now) (view tree.old)) }
    ensures unchanged { OnErr result (view tree.new ≡ view tree.old) }
    ensures returned { IfErr result (λ e. option_map view e.value ≡ Some (view value)) }
    ensures sound { IsSound (view value) → IsSound (view tree.old) → IfOk result (λ _. IsSound (view tree.new)) }
{
    match path_of_addition(alloc, tree, path) {
        Ok(kept) => Ok(Moved {
            placed: place::insert(alloc, tree, path, value)?,
            path: kept,
        }),
        Err(_) => Err(Unmade::of(NO_MEMORY, value)),
    }
}
