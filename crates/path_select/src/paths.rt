//! The paths of nodes, kept as one trail: a place is known by its number in a trail of steps, each from a place known
//! before.
ghost use Rattle.std.specs.Prelude.{◌≡◌, ◌++◌, ◌∷◌, ◌≤◌, ◌+◌, [], IfOk, length};
ghost use Rattle.path_select.specs.Nodes.{child_at};
ghost use Rattle.path_select.specs.Paths.{GoesOn, Returns, all_spots, location, stand};
ghost use Rattle.path_select.specs.ChildView.{child_of};
ghost use Rattle.path_grammar.specs.Lent.{lent_places};

use crate::children::Child;
use doc_tree::Tree;
use path_grammar::LentStep;
use std::alloc::{AllocError, Global};

/// A step to a place from a place above it. The root has the number 0, what the n-th mark leads to has n.
#[derive(Clone, Copy, Drop)]
pub struct Mark<'t> {
    /// The number of the place above.
    pub above: usize,
    /// The step from there.
    pub step: LentStep<'t>,
}

/// A node of a list: the number of its place, and its value.
#[derive(Clone, Copy, Drop)]
pub struct Spot<'t> {
    pub place: usize,
    pub value: &'t Tree,
}

/// The places that are known, and the nodes that are listed already.
#[derive(Drop)]
pub struct Walk<'t> {
    pub trail: Vec<Mark<'t>>,
    pub listed: Vec<Spot<'t>>,
}

/// The walk, and the child of the value at a place.
pub fn with_child<'t>(
    walk: Walk<'t>,
    above: usize,
    child: Child<'t>,
) -> Result<Walk<'t>, AllocError>
    requires stand { stand (length walk.trail.items) walk.listed.items }
    ensures on { IfOk result (λ new. GoesOn walk.entry new) }
    ensures spots { IfOk result (λ new. all_spots new.trail.items new.listed.items
        ≡ all_spots walk.entry.trail.items walk.entry.listed.items ++ child_at (location walk.entry.trail.items above) (child_of child.entry) ∷ []) }
{
    let Walk { trail, listed } = walk;
    let mut trail = trail;
    let mut listed = listed;
    trail.push(Mark {
        above,
        step: child.step,
    })?;
    listed.push(Spot {
        place: trail.len(),
        value: child.value,
    })?;
    Ok(Walk { trail, listed })
}

/// The walk without the places after the first `known` ones, if nothing was listed since there were `count` nodes.
pub fn back<'t>(walk: Walk<'t>, known: usize, count: usize) -> Walk<'t>
    ensures { Returns known count walk.entry result }
{
    let Walk { trail, listed } = walk;
    let mut trail = trail;
    if listed.len() == count {
        trail.truncate(known);
    }
    Walk { trail, listed }
}

/// The steps that lead to the place, with room for `more` steps after them.
pub fn path_to<'t>(
    alloc: Global,
    trail: &[Mark<'t>],
    place: usize,
    more: usize,
) -> Result<Vec<LentStep<'t>>, AllocError>
    ensures { IfOk result (λ steps. lent_places steps.items ≡ location trail.now place) }
{
    if place == 0 {
        return Vec::with_capacity(alloc, more);
    }
    match trail.get(place - 1) {
        Some(mark) => {
            let before = &trail[..place - 1];
            let mut steps = path_to(alloc, before, mark.above, more.saturating_add(1))?;
            steps.push(mark.step)?;
            Ok(steps)
        }
        None => Ok(Vec::new(alloc)),
    }
}
