//! The steps that tokens lead along.
ghost use Rattle.std.specs.Prelude.{◌≡◌, ◌++◌, IfOk, map, option_map};
ghost use Rattle.doc_tree.specs.Place.{place_of};
ghost use Rattle.doc_tree.specs.TreeView.{view};
ghost use Rattle.doc_edits.specs.Change.{tokens_of};
ghost use Rattle.patched_places.specs.Along.{end_places, place_named, places_along};

use crate::ends::{End, end_step};
use doc_edits::index_within;
use doc_tree::{Step, Tree};
use schema_changes::child;
use std::alloc::{AllocError, Global};

/// The steps, and then those that the tokens lead along in the document, as far as they lead, and the one to the child
/// at their end, if one is given.
pub(crate) fn with_steps(
    steps: Vec<Step>,
    tokens: &[String],
    end: Option<End>,
    document: &Tree,
    alloc: Global,
) -> Result<Vec<Step>, AllocError>
    ensures { IfOk result (λ v. map place_of v.items ≡ map place_of steps.items ++ places_along (end_places end.entry) (tokens_of tokens.now) (view document.now)) }
{
    match tokens.split_first() {
        None => with_end(steps, end, document, alloc),
        Some((token, rest)) => match step_named(token.as_str(), document, alloc)? {
            None => Ok(steps),
            Some(step) => match child(document, &step) {
                None => Ok(steps),
                Some(below) => {
                    let mut steps = steps;
                    steps.push(step)?;
                    with_steps(steps, rest, end, below, alloc)
                }
            },
        },
    }
}

// The steps, and then the one to the child, if one is given.
fn with_end(
    steps: Vec<Step>,
    end: Option<End>,
    document: &Tree,
    alloc: Global,
) -> Result<Vec<Step>, AllocError>
    ensures { IfOk result (λ v. map place_of v.items ≡ map place_of steps.items ++ end_places end.entry (view document.now)) }
{
    match end {
        None => Ok(steps),
        Some(end) => match end_step(end, document, alloc)? {
            None => Ok(steps),
            Some(step) => {
                let mut steps = steps;
                steps.push(step)?;
                Ok(steps)
            }
        },
    }
}

// The step that the token names.
fn step_named(token: &str, document: &Tree, alloc: Global) -> Result<Option<Step>, AllocError>
    ensures { IfOk result (λ step. option_map place_of step ≡ place_named token.now (view document.now)) }
{
    match document {
        Tree::Object(_) => Ok(Some(Step::Name(String::from_str(alloc, token)?))),
        Tree::List(items) => match index_within(token, items.len() as u64) {
            Some(index) => Ok(Some(Step::Index(index as u64))),
            None => Ok(None),
        },
        _ => Ok(None),
    }
}
