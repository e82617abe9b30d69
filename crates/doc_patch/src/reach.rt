//! The place below which a patch changes a document.

ghost use Rattle.std.specs.Prelude.{◌≡◌, Ok, true, Some, IfNone, IfSome, option_map};
ghost use Rattle.doc_edits.specs.Change.{tokens_of};
ghost use Rattle.doc_edits.specs.Edit.{Tokens};
ghost use Rattle.doc_edits.specs.Meaning.{meaning};
ghost use Rattle.doc_edits.specs.Operation.{change};
ghost use Rattle.doc_patch.specs.Meaning.{operations};
ghost use Rattle.doc_patch.specs.Within.{IsWithin, KeepsBut, Narrows, Unchanging, holder, holds_all, leads_to};
ghost use Rattle.doc_tree.specs.Doc.{Doc};

use crate::patch::Patch;
use doc_edits::Operation;

impl Patch {
    /// The tokens of a place that holds all that the operations change: the longest that they have in common. If a
    /// value comes or goes, the operation changes the object or array that holds it. `None` if no operation changes
    /// anything. Takes no memory.
    pub fn reach(&self) -> Option<&[String]>
        ensures some { IfSome result (λ place. holds_all (tokens_of place.now) (operations self.now) ≡ true) }
        ensures longest { IfSome result (λ place. (ts : Tokens) → holds_all ts (operations self.now) ≡ true → leads_to ts (tokens_of place.now) ≡ true) }
        ensures none { IfNone result (Unchanging (operations self.now)) }
    {
        let mut found = None;
        for operation in &self.operations {
            found = narrowed(found, operation);
        }
        found
    }
}

/// The tokens of the place that holds all that one operation changes. `None` if it changes nothing.
pub fn reach_of(operation: &Operation) -> Option<&[String]>
    ensures some { IfSome result (λ place. (d e : Doc) → change (meaning operation.now) d ≡ Ok e → KeepsBut (tokens_of place.now) d e) }
    ensures none { IfNone result ((d e : Doc) → change (meaning operation.now) d ≡ Ok e → d ≡ e) }
{
    narrowed(None, operation)
}

// The place, if there is one, as far as it holds what the operation reaches.
fn narrowed<'p>(found: Option<&'p [String]>, operation: &'p Operation) -> Option<&'p [String]>
    ensures { Narrows (option_map (λ p. tokens_of p.now) result) (option_map (λ p. tokens_of p.now) found.entry) (meaning operation.now) }
{
    match operation {
        Operation::Add { path, .. } => Some(within(found, holder(path.tokens()))),
        Operation::Remove { path } => Some(within(found, holder(path.tokens()))),
        Operation::Replace { path, .. } => Some(within(found, path.tokens())),
        Operation::Move { from, path } => {
            let place = within(found, holder(from.tokens()));
            Some(common(place, holder(path.tokens())))
        }
        Operation::Copy { path, .. } => Some(within(found, holder(path.tokens()))),
        Operation::Test { .. } => found,
    }
}

// The longest place that holds both.
fn within<'p>(found: Option<&'p [String]>, place: &'p [String]) -> &'p [String]
    ensures { IsWithin (tokens_of result.now) (option_map (λ p. tokens_of p.now) found.entry) (tokens_of place.now) }
{
    match found {
        Some(before) => common(before, place),
        None => place,
    }
}

// The first tokens that both have.
fn common<'p>(first: &'p [String], second: &'p [String]) -> &'p [String]
    ensures { IsWithin (tokens_of result.now) (Some (tokens_of first.now)) (tokens_of second.now) }
{
    let mut len = 0;
    while len < first.len() && len < second.len() && first[len].as_str() == second[len].as_str() {
        len += 1;
    }
    &first[..len]
}

/// All tokens but the last.
pub(crate) fn holder(place: &[String]) -> &[String]
    ensures { tokens_of result.now ≡ holder (tokens_of place.now) }
{
    &place[..place.len().saturating_sub(1)]
}
