//! Steps of a location that a document lends.
ghost use Rattle.std.specs.Prelude.{◌≡◌};
ghost use Rattle.doc_tree.specs.Place.{place_of};
ghost use Rattle.path_grammar.specs.Lent.{lent_place};

use doc_tree::Step;
use path_grammar::LentStep;

/// The step, lent.
pub(crate) fn lent(step: &Step) -> LentStep<'_>
    ensures { lent_place result ≡ place_of step.now }
{
    match step {
        Step::Name(name) => LentStep::Name(name),
        Step::Index(index) => LentStep::Index(*index),
    }
}
