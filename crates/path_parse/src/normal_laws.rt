//! Laws of normalized paths, of the definitions and of the contract of `Query::read`.
ghost use Rattle.std.specs.Prelude.{◌≡◌, ◌≤◌, ◌^◌, map, length, List, Some, MatchResult};
ghost use Rattle.std.specs.List.{AllByRecursion};
ghost use Rattle.doc_tree.specs.Doc.{at, Doc, Place};
ghost use Rattle.doc_tree.specs.Place.{place_of};
ghost use Rattle.doc_tree.specs.Sound.{IsSound};
ghost use Rattle.doc_tree.specs.Text.{text_of};
ghost use Rattle.path_grammar.specs.Answers.{SpellsOnly};
ghost use Rattle.path_parse.specs.NormalPath.{normal_path};
ghost use Rattle.path_parse.specs.QueryOf.{query_of, HasExactIndex, HasUtf8Name, IsFaultOfPath, IsQueryOfPath};

use crate::laws::spells_no_other_query;
use crate::text::normal_text;
use crate::{Query, QueryFault};
use doc_tree::Step;
use std::alloc::Global;

/// The normalized path of a location spells, in profile, the query that has a child segment for each step with the
/// step's name or index as its one selector, and no other query.
pub fn spells_its_query_only()
    ensures { (steps : List Place) → AllByRecursion HasUtf8Name steps → AllByRecursion HasExactIndex steps
        → SpellsOnly (query_of steps) (normal_path steps) }
{
    spells_no_other_query()
}

/// Two locations never share a normalized path.
pub fn paths_differ()
    ensures { (steps others : List Place)
        → AllByRecursion HasUtf8Name steps → AllByRecursion HasExactIndex steps
        → AllByRecursion HasUtf8Name others → AllByRecursion HasExactIndex others
        → normal_path steps ≡ normal_path others → steps ≡ others }
{
    spells_its_query_only()
}

/// Each location of a document in memory whose compact text has at most 2^53 bytes has the names and indexes that the
/// other laws ask for.
pub fn locations_have_exact_indexes()
    ensures { (document found : Doc) (steps : List Place) → IsSound document
        → length (text_of document) ≤ 2 ^ 53 → at steps document ≡ Some found
        → AllByRecursion HasUtf8Name steps × AllByRecursion HasExactIndex steps }
{}

/// The query of a location, by way of its normalized path: unless memory is refused, what `Query::read` answers for
/// the path is that query, or that the path is too long.
pub fn reads_back(alloc: Global, steps: &[Step]) -> Result<Query, QueryFault>
    requires { AllByRecursion HasExactIndex (map place_of steps.now) }
    ensures { let places = map place_of steps.now in
        MatchResult result (IsQueryOfPath places) (IsFaultOfPath places) }
{
    spells_its_query_only();
    let text = normal_text(alloc, steps)?;
    Query::read(alloc, &text)
}
