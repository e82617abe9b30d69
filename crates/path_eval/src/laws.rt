//! Laws of the definitions. Each function does nothing: its contract is the law.
ghost use Rattle.std.specs.Prelude.{◌≡◌, ◌≤◌, ◌^◌, ◌∷◌, [], false, length, List, map, Some};
ghost use Rattle.std.specs.List.{AllByRecursion};
ghost use Rattle.doc_tree.specs.Doc.{at, Doc, Place};
ghost use Rattle.doc_tree.specs.Places.{places};
ghost use Rattle.doc_tree.specs.Sound.{IsSound};
ghost use Rattle.doc_tree.specs.Text.{text_of};
ghost use Rattle.path_grammar.specs.Answers.{SpellsOnly};
ghost use Rattle.path_grammar.specs.Syntax.{Segments};
ghost use Rattle.path_parse.specs.NormalPath.{normal_path};
ghost use Rattle.path_parse.specs.QueryOf.{query_of};
ghost use Rattle.path_eval.specs.Answer.{nodelist_of};
ghost use Rattle.path_select.specs.Nodes.{descendants, only_node};
ghost use Rattle.path_plans.specs.TooMany.{too_many};

use path_parse::normal_laws::{locations_have_exact_indexes, spells_its_query_only};

/// The value of each node that a query selects is the value at the node's location. Every document that a `Tree`
/// represents is sound.
pub fn nodes_stand_at_their_locations()
    ensures { (d : Doc) (q : Segments) → IsSound d → AllByRecursion (λ n. at n.0 d ≡ Some n.1) (nodelist_of d q) }
{}

/// The nodes that a descendant segment visits from the root are the places of the document, in preorder.
pub fn descendants_are_the_places()
    ensures { (d : Doc) → map (λ n. n.0) (descendants d) ≡ places d }
{}

/// The query of a location's names and indexes selects the node at that location and no other, in every document, and
/// is not refused there.
pub fn location_is_its_only_node()
    ensures alone { (document found : Doc) (steps : List Place) → at steps document ≡ Some found
        → nodelist_of document (query_of steps) ≡ (steps, found) ∷ [] }
    ensures within { (document found : Doc) (steps : List Place) → at steps document ≡ Some found
        → too_many document (query_of steps) (only_node document) ≡ false }
{}

/// A normalized path identifies its node: in a document in memory whose compact text has at most 2^53 bytes, the
/// normalized path of each location spells one query and no other, whose nodelist is the node at that location alone.
pub fn normalized_path_identifies_its_node()
    ensures { (document found : Doc) (steps : List Place) → IsSound document
        → length (text_of document) ≤ 2 ^ 53 → at steps document ≡ Some found
        → SpellsOnly (query_of steps) (normal_path steps)
        × (nodelist_of document (query_of steps) ≡ (steps, found) ∷ []) }
{
    spells_its_query_only();
    locations_have_exact_indexes();
    location_is_its_only_node()
}
