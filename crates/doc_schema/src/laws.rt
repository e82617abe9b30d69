//! Laws of the definitions: most functions do nothing, and their contract is the law. `judge_source` judges by the schema's
//! own tree, with nothing compiled.

ghost use Rattle.std.specs.Prelude.{◌≡◌, ◌↔◌, ℕ, [], Bool, IfOk, MatchOption, true, None, Some};
ghost use Rattle.doc_tree.specs.Doc.{Doc, at};
ghost use Rattle.doc_tree.specs.Sound.{IsSound};
ghost use Rattle.schema_graph.specs.Walks.{In, IsLooped};
ghost use Rattle.doc_tree.specs.TreeView.{view};
ghost use Rattle.schema_rules.specs.PatternTexts.{pattern_texts};
ghost use Rattle.schema_rules.specs.declared.profile.Profile.{Profile};
ghost use Rattle.schema_rules.specs.declared.profile.Profile.TheVariants.{Two, Three};
ghost use Rattle.doc_schema.specs.Defects.{HasDefect};
ghost use Rattle.doc_schema.specs.declared.defects.Defect.TheVariants.{ByPointer};
ghost use Rattle.doc_schema.specs.Faults.{IsFaultless, IsFirstFault, first_fault};
ghost use Rattle.doc_schema.specs.Judge.{IsSettledFor, Judges, judge};
ghost use Rattle.doc_schema.specs.Loops.{HasSchemaLoop, leads};
ghost use Rattle.doc_schema.specs.Must.{MustHold, IsJudgedByChange};
ghost use Rattle.doc_schema.specs.Nodes.{Node, judge_node, AreNodesOf};
ghost use Rattle.doc_schema.specs.Positions.{Position, positions};
ghost use Rattle.doc_schema.specs.Profile1.{IsFaultless_1, Judges_1};
ghost use Rattle.doc_schema.specs.Schemas.{IsLoopedSchema};
ghost use Rattle.doc_schema.specs.Steps.{verdict};

use crate::defects::{Defect, some_position_has};
use crate::judge::accepts_at;
use crate::schema::Schema;
use doc_tree::Tree;
use schema_references::Whole;
use schema_rules::{Instance, Profile};
use std::alloc::{AllocError, Global};

/// For a schema without a loop the judgement is decided with steps that are enough, and every larger number agrees.
pub fn enough_steps_decide()
    ensures { (schema instance : Doc) → (HasSchemaLoop schema → ⊥) → IsSettledFor schema instance }
{}

/// The schema of a position is the value at its location.
pub fn positions_stand_at_their_locations()
    ensures { (schema : Doc) (p : Position) → IsSound schema → In p (positions schema) → at p.location schema ≡ Some p.schema }
{}

/// A loop is the same fact as a walk of any length over positions that comes back to its first: the bound on the length
/// of a loop leaves none out.
pub fn loops_are_walks_that_come_back()
    ensures { (schema : Doc) → (HasSchemaLoop schema ↔ IsLooped (leads schema) (positions schema)) }
{}

/// A loop of positions is the same fact as a walk over schemas, whatever their locations, that comes back.
pub fn loops_are_walks_over_schemas()
    ensures { (schema : Doc) → (HasSchemaLoop schema ↔ IsLoopedSchema schema) }
{}

/// Nodes with numbers in place of names give the same judgement: if each says what the schema of its number says, both
/// judgements agree at every number of steps.
pub fn numbered_nodes_judge_alike()
    ensures { (root : Doc) (schema : ℕ → Doc) (node : ℕ → Node) → AreNodesOf root schema node →
        (n p : ℕ) (instance : Doc) → judge_node node n p instance ≡ judge root n (schema p) instance }
{}

/// The tests find a number exactly when it is that of the first fault, and none exactly when nothing is wrong.
pub fn first_faults_are_found()
    ensures fault { (profile : Profile) (schema : Doc) (n : ℕ) → (first_fault profile schema ≡ Some n) ↔ IsFirstFault profile schema n }
    ensures none { (profile : Profile) (schema : Doc) → (first_fault profile schema ≡ None) ↔ IsFaultless profile schema }
{}

/// A schema that profile 1 accepts is accepted by each profile, and the same instances are valid under it: no name in it
/// became a keyword.
pub fn schemas_of_profile_1_stay()
    ensures accepted { (profile : Profile) (schema : Doc) → IsFaultless_1 schema → IsFaultless profile schema }
    ensures alike { (schema : Doc) → IsFaultless_1 schema → (instance : Doc) (b : Bool) → (Judges_1 schema instance b ↔ Judges schema instance b) }
{}

/// A schema that a profile accepts is accepted by profile 3. The same instances are valid under it, since validity knows
/// of no profile.
pub fn schemas_of_earlier_profiles_stay()
    ensures { (profile : Profile) (schema : Doc) → IsFaultless profile schema → IsFaultless Three schema }
{}

/// A schema that profile 2 accepts has no patterns.
pub fn schemas_of_profile_2_have_no_patterns()
    ensures { (schema : Doc) → IsFaultless Two schema → pattern_texts schema ≡ [] }
{}

/// A schema that must hold of a part of a valid document holds of that part in every document.
pub fn what_must_hold_holds()
    ensures { (schema document : Doc) → IsFaultless Three schema → Judges schema document true →
        (s t : Doc) → MustHold schema document s t → verdict schema s t ≡ true }
{}

/// A document that came from a valid one is valid exactly when each schema that must hold of a part had to hold of the
/// same part before, or holds itself: what those of its keywords say that aren't answered by other parts alone.
pub fn changes_are_judged_where_they_reach()
    ensures { (schema old new : Doc) → IsFaultless Three schema → Judges schema old true → IsJudgedByChange schema old new }
{}

/// Whether the instance is valid under the schema, by recursion over the schema's tree: what `Schema::accepts` answers by
/// what was compiled. None if the schema has patterns, or a reference that profile 2 hasn't. Its calls nest as deep as the
/// instance's height times the longest chain of schemas, and it may judge a schema of a value more than once: for short
/// schemas, and to compare with. An error means that memory ran out.
pub fn judge_source(schema: &Schema, doc: &Tree, alloc: Global) -> Result<Option<bool>, AllocError>
    ensures { IfOk result (λ found. MatchOption found
        (pattern_texts (view schema.now) ≡ [] → (HasDefect Three ByPointer (view schema.now) → ⊥) → ⊥)
        (Judges (view schema.now) (view doc.now))) }
{
    if schema.has_patterns() {
        return Ok(None);
    }
    let source = schema.source();
    let whole = Whole::of(source, alloc)?;
    if some_position_has(Profile::Three, Defect::ByPointer, &whole, alloc)? {
        return Ok(None);
    }
    Ok(Some(accepts_at(source, source, Instance::Value(doc))))
}
