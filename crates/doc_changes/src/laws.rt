//! Laws of the definitions. Each function does nothing: its contract is the law.
ghost use Rattle.std.specs.Prelude.{◌≡◌, ◌↔◌, ℕ, List, None, Some};
ghost use Rattle.record_text.specs.Change.{Change, create};
ghost use Rattle.record_text.specs.Frame.{IsFramed};
ghost use Rattle.doc_schema.specs.Faults.{IsFaultless, IsFirstFault};
ghost use Rattle.schema_rules.specs.declared.profile.Profile.{Profile};
ghost use Rattle.schema_rules.specs.declared.profile.Profile.TheVariants.{Three};
ghost use Rattle.doc_tree.specs.Doc.{Doc};
ghost use Rattle.doc_changes.specs.Judged.{IsSoundChange};
ghost use Rattle.doc_changes.specs.Refusals.{first, plain};
ghost use Rattle.doc_changes.specs.Schema.{schema_refusal};
ghost use Rattle.doc_changes.specs.State.{State, Document, IsStorable};
ghost use Rattle.doc_changes.specs.Within.{AreWithin};
ghost use Rattle.doc_changes.specs.Step.{IsOwn, Refuses, refusal_of, refusals_in};
ghost use Rattle.doc_changes.specs.declared.refusal.Refusal.{Refusal};

use doc_schema::laws::{first_faults_are_found, schemas_of_earlier_profiles_stay};
use record_text::laws::changes_of_small_parts_are_framed;

/// A journal can hold every accepted change whose trees are in memory.
pub fn accepted_changes_are_framed()
    ensures { (s : State) (c : Change) → refusal_of s c ≡ None → IsSoundChange c → IsFramed c }
{
    changes_of_small_parts_are_framed();
    first_faults_are_found();
}

/// A state refuses by no number of a device.
pub fn refusals_are_its_own()
    ensures { (s : State) (c : Change) (r : Refusal) → Refuses s c r → IsOwn r }
{}

/// A journal can hold the creation of every document that a store holds.
pub fn storable_documents_are_framed()
    ensures { (d : Document) → IsStorable d → IsFramed (create d.name d.schema d.doc) }
{
    changes_of_small_parts_are_framed();
}

/// In each profile a schema is refused exactly when it has a fault, and then by the number of its first.
pub fn schemas_are_refused_by_their_first_fault()
    ensures { (profile : Profile) (s : Doc) → ((schema_refusal profile s ≡ None) ↔ IsFaultless profile s)
        × ((n : ℕ) → (schema_refusal profile s ≡ Some (plain n)) ↔ IsFirstFault profile s n) }
{
    first_faults_are_found();
}

/// What a profile accepts, profile 3 accepts: each change, and the documents that a state may hold.
pub fn earlier_profiles_stay()
    ensures changes { (profile : Profile) (ds : List Document) (c : Change) → first (refusals_in profile ds c) ≡ None → first (refusals_in Three ds c) ≡ None }
    ensures documents { (profile : Profile) (ds : List Document) → AreWithin profile ds → AreWithin Three ds }
{
    first_faults_are_found();
    schemas_of_earlier_profiles_stay();
}
