//! The test whether the documents may be in another profile.
ghost use Rattle.std.specs.Prelude.{◌≡◌, IfErr, OnOk};
ghost use Rattle.doc_schema.specs.Faults.{IsFaultless};
ghost use Rattle.doc_tree.specs.TreeView.{view};
ghost use Rattle.refusals.specs.declared.numbers.TheConstants.{NEWER_SCHEMA};
ghost use Rattle.doc_changes.specs.Refusals.{plain};
ghost use Rattle.doc_changes.specs.State.{AreOffered, Good};
ghost use Rattle.doc_changes.specs.Within.{AreBeyond, AreWithin};

use crate::Refusal;
use crate::documents::Documents;
use crate::limits::most_documents;
use doc_schema::{Profile, Schema};
use refusals::numbers::{NEWER_SCHEMA, TOO_MANY};

impl<'m> Documents<'m> {
    /// Whether a store with schemas of that profile may hold the documents. Nothing changes, and it takes no memory.
    ///
    /// `TOO_MANY` if there are more than it may hold; else `NEWER_SCHEMA` if a document's schema isn't one of the profile.
    pub fn check_profile(&self, profile: Profile) -> Result<(), Refusal>
        ensures within { OnOk result (AreWithin profile self.now.documents) }
        ensures refused { IfErr result (AreBeyond profile self.now.documents) }
        ensures good { Good self.now }
    {
        if self.len() > most_documents(profile) {
            return Err(Refusal::plain(TOO_MANY));
        }
        self.check_schemas(profile)
    }

    // Whether each document's schema is one of the profile.
    fn check_schemas(&self, profile: Profile) -> Result<(), Refusal>
        ensures offered { OnOk result (AreOffered profile self.now.documents) }
        ensures refused { IfErr result (λ r. (r ≡ plain NEWER_SCHEMA) × (AreOffered profile self.now.documents → ⊥)) }
    {
        for place in 0..self.len() {
            let kept = self.stored_at(place);
            check_offered(profile, kept.1.schema.get())?;
        }
        Ok(())
    }
}

// Whether a schema is one of the profile.
fn check_offered(profile: Profile, schema: &Schema) -> Result<(), Refusal>
    ensures offered { OnOk result (IsFaultless profile (view schema.now)) }
    ensures refused { IfErr result (λ r. (r ≡ plain NEWER_SCHEMA) × (IsFaultless profile (view schema.now) → ⊥)) }
{
    if schema.is_in(profile) {
        Ok(())
    } else {
        Err(Refusal::plain(NEWER_SCHEMA))
    }
}
