//! The schema that comes with a change: shared with a document that has an equal one, or read.
ghost use Rattle.std.specs.Prelude.{◌≡◌, ◌⊎◌, ◌<◌, Some, IfOk, IfSome, MatchResult, length, slice_get};
ghost use Rattle.doc_tree.specs.TreeView.{view};
ghost use Rattle.refusals.specs.declared.numbers.TheConstants.{MEMORY};
ghost use Rattle.doc_changes.specs.Refusals.{plain};
ghost use Rattle.doc_changes.specs.Schema.{IsAccepted, schema_refusal};
ghost use Rattle.doc_changes.specs.StateView.{named};

use crate::Refusal;
use crate::documents::Documents;
use crate::rules::read_schema;
use crate::shared::SharedSchema;
use crate::stored::Stored;
use doc_schema::laws::first_faults_are_found;
use doc_tree::Tree;
use std::alloc::AllocError;

// How many of the last documents are asked for an equal schema: a fixed number, so that many different schemas don't make
// each change slow.
const ASKED: usize = 32;

impl<'m> Documents<'m> {
    /// The schema that comes with a creation, or why it is refused.
    pub(crate) fn read_shared(&self, source: &Tree) -> Result<SharedSchema, Refusal>
        ensures { MatchResult result (λ s. (view s ≡ view source.now) × IsAccepted self.now.profile (view source.now))
            (λ r. (r ≡ plain MEMORY) ⊎ (schema_refusal self.now.profile (view source.now) ≡ Some r)) }
    {
        if let Some(shared) = self.find_equal(source)? {
            return Ok(shared);
        }
        let read = read_schema(self.alloc, self.profile, source)?;
        Ok(SharedSchema::new(self.alloc, read)?)
    }

    /// The same of the schema that comes for the document of that name, which may have an equal one already.
    pub(crate) fn read_again(&self, name: &str, source: &Tree) -> Result<SharedSchema, Refusal>
        ensures { MatchResult result (λ s. (view s ≡ view source.now) × IsAccepted self.now.profile (view source.now))
            (λ r. (r ≡ plain MEMORY) ⊎ (schema_refusal self.now.profile (view source.now) ≡ Some r)) }
    {
        if let Some(shared) = self.share_named(name, source)? {
            return Ok(shared);
        }
        self.read_shared(source)
    }

    // The schema of one of the last documents, if it is equal to this one. The last one is asked first.
    fn find_equal(&self, source: &Tree) -> Result<Option<SharedSchema>, AllocError>
        ensures { IfOk result (λ found. IfSome found (λ s. (view s ≡ view source.now) × IsAccepted self.now.profile (view source.now))) }
    {
        let len = self.len();
        for back in 0..ASKED {
            if back < len {
                if let Some(shared) = self.share_at(len - 1 - back, source)? {
                    return Ok(Some(shared));
                }
            }
        }
        Ok(None)
    }

    // The schema of the document at that place, if it is equal to this one.
    fn share_at(&self, place: usize, source: &Tree) -> Result<Option<SharedSchema>, AllocError>
        requires { place < length self.now.documents }
        ensures { IfOk result (λ found. IfSome found (λ s. (view s ≡ view source.now) × IsAccepted self.now.profile (view source.now))) }
    {
        self.know();
        first_faults_are_found();
        let kept = self.stored_at(place);
        share_if_equal(&kept.1.schema, source)
    }

    // The schema of the document of that name, if there is one and it is equal to this one.
    fn share_named(&self, name: &str, source: &Tree) -> Result<Option<SharedSchema>, AllocError>
        ensures { IfOk result (λ found. IfSome found (λ s. (view s ≡ view source.now) × IsAccepted self.now.profile (view source.now))) }
    {
        self.know();
        first_faults_are_found();
        match self.stored(name) {
            Some(stored) => share_if_equal(&stored.schema, source),
            None => Ok(None),
        }
    }

    // What is kept at that place, and its name.
    pub(crate) fn stored_at(&self, place: usize) -> (&'m str, &'m Stored)
        requires { place < length self.now.documents }
        ensures { slice_get self.now.documents place ≡ Some (named result.0.now result.1.now) }
    {
        let (name, stored) = self.documents.get_index(place).unwrap();
        (name.as_str(), stored)
    }
}

// The schema itself, if it is equal to this one.
fn share_if_equal(shared: &SharedSchema, source: &Tree) -> Result<Option<SharedSchema>, AllocError>
    ensures { IfOk result (λ found. IfSome found (λ s. (view s ≡ view source.now) × (view shared.now ≡ view source.now))) }
{
    if shared.get().source().equals(source) {
        return Ok(Some(shared.share()?));
    }
    Ok(None)
}
