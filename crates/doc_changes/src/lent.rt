//! Documents as they are kept, lent one by one in the order of their creation.
ghost use Rattle.std.specs.Prelude.{◌≡◌, ◌<◌, Some, length, slice_get};
ghost use Rattle.doc_changes.specs.StateView.{lent_of};
ghost use Rattle.doc_changes.specs.State.{Good};

use crate::documents::Documents;
use doc_tree::Tree;

/// A document with its name, its schema and its revision.
#[derive(Drop)]
pub struct Lent<'m> {
    /// Its name.
    pub name: &'m str,
    /// Its schema, as it was given.
    pub schema: &'m Tree,
    /// Its value.
    pub doc: &'m Tree,
    /// Its revision.
    pub revision: u64,
}

impl<'m> Documents<'m> {
    /// How many documents there are.
    pub fn len(&self) -> usize
        ensures len { result ≡ length self.now.documents }
        ensures good { Good self.now }
    {
        self.documents.len()
    }

    /// The document at that place in the order of creation, which is below `len`. Takes no memory.
    pub fn at(&self, place: usize) -> Lent<'m>
        requires { place < length self.now.documents }
        ensures document { slice_get self.now.documents place ≡ Some (lent_of result) }
    {
        let (name, stored) = self.documents.get_index(place).unwrap();
        Lent {
            name: name.as_str(),
            schema: stored.schema.get().source(),
            doc: stored.doc.tree(),
            revision: stored.revision,
        }
    }
}
