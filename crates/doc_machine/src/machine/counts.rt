//! The number of documents, and the number of accepted changes.
ghost use Rattle.std.specs.Prelude.{◌≡◌, length};
ghost use Rattle.doc_changes.specs.State.{Good};

use crate::machine::Machine;

impl Machine {
    /// How many documents there are.
    pub fn len(&self) -> usize
        ensures len { result ≡ length self.now.documents }
        ensures good { Good self.now }
    {
        self.documents.len()
    }

    /// How many changes were accepted.
    pub fn seq(&self) -> u64
        ensures seq { result ≡ self.now.seq }
        ensures good { Good self.now }
    {
        self.seq
    }
}
