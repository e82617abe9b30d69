//! Documents that are lent to read and to judge.
ghost use Rattle.std.specs.Prelude.{◌≡◌, None, Ok, Err, is_some, map, option_map, MatchOption, MatchResult};
ghost use Rattle.doc_tree.specs.TreeView.{view};
ghost use Rattle.doc_changes.specs.MarkView.{mark_in};
ghost use Rattle.doc_changes.specs.Reading.{document_at, mark_at, names_of, revision_at, schema_at, value_at};
ghost use Rattle.doc_changes.specs.Refusals.{plain};
ghost use Rattle.doc_changes.specs.State.{Good, find};
ghost use Rattle.doc_changes.specs.StateView.{IsStoredAt, kept_state, named};
ghost use Rattle.refusals.specs.declared.numbers.TheConstants.{MEMORY};

use crate::mark::Mark;
use crate::marks::Marks;
use crate::stored::Stored;
use crate::{Refusal, is_valid_name};
use doc_pointer::Pointer;
use doc_schema::Profile;
use doc_tree::Tree;
use indexmap::IndexMap;
use refusals::numbers::{NAME, NO_DOCUMENT, NO_VALUE};
use std::alloc::Global;
use std::marker::Model;

/// The documents and marks of a machine or of a trial, lent to read.
#[derive(Drop)]
pub struct Documents<'m> {
    pub(crate) alloc: Global,
    pub(crate) documents: &'m IndexMap<String, Stored>,
    pub(crate) marks: &'m Marks,
    pub(crate) seq: u64,
    pub(crate) profile: Profile,
}

impl<'m> Model for Documents<'m> {
    ghost use Rattle.doc_changes.specs.State.{State, Good};
    ghost use Rattle.doc_changes.specs.CodedState.{coded_state};

    ghost Value = { State };

    ghost coded = { coded_state };

    ghost use Rattle.doc_changes.specs.StateView.{seen_of};

    ghost view = { seen_of };

    ghost invariant = { λ m. Good (seen_of m) };
}

impl<'m> Documents<'m> {
    /// Lends the documents that are kept in this map, and these marks, after `seq` accepted changes. The schemas of
    /// changes are read in the profile.
    pub fn lend(
        alloc: Global,
        documents: &'m IndexMap<String, Stored>,
        marks: &'m Marks,
        seq: u64,
        profile: Profile,
    ) -> Documents<'m>
        requires good { Good (kept_state documents.now.entries marks.now seq profile) }
        ensures same { result ≡ kept_state documents.now.entries marks.now seq profile }
    {
        Documents {
            alloc,
            documents,
            marks,
            seq,
            profile,
        }
    }

    /// The value in the document of that name to which the pointer leads, as `Machine::get` answers.
    pub fn get(&self, name: &str, pointer: &Pointer) -> Result<&'m Tree, Refusal>
        ensures value { MatchResult result (λ t. value_at self.now name.now pointer.now ≡ Ok (view t.now))
            (λ r. value_at self.now name.now pointer.now ≡ Err r) }
        ensures good { Good self.now }
    {
        let stored = self.document(name)?;
        pointer
            .resolve(stored.doc.tree())
            .ok_or(Refusal::plain(NO_VALUE))
    }

    /// The schema of the document of that name, as `Machine::schema_of` answers.
    pub fn schema_of(&self, name: &str) -> Result<&'m Tree, Refusal>
        ensures schema { MatchResult result (λ t. schema_at self.now name.now ≡ Ok (view t.now))
            (λ r. schema_at self.now name.now ≡ Err r) }
        ensures good { Good self.now }
    {
        Ok(self.document(name)?.schema.get().source())
    }

    /// The revision of the document of that name, as `Machine::revision` answers.
    pub fn revision(&self, name: &str) -> Result<u64, Refusal>
        ensures revision { result ≡ revision_at self.now name.now }
        ensures good { Good self.now }
    {
        Ok(self.document(name)?.revision)
    }

    /// The names in the order of creation, as `Machine::list` answers.
    pub fn list(&self) -> Result<Vec<&'m str>, Refusal>
        ensures names { MatchResult result (λ names. map (λ n. n.now) names.items ≡ names_of self.now)
            (λ r. r ≡ plain MEMORY) }
        ensures good { Good self.now }
    {
        let mut names = Vec::new(self.alloc);
        let keys = self.documents.keys().as_slice();
        for name in keys {
            names.push(name.as_str())?;
        }
        Ok(names)
    }

    /// What is kept of the document of that name. It takes no memory.
    ///
    /// `NAME` if the text is no name, else `NO_DOCUMENT` if no document has it.
    pub fn document(&self, name: &str) -> Result<&'m Stored, Refusal>
        ensures stored { MatchResult result
            (λ s. document_at self.now name.now ≡ Ok (named name.now s.now))
            (λ r. document_at self.now name.now ≡ Err r) }
        ensures good { Good self.now }
    {
        self.know();
        if !is_valid_name(name) {
            return Err(Refusal::plain(NAME));
        }
        self.stored(name).ok_or(Refusal::plain(NO_DOCUMENT))
    }

    /// The mark of that key, if it was set and isn't gone. It takes no memory.
    ///
    /// `NAME` if the text is no name.
    pub fn mark(&self, key: &str) -> Result<Option<&'m Mark>, Refusal>
        ensures mark { MatchResult result (λ o. mark_at self.now key.now ≡ Ok (option_map (λ m. mark_in m.now) o))
            (λ r. mark_at self.now key.now ≡ Err r) }
        ensures good { Good self.now }
    {
        self.know();
        if !is_valid_name(key) {
            return Err(Refusal::plain(NAME));
        }
        Ok(self.marks.get(key))
    }

    /// The marks, in the order in which they were set.
    pub fn marks(&self) -> &'m Marks
        ensures { result.now ≡ self.now.marks }
    {
        self.marks
    }

    // For the prover alone: who calls it knows from there on that the documents are good.
    pub(crate) fn know(&self)
        ensures { Good self.now }
    {
        let _ = &self.seq;
    }

    // Whether a document has that name.
    pub(crate) fn has(&self, name: &str) -> bool
        ensures { result ≡ is_some (find name.now self.now.documents) }
    {
        self.documents.contains_key(name)
    }

    /// What is kept under that name.
    pub fn stored(&self, name: &str) -> Option<&'m Stored>
        ensures { MatchOption result (find name.now self.now.documents ≡ None)
            (λ s. IsStoredAt name.now s.now self.now.documents) }
    {
        self.documents.get(name)
    }
}
