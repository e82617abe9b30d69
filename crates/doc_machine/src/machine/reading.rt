//! The questions that a machine answers of its documents and marks. Nothing changes.
ghost use Rattle.std.specs.Prelude.{◌≡◌, ◌⊎◌, Ok, Err, map, option_map, MatchResult};
ghost use Rattle.doc_tree.specs.TreeView.{view};
ghost use Rattle.refusals.specs.declared.numbers.TheConstants.{MEMORY};
ghost use Rattle.path_eval.specs.NodeView.{nodes_of};
ghost use Rattle.path_parse.specs.SyntaxView.{query_view};
ghost use Rattle.doc_changes.specs.MarkView.{mark_in};
ghost use Rattle.doc_changes.specs.Reading.{mark_at, revision_at, schema_at, value_at, names_of};
ghost use Rattle.doc_machine.specs.Queries.{nodes_in, nodes_at};
ghost use Rattle.doc_changes.specs.Refusals.{plain};
ghost use Rattle.doc_changes.specs.State.{Good};

use crate::machine::Machine;
use doc_changes::{Documents, Mark, Refusal};
use doc_pointer::Pointer;
use doc_tree::Tree;
use path_eval::{Node, nodes};
use path_parse::Query;
use std::alloc::Global;

impl Machine {
    /// The documents, to read.
    pub fn look(&self) -> Documents<'_>
        ensures same { result ≡ self.now }
        ensures good { Good self.now }
    {
        Documents::lend(
            self.alloc,
            &self.documents,
            &self.marks,
            self.seq,
            self.profile,
        )
    }

    /// The value in the document of that name to which the pointer leads (RFC 6901, section 4). It
    /// takes no memory.
    ///
    /// `NAME` if the text is no name, `NO_DOCUMENT` if no document has it, `NO_VALUE` if the pointer leads nowhere, in
    /// this order.
    pub fn get(&self, name: &str, pointer: &Pointer) -> Result<&Tree, Refusal>
        ensures value { MatchResult result (λ t. value_at self.now name.now pointer.now ≡ Ok (view t.now))
            (λ r. value_at self.now name.now pointer.now ≡ Err r) }
        ensures good { Good self.now }
    {
        self.look().get(name, pointer)
    }

    /// The nodes that the query selects in the document of that name, in order, each with its location
    /// and with its value, which the machine lends (RFC 9535, sections 2.3 and 2.5).
    ///
    /// `NAME` if the text is no name, `NO_DOCUMENT` if no document has it, `PATH_NODES` if a list of the evaluation has
    /// more than `limits::NODES` nodes, in this order; `MEMORY` may come in place of any answer.
    pub fn query(&self, name: &str, query: &Query) -> Result<Vec<Node<'_>>, Refusal>
        ensures nodes { let nodes = nodes_at self.now name.now (query_view query.now) in
            MatchResult result (λ found. nodes ≡ Ok (nodes_of found.items)) (λ r. (nodes ≡ Err r) ⊎ (r ≡ plain MEMORY)) }
        ensures good { Good self.now }
    {
        select(self.alloc, query, self.look().document(name)?.doc.tree())
    }

    /// The schema of the document of that name. It takes no memory.
    ///
    /// `NAME` if the text is no name, else `NO_DOCUMENT` if no document has it.
    pub fn schema_of(&self, name: &str) -> Result<&Tree, Refusal>
        ensures schema { MatchResult result (λ t. schema_at self.now name.now ≡ Ok (view t.now))
            (λ r. schema_at self.now name.now ≡ Err r) }
        ensures good { Good self.now }
    {
        self.look().schema_of(name)
    }

    /// The revision of the document of that name: the number of accepted changes after the last creation,
    /// patch or schema of it. It takes no memory.
    ///
    /// `NAME` if the text is no name, else `NO_DOCUMENT` if no document has it.
    pub fn revision(&self, name: &str) -> Result<u64, Refusal>
        ensures revision { result ≡ revision_at self.now name.now }
        ensures good { Good self.now }
    {
        self.look().revision(name)
    }

    /// The mark of that key, if it was set and isn't gone. It takes no memory.
    ///
    /// `NAME` if the text is no name.
    pub fn mark(&self, key: &str) -> Result<Option<&Mark>, Refusal>
        ensures mark { MatchResult result (λ o. mark_at self.now key.now ≡ Ok (option_map (λ m. mark_in m.now) o))
            (λ r. mark_at self.now key.now ≡ Err r) }
        ensures good { Good self.now }
    {
        self.look().mark(key)
    }

    /// The names in the order of creation. The only refusal is `MEMORY`.
    pub fn list(&self) -> Result<Vec<&str>, Refusal>
        ensures names { MatchResult result (λ names. map (λ n. n.now) names.items ≡ names_of self.now)
            (λ r. r ≡ plain MEMORY) }
        ensures good { Good self.now }
    {
        self.look().list()
    }
}

// What a query selects in a document.
fn select<'d>(alloc: Global, query: &Query, doc: &'d Tree) -> Result<Vec<Node<'d>>, Refusal>
    ensures { let nodes = nodes_in (query_view query.now) (view doc.now) in
        MatchResult result (λ found. nodes ≡ Ok (nodes_of found.items)) (λ r. (nodes ≡ Err r) ⊎ (r ≡ plain MEMORY)) }
{
    match nodes(alloc, query, doc) {
        Ok(found) => Ok(found),
        Err(fault) => Err(Refusal::plain(fault.number)),
    }
}
