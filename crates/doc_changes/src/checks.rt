//! The single reasons for which a change is refused. Looking for one takes no memory.
ghost use Rattle.std.specs.Prelude.{◌≡◌, ◌<◌};
ghost use Rattle.std.specs.Result.{result_err};
ghost use Rattle.doc_tree.specs.Sound.{IsSound};
ghost use Rattle.doc_tree.specs.TreeView.{view};
ghost use Rattle.doc_changes.specs.Step.{revision_refusal, name_refusal, exists_refusal, absent_refusal, room_refusal, depth_refusal, size_refusal, seq_refusal};
ghost use Rattle.doc_changes.specs.declared.limits.TheConstants.{LAST_SEQ};

use crate::documents::Documents;
use crate::limits::{DOCUMENT_BYTES, DOCUMENT_HEIGHT, LAST_ASKED, LAST_SEQ, most_documents};
use crate::{Refusal, is_valid_name};
use doc_tree::Tree;
use refusals::numbers::{DEPTH, EXISTS, NAME, NO_DOCUMENT, SEQ_END, TOO_LARGE, TOO_MANY};

impl<'m> Documents<'m> {
    pub(crate) fn check_new(&self, name: &str) -> Result<(), Refusal>
        ensures { result_err result ≡ exists_refusal self.now.documents name.now }
    {
        if self.has(name) {
            return Err(Refusal::plain(EXISTS));
        }
        Ok(())
    }

    pub(crate) fn check_there(&self, name: &str) -> Result<(), Refusal>
        ensures { result_err result ≡ absent_refusal self.now.documents name.now }
    {
        if !self.has(name) {
            return Err(Refusal::plain(NO_DOCUMENT));
        }
        Ok(())
    }

    pub(crate) fn check_room(&self) -> Result<(), Refusal>
        ensures { result_err result ≡ room_refusal self.now.profile self.now.documents }
    {
        if self.len() >= most_documents(self.profile) {
            return Err(Refusal::plain(TOO_MANY));
        }
        Ok(())
    }

    pub(crate) fn check_seq(&self) -> Result<(), Refusal>
        ensures { result_err result ≡ seq_refusal self.now.seq }
    {
        if self.seq == LAST_SEQ {
            return Err(Refusal::plain(SEQ_END));
        }
        Ok(())
    }
}

pub(crate) fn check_name(name: &str) -> Result<(), Refusal>
    ensures { result_err result ≡ name_refusal name.now }
{
    if !is_valid_name(name) {
        return Err(Refusal::plain(NAME));
    }
    Ok(())
}

// Whether a patch that asks for a revision, or for none, asks for the document's.
pub(crate) fn check_revision(if_rev: Option<u64>, revision: u64) -> Result<(), Refusal>
    ensures { result_err result ≡ revision_refusal if_rev revision }
{
    if let Some(asked) = if_rev {
        if asked != revision || asked > LAST_ASKED {
            return Err(Refusal::other_revision(revision));
        }
    }
    Ok(())
}

pub(crate) fn check_depth(doc: &Tree) -> Result<(), Refusal>
    ensures refusal { result_err result ≡ depth_refusal (view doc.now) }
    ensures sound { IsSound (view doc.now) }
{
    if doc.height() > DOCUMENT_HEIGHT {
        return Err(Refusal::plain(DEPTH));
    }
    Ok(())
}

pub(crate) fn check_size(doc: &Tree) -> Result<(), Refusal>
    ensures { result_err result ≡ size_refusal (view doc.now) }
{
    if doc.text_len_within(DOCUMENT_BYTES).is_none() {
        return Err(Refusal::plain(TOO_LARGE));
    }
    Ok(())
}
