//! A mark: a text that is kept under a key.
ghost use Rattle.std.specs.Prelude.{◌≡◌, IfErr, string_bytes};
ghost use Rattle.std.specs.Result.{result_err};
ghost use Rattle.doc_changes.specs.Marks.{mark_refusal};
ghost use Rattle.doc_changes.specs.MarkView.{mark_in};
ghost use Rattle.doc_changes.specs.Step.{IsOwn};

use crate::limits::{MARK_BYTES, holds_marks};
use crate::{Refusal, is_valid_name};
use doc_schema::Profile;
use refusals::numbers::{COMMAND, NAME};
use std::alloc::{AllocError, Global};

/// A value under a key, and the number of the transaction that set it: what its client last did, say.
#[derive(Drop)]
pub struct Mark {
    /// A name as documents have them.
    pub key: String,
    /// At most `MARK_BYTES` bytes.
    pub value: String,
    /// The number of the last change of the transaction.
    pub seq: u64,
}

impl Mark {
    ghost use Rattle.std.specs.Prelude.{◌≡◌, IfOk};

    /// The same mark, in memory of its own.
    pub fn copy(&self, alloc: Global) -> Result<Mark, AllocError>
        ensures { IfOk result (λ copy. mark_in copy ≡ mark_in self.now) }
    {
        Ok(Mark {
            key: String::from_str(alloc, self.key.as_str())?,
            value: String::from_str(alloc, self.value.as_str())?,
            seq: self.seq,
        })
    }

    /// Whether a state with schemas of that profile may have the mark, as `check_mark` answers.
    pub fn check(&self, profile: Profile) -> Result<(), Refusal>
        ensures refused { result_err result ≡ mark_refusal profile (string_bytes self.now.key) (string_bytes self.now.value) }
        ensures own { IfErr result IsOwn }
    {
        check_mark(profile, self.key.as_str(), self.value.as_str())
    }
}

/// Whether a state with schemas of that profile may have the value under the key. It takes no memory.
///
/// `COMMAND` if the profile holds no marks, else `NAME` if the key is no name, else `COMMAND` if the value has more
/// than `MARK_BYTES` bytes.
pub fn check_mark(profile: Profile, key: &str, value: &str) -> Result<(), Refusal>
    ensures refused { result_err result ≡ mark_refusal profile key.now value.now }
    ensures own { IfErr result IsOwn }
{
    if !holds_marks(profile) {
        return Err(Refusal::plain(COMMAND));
    }
    if !is_valid_name(key) {
        return Err(Refusal::plain(NAME));
    }
    if value.len() > MARK_BYTES {
        return Err(Refusal::plain(COMMAND));
    }
    Ok(())
}
