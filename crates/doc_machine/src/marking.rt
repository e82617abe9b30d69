//! The marking of a transaction: the mark that it sets, and what it asks for before.
use doc_changes::{Mark, Profile, Refusal, check_mark};
use std::alloc::{AllocError, Global};

/// The value that a transaction sets under a key, and what it asks for before. The mark gets the number of the
/// transaction's last change.
#[derive(Drop)]
pub struct Marking {
    /// A name as documents have them.
    pub key: String,
    /// At most `MARK_BYTES` bytes.
    pub value: String,
    /// What the mark of the key must be before.
    pub asked: Asked,
}

/// What a mark must be before a transaction.
#[derive(Drop)]
pub enum Asked {
    /// It may be anything, or not be there.
    Anything,
    /// It must not be there.
    Absence,
    /// It must be there with this value.
    Value(String),
}

impl Marking {
    ghost use Rattle.std.specs.Prelude.{◌≡◌, IfErr, IfOk, string_bytes};
    ghost use Rattle.std.specs.Result.{result_err};
    ghost use Rattle.doc_changes.specs.MarkView.{mark_in};
    ghost use Rattle.doc_changes.specs.Marks.{mark_refusal};
    ghost use Rattle.doc_changes.specs.Step.{IsOwn};
    ghost use Rattle.doc_machine.specs.Marking.{mark_at_seq, marking_of};

    /// The same, in memory of its own.
    pub fn copy(&self, alloc: Global) -> Result<Marking, AllocError>
        ensures { IfOk result (λ copy. marking_of copy ≡ marking_of self.now) }
    {
        Ok(Marking {
            key: String::from_str(alloc, self.key.as_str())?,
            value: String::from_str(alloc, self.value.as_str())?,
            asked: self.asked.copy(alloc)?,
        })
    }

    // Whether a state with schemas of that profile may have the mark.
    pub(crate) fn check(&self, profile: Profile) -> Result<(), Refusal>
        ensures refused { result_err result ≡ mark_refusal profile (string_bytes self.now.key) (string_bytes self.now.value) }
        ensures own { IfErr result IsOwn }
    {
        check_mark(profile, self.key.as_str(), self.value.as_str())
    }

    // The mark that is set, with that number.
    pub(crate) fn mark_at(self, seq: u64) -> Mark
        ensures { mark_in result ≡ mark_at_seq seq (marking_of self) }
    {
        Mark {
            key: self.key,
            value: self.value,
            seq,
        }
    }
}

impl Asked {
    ghost use Rattle.std.specs.Prelude.{◌≡◌, IfOk, MatchOption, None, Some, option_map};
    ghost use Rattle.doc_changes.specs.MarkView.{mark_in};
    ghost use Rattle.doc_machine.specs.Marking.{asked_of, is_as_asked};

    // The same, in memory of its own.
    fn copy(&self, alloc: Global) -> Result<Asked, AllocError>
        ensures { IfOk result (λ copy. asked_of copy ≡ asked_of self.now) }
    {
        match self {
            Asked::Anything => Ok(Asked::Anything),
            Asked::Absence => Ok(Asked::Absence),
            Asked::Value(value) => Ok(Asked::Value(String::from_str(alloc, value.as_str())?)),
        }
    }

    // Whether the present mark, if there is one, is as it is asked for.
    pub(crate) fn is_met_by(&self, present: Option<&Mark>) -> bool
        ensures { result ≡ is_as_asked (asked_of self.now) (option_map (λ m. mark_in m.now) present.entry) }
    {
        match self {
            Asked::Anything => true,
            Asked::Absence => present.is_none(),
            Asked::Value(value) => match present {
                Some(mark) => value.as_str() == mark.value.as_str(),
                None => false,
            },
        }
    }
}
