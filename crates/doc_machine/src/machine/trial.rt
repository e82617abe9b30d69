//! Changes and marks that are made in memory alone, and can be taken back without memory.
ghost use Rattle.std.specs.Prelude.{◌≡◌, ◌+◌, ◌<◌, ◌≤◌, ◌++◌, ◌∷◌, [], length, string_bytes, take, None, IfOk, IfErr, OnOk, OnErr};
ghost use Rattle.record_text.specs.Change.{change_of};
ghost use Rattle.doc_changes.specs.Held.{held_in};
ghost use Rattle.doc_changes.specs.Judged.{IsJudged, IsReady};
ghost use Rattle.doc_changes.specs.MarkView.{mark_in};
ghost use Rattle.doc_changes.specs.Marks.{mark_refusal};
ghost use Rattle.doc_changes.specs.State.{Good, noted};
ghost use Rattle.doc_changes.specs.Step.{IsOwn, Refuses, after, refusal_of};
ghost use Rattle.doc_machine.specs.Spelled.{change_in};
ghost use Rattle.doc_machine.specs.Transaction.{AreMade};
ghost use Rattle.doc_machine.specs.Trial.{state_at};
ghost use Rattle.doc_changes.specs.declared.limits.TheConstants.{LAST_SEQ};

use crate::machine::Machine;
use crate::spelled::SpelledPatch;
use doc_changes::laws::accepted_changes_are_framed;
use doc_changes::{
    Documents, Judged, Mark, Marks, Profile, Refusal, Stored, Undo, Unset, make, patch_read, unmake,
};
use indexmap::IndexMap;
use record_text::Command;
use std::alloc::{AllocError, Global};
use std::marker::Model;

/// Documents on which changes are tried: each change is made in memory, and all of them can be taken back, the newest
/// first, which takes no memory.
#[derive(Drop)]
pub struct Trial {
    alloc: Global,
    documents: IndexMap<String, Stored>,
    marks: Marks,
    seq: u64,
    profile: Profile,
    log: Vec<Tried>,
}

/// What takes a change back, and the marks that were set after it and before the next change.
#[derive(Drop)]
pub struct Tried {
    change: Undo,
    marks: Vec<Unset>,
}

/// A change that was made.
#[derive(Clone, Copy, Drop)]
pub struct Accepted {
    /// The new number of accepted changes.
    pub seq: u64,
    /// The bytes of text that memory holds for it, beyond its document and what came with it.
    pub held: u64,
}

impl Model for Trial {
    ghost use Rattle.doc_machine.specs.Trial.{TrialView, coded_trial};

    ghost Value = { TrialView };

    ghost coded = { coded_trial };

    ghost use Rattle.doc_machine.specs.Tried.{trial_of, IsTrial};

    ghost view = { trial_of };

    ghost invariant = { IsTrial };
}

impl Trial {
    /// Begins with these documents. Nothing was tried yet.
    pub fn begin(machine: Machine) -> Trial
        ensures state { result.state ≡ machine }
        ensures past { result.past ≡ [] }
    {
        let Machine {
            alloc,
            documents,
            marks,
            seq,
            profile,
        } = machine;
        Trial {
            alloc,
            documents,
            marks,
            seq,
            profile,
            log: Vec::new(alloc),
        }
    }

    /// For the prover alone: who calls it knows from there on that the state is good.
    pub fn know(&self)
        ensures { Good self.now.state }
    {
        let _ = self.len();
    }

    /// How many changes can be taken back.
    pub fn len(&self) -> usize
        ensures len { result ≡ length self.now.past }
        ensures good { Good self.now.state }
    {
        self.log.len()
    }

    /// How many changes are accepted, with those that were tried.
    pub fn seq(&self) -> u64
        ensures { result ≡ self.now.state.seq }
    {
        self.seq
    }

    // The profile in which the schemas of changes are read.
    pub(crate) fn profile(&self) -> Profile
        ensures { result ≡ self.now.state.profile }
    {
        self.profile
    }

    /// The documents as they are tried, to read.
    pub fn look(&self) -> Documents<'_>
        ensures same { result ≡ self.now.state }
        ensures good { Good self.now.state }
    {
        Documents::lend(
            self.alloc,
            &self.documents,
            &self.marks,
            self.seq,
            self.profile,
        )
    }

    /// Why a change is refused, if it is, as `Machine::judge` answers.
    pub fn judge(&self, command: &Command) -> Result<Judged, Refusal>
        ensures judged { IfOk result (λ judged. IsJudged self.now.state (change_of command.now) judged) }
        ensures refused { IfErr result (Refuses self.now.state (change_of command.now)) }
        ensures own { IfErr result IsOwn }
    {
        self.look().judge(command)
    }

    /// Makes a change that was judged and isn't refused, and answers the new number of accepted changes. An
    /// `Err` changes nothing.
    pub fn apply(&mut self, command: Command, judged: Judged) -> Result<u64, AllocError>
        requires { IsJudged self.old.state (change_of command) judged }
        ensures ok { OnOk result ((self.new.state ≡ after self.old.state (change_of command))
            × (self.new.past ≡ self.old.past ++ self.old.state ∷ [])) }
        ensures seq { IfOk result (λ seq. seq ≡ self.new.state.seq) }
        ensures err { OnErr result (self.new ≡ self.old) }
    {
        self.know();
        match self.change(command, judged) {
            Ok(accepted) => Ok(accepted.seq),
            Err(_) => Err(AllocError),
        }
    }

    // Makes a change, of which all but a patch was judged. An `Err` changes nothing.
    pub(crate) fn change(&mut self, command: Command, judged: Judged) -> Result<Accepted, Refusal>
        requires ready { IsReady self.old.state.profile self.old.state.documents (change_of command) judged }
        requires counted { self.old.state.seq < LAST_SEQ }
        ensures accepted { OnOk result (refusal_of self.old.state (change_of command) ≡ None) }
        ensures made { OnOk result (AreMade self.old (change_of command ∷ []) self.new) }
        ensures seq { IfOk result (λ accepted. accepted.seq ≡ self.new.state.seq) }
        ensures held { IfOk result (λ accepted. accepted.held ≡ held_in self.old.state.documents (change_of command)) }
        ensures refused { IfErr result (Refuses self.old.state (change_of command)) }
        ensures unchanged { OnErr result (self.new ≡ self.old) }
        ensures own { IfErr result IsOwn }
        ensures good { Good self.new.state }
    {
        // A journal can hold what is accepted.
        accepted_changes_are_framed();
        self.documents.reserve(self.log.len() + 2)?;
        self.log.reserve(1)?;
        let seq = self.seq + 1;
        let undo = make(self.alloc, &mut self.documents, command, judged, seq)?;
        let held = undo.held();
        self.log
            .push(Tried {
                change: undo,
                marks: Vec::new(self.alloc),
            })
            .unwrap();
        self.seq = seq;
        Ok(Accepted { seq, held })
    }

    // A patch in its text, as a command.
    pub(crate) fn spelled_command(&self, patch: &SpelledPatch) -> Result<Command, AllocError>
        ensures { IfOk result (λ command. change_of command ≡ change_in patch.now) }
    {
        patch.command(self.alloc)
    }

    // Judges a patch in its text, and makes it. An `Err` changes nothing.
    pub(crate) fn patch(&mut self, patch: SpelledPatch) -> Result<u64, Refusal>
        requires counted { self.old.state.seq < LAST_SEQ }
        ensures accepted { OnOk result (refusal_of self.old.state (change_in patch) ≡ None) }
        ensures made { OnOk result (AreMade self.old (change_in patch ∷ []) self.new) }
        ensures seq { IfOk result (λ seq. seq ≡ self.new.state.seq) }
        ensures refused { IfErr result (Refuses self.old.state (change_in patch)) }
        ensures unchanged { OnErr result (self.new ≡ self.old) }
        ensures own { IfErr result IsOwn }
        ensures good { Good self.new.state }
    {
        // A journal can hold what is accepted.
        accepted_changes_are_framed();
        let SpelledPatch { name, changes, .. } = patch;
        self.documents.reserve(self.log.len() + 2)?;
        self.log.reserve(1)?;
        let seq = self.seq + 1;
        let undo = patch_read(self.alloc, &mut self.documents, name, &changes, seq)?;
        self.log
            .push(Tried {
                change: undo,
                marks: Vec::new(self.alloc),
            })
            .unwrap();
        self.seq = seq;
        Ok(seq)
    }

    // Sets a mark after the newest change, which it goes back with. An `Err` changes nothing.
    pub(crate) fn set(&mut self, mark: Mark) -> Result<(), AllocError>
        requires tried { 0 < length self.old.past }
        requires accepted { mark_refusal self.old.state.profile (string_bytes mark.key) (string_bytes mark.value) ≡ None }
        requires counted { mark.seq ≤ self.old.state.seq }
        ensures state { OnOk result (self.new.state ≡ noted (mark_in mark) self.old.state) }
        ensures past { self.new.past ≡ self.old.past }
        ensures unchanged { OnErr result (self.new ≡ self.old) }
        ensures good { Good self.new.state }
    {
        self.know();
        let last = self.log.len() - 1;
        self.log[last].marks.reserve(1)?;
        let unset = self.marks.set(mark)?;
        self.log[last].marks.push(unset).unwrap();
        Ok(())
    }

    /// Takes the newest change back, and what was set after it. It takes no memory.
    pub fn revert(&mut self)
        requires { 0 < length self.old.past }
        ensures { self.old.past ≡ self.new.past ++ self.new.state ∷ [] }
    {
        let tried = self.log.pop().unwrap();
        self.marks.unset_all(tried.marks);
        unmake(&mut self.documents, tried.change);
        self.seq -= 1;
    }

    /// Takes back all that was tried but the oldest `oldest` changes. It takes no memory.
    pub fn keep(&mut self, oldest: u64)
        ensures state { self.new.state ≡ state_at oldest self.old }
        ensures past { self.new.past ≡ take oldest self.old.past }
        ensures good { Good self.new.state }
    {
        let mut left = self.len() as u64;
        while left > oldest {
            self.revert();
            left = self.len() as u64;
        }
    }

    /// The documents as they were tried.
    pub fn end(self) -> Machine
        ensures { result ≡ self.state }
    {
        let Trial {
            alloc,
            documents,
            marks,
            seq,
            profile,
            log: _,
        } = self;
        Machine {
            alloc,
            documents,
            marks,
            seq,
            profile,
        }
    }
}
