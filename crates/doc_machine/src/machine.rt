//! The machine: documents in memory, changed one step at a time.
mod counts;
mod reading;
mod transact;
mod trial;

use doc_changes::limits::{LAST_SEQ, holds_marks};
use doc_changes::{
    Documents, Judged, Mark, Marks, Profile, Refusal, Stored, make, make_for_good,
    patch_read_for_good,
};
use doc_patch::Patch;
use indexmap::IndexMap;
use record_text::Command;
use std::alloc::Global;
use std::marker::Model;
pub use trial::Trial;

/// The documents by name in the order of their creation, each with its revision, the marks, the number of accepted
/// changes, and the profile in which the schemas of changes are read.
#[derive(Drop)]
pub struct Machine {
    alloc: Global,
    documents: IndexMap<String, Stored>,
    marks: Marks,
    seq: u64,
    profile: Profile,
}

impl Model for Machine {
    ghost use Rattle.doc_changes.specs.State.{State, Good};
    ghost use Rattle.doc_changes.specs.CodedState.{coded_state};

    ghost Value = { State };

    ghost coded = { coded_state };

    ghost use Rattle.doc_machine.specs.MachineView.{state_of};

    ghost view = { state_of };

    ghost invariant = { λ m. Good (state_of m) };
}

impl Machine {
    ghost use Rattle.std.specs.Prelude.{◌≡◌, ◌≤◌, None, Ok, IfErr, IfOk, MatchResult};
    ghost use Rattle.doc_patch.specs.Meaning.{operations};
    ghost use Rattle.doc_patch.specs.Reading.{operations_of};
    ghost use Rattle.doc_tree.specs.Doc.{Doc};
    ghost use Rattle.doc_tree.specs.Sound.{IsSound};
    ghost use Rattle.record_text.specs.Change.{change_of, patch};
    ghost use Rattle.record_text.specs.Frame.{entry};
    ghost use Rattle.doc_machine.specs.Entries.{Notes, Taken, Takes, with_entry};
    ghost use Rattle.doc_changes.specs.Judged.{IsJudged, RefusesIn};
    ghost use Rattle.doc_changes.specs.MarkView.{mark_in};
    ghost use Rattle.doc_changes.specs.State.{Good, empty, empty_in, in_profile};
    ghost use Rattle.doc_changes.specs.Step.{IsOwn, Refuses, Steps};
    ghost use Rattle.doc_changes.specs.Within.{AreWithin};

    /// A machine with no documents and no marks, and no changes yet, in profile 2.
    pub fn new(alloc: Global) -> Machine
        ensures empty { result ≡ empty }
        ensures good { Good result }
    {
        Machine {
            alloc,
            documents: IndexMap::new(alloc),
            marks: Marks::new(alloc),
            seq: 0,
            profile: Profile::Two,
        }
    }

    /// A machine with no documents and no marks after `seq` changes, in that profile, which takes again what a journal of
    /// that seq holds.
    pub fn at(alloc: Global, seq: u64, profile: Profile) -> Machine
        ensures empty { result ≡ empty_in profile seq }
        ensures good { Good result }
    {
        Machine {
            alloc,
            documents: IndexMap::new(alloc),
            marks: Marks::new(alloc),
            seq,
            profile,
        }
    }

    /// Has the schemas of changes read in that profile from now on. Each document's schema must be one of it, and there
    /// may be no more documents than it allows. Profile 2 holds no marks: there all of them are forgotten.
    pub fn set_profile(&mut self, profile: Profile)
        requires { AreWithin profile self.old.documents }
        ensures set { self.new ≡ in_profile profile self.old }
        ensures good { Good self.new }
    {
        self.know();
        if !holds_marks(profile) {
            self.marks.clear();
        }
        self.profile = profile;
    }

    /// For the prover alone: who calls it knows from there on that the state is good.
    pub fn know(&self)
        ensures { Good self.now }
    {
        let _ = self.seq();
    }

    /// Why a change is refused, if it is, in the order of `step`. Nothing changes. This reads the schema
    /// that comes with a change, and of a patch it makes the new document, so `MEMORY` may come in place
    /// of any answer.
    pub fn judge(&self, command: &Command) -> Result<Judged, Refusal>
        ensures judged { IfOk result (λ judged. IsJudged self.now (change_of command.now) judged) }
        ensures refused { IfErr result (Refuses self.now (change_of command.now)) }
        ensures own { IfErr result IsOwn }
        ensures good { Good self.now }
    {
        self.look().judge(command)
    }

    /// Applies a change whole and answers the new number of accepted changes, or refuses it and
    /// nothing changes.
    ///
    /// Of several reasons the first of these is answered, and `MEMORY` may come before any. A creation: `NAME`,
    /// `EXISTS`, `TOO_MANY`, what reading the schema answers (`SCHEMA_SIZE`, `SCHEMA_FORM`, `SCHEMA_KEYWORD`,
    /// `SCHEMA_REF`, `SCHEMA_LOOP`), `DEPTH`, `TOO_LARGE`, `INVALID`. A patch: `NAME`, `NO_DOCUMENT`, `REVISION` if it
    /// asks for another revision than the document's (the refusal has the document's), what reading it and then
    /// applying it answers, with the operation at fault (RFC 6902, sections 3 to 5), and `INVALID` for what the whole
    /// patch makes. A schema: `NAME`, `NO_DOCUMENT`, what reading it answers, and `INVALID` for the document that it
    /// has. A deletion: `NAME`, `NO_DOCUMENT`. Each of them: `SEQ_END` at last.
    pub fn step(&mut self, command: Command) -> Result<u64, Refusal>
        ensures step { Steps self.old (change_of command) result self.new }
        ensures good { Good self.new }
    {
        if self.seq == LAST_SEQ {
            return Err(self.look().refuse_at_end(&command));
        }
        let ready = self.look().prepare(&command)?;
        self.documents.reserve(1)?;
        let seq = self.seq + 1;
        drop(make(self.alloc, &mut self.documents, command, ready, seq)?);
        self.seq = seq;
        Ok(seq)
    }

    /// Takes a change that a journal holds with that seq, which must be at most the machine's: what it changes gets the
    /// seq as its revision, and no change is counted.
    ///
    /// Refuses as `step` does, but never as `SEQ_END`. A refusal changes nothing.
    pub fn take(&mut self, command: Command, seq: u64) -> Result<(), Refusal>
        requires { seq ≤ self.old.seq }
        ensures taken { Taken self.old (entry seq (change_of command)) result self.new }
        ensures good { Good self.new }
    {
        self.know();
        let ready = self.look().prepare(&command)?;
        self.documents.reserve(1)?;
        drop(make(self.alloc, &mut self.documents, command, ready, seq)?);
        Ok(())
    }

    /// The same for good, for a caller that drops the machine if a change is refused: nothing is kept to take a change
    /// back.
    pub fn take_for_good(self, command: Command, seq: u64) -> Result<Machine, Refusal>
        requires { seq ≤ self.seq }
        ensures taken { MatchResult result (λ machine. Takes self (entry seq (change_of command)) × (machine ≡ with_entry self (entry seq (change_of command))))
            (RefusesIn self.profile self.documents (change_of command)) }
        ensures good { IfOk result (λ machine. Good machine) }
    {
        let ready = self.look().prepare(&command)?;
        let Machine {
            alloc,
            mut documents,
            marks,
            seq: counted,
            profile,
        } = self;
        documents.reserve(1)?;
        make_for_good(alloc, &mut documents, command, ready, seq)?;
        Ok(Machine {
            alloc,
            documents,
            marks,
            seq: counted,
            profile,
        })
    }

    /// The same of a patch that was read already and asks for no revision: taken and refused as that of each document
    /// `ops` that spells its operations.
    pub fn take_patch_for_good(
        self,
        name: &str,
        changes: &Patch,
        seq: u64,
    ) -> Result<Machine, Refusal>
        requires { seq ≤ self.seq }
        ensures taken { (ops : Doc) → operations_of ops ≡ Ok (operations changes.now) → IsSound ops
            → MatchResult result (λ machine. Takes self (entry seq (patch name.now ops None)) × (machine ≡ with_entry self (entry seq (patch name.now ops None))))
            (RefusesIn self.profile self.documents (patch name.now ops None)) }
        ensures good { IfOk result (λ machine. Good machine) }
    {
        let Machine {
            alloc,
            mut documents,
            marks,
            seq: counted,
            profile,
        } = self;
        patch_read_for_good(alloc, &mut documents, name, changes, seq)?;
        Ok(Machine {
            alloc,
            documents,
            marks,
            seq: counted,
            profile,
        })
    }

    /// Takes a mark that a journal holds, whose seq must be at most the machine's: sets it, and of more than `MARKS` forgets
    /// the one that was set first.
    ///
    /// Refuses as `Mark::check` does, or with `MEMORY`. A refusal changes nothing.
    pub fn note(&mut self, mark: Mark) -> Result<(), Refusal>
        requires { mark.seq ≤ self.old.seq }
        ensures noted { Notes self.old (mark_in mark) result self.new }
        ensures own { IfErr result IsOwn }
        ensures good { Good self.new }
    {
        self.know();
        mark.check(self.profile)?;
        drop(self.marks.set(mark)?);
        Ok(())
    }
}
