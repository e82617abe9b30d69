//! Transactions on trial.
ghost use Rattle.doc_changes.specs.Held.{held_in};
ghost use Rattle.doc_changes.specs.declared.limits.TheConstants.{LAST_SEQ, TRANSACTION_CHANGES};
ghost use Rattle.std.specs.Prelude.{◌≡◌, ◌⊎◌, ◌≤◌, ◌+◌, [], ◌∷◌, length, IfOk, IfErr, MatchResult, OnErr, OnOk, None, Some, map};
ghost use Rattle.record_text.specs.Change.{change_of};
ghost use Rattle.doc_changes.specs.Judged.{IsReady};
ghost use Rattle.doc_changes.specs.Refusals.{plain};
ghost use Rattle.doc_changes.specs.State.{Good, find};
ghost use Rattle.refusals.specs.declared.numbers.TheConstants.{MEMORY};
ghost use Rattle.doc_changes.specs.Step.{Denies, IsOwn, refusal_of};
ghost use Rattle.doc_machine.specs.Transaction.{AreMade, IsTransacted, RefusesTransaction, StopsAt, SaysOfChanges, SaysOfSeveral, all_of, changes_refusal, first_refused, large_refusal, marked, pure_changes, refused_at, ruled_by, several_refusal, text_bytes, transaction_of};
ghost use Rattle.doc_machine.specs.Marking.{marking_of, marking_refusal};
ghost use Rattle.doc_machine.specs.Spelled.{change_in};
ghost use Rattle.std.specs.Result.{result_err};

use crate::limits::{LAST_SEQ, TRANSACTION_CHANGES, TRANSACTION_KEPT_BYTES};
use crate::machine::Trial;
use crate::machine::trial::Accepted;
use crate::marking::Marking;
use crate::spelled::SpelledPatch;
use crate::transaction::{Changes, Transaction};
use doc_changes::{Judged, Refusal};
use record_text::Command;
use refusals::numbers::{COMMAND, MARK, MEMORY, SEQ_END, TRANSACTION_LARGE};

impl Trial {
    /// Makes a transaction whole, and answers the new number of accepted changes, or refuses it and nothing changes.
    ///
    /// What is said of marks is judged first: a mark is refused as `check_mark` answers, and then with `MARK` if another is
    /// there than is asked for. A single change is refused as `judge` answers. Several are refused with `COMMAND` if they are none or over
    /// `TRANSACTION_CHANGES`; else by the first of these reasons, change after change, each judged after those before
    /// it: the change's own refusal, with its place beside it, but `SEQ_END` with none; and then `TRANSACTION_LARGE` if
    /// the changes up to this one keep more than `TRANSACTION_KEPT_BYTES` together. A change whose schema is refused for
    /// nothing else, but has patterns that are too large, is refused with `SCHEMA_SIZE`. `MEMORY` may come in place of any
    /// answer.
    pub fn transact(&mut self, transaction: Transaction) -> Result<u64, Refusal>
        ensures made { IfOk result (λ seq. IsTransacted self.old (transaction_of transaction) seq self.new) }
        ensures refused { IfErr result (RefusesTransaction self.old.state (transaction_of transaction)) }
        ensures unchanged { OnErr result (self.new ≡ self.old) }
        ensures own { IfErr result IsOwn }
        ensures good { Good self.new.state }
    {
        match transaction {
            Transaction::Single(command) => self.step_alone(command),
            Transaction::Several(commands) => self.step_all(commands),
            Transaction::Marked(marking, changes) => self.step_marked(marking, changes),
            Transaction::Spelled(patch) => self.step_spelled(patch),
        }
    }

    // Makes a patch by itself that is in its text.
    fn step_spelled(&mut self, patch: SpelledPatch) -> Result<u64, Refusal>
        ensures accepted { OnOk result (refusal_of self.old.state (change_in patch) ≡ None) }
        ensures made { OnOk result (AreMade self.old (change_in patch ∷ []) self.new) }
        ensures seq { IfOk result (λ seq. seq ≡ self.new.state.seq) }
        ensures refused { IfErr result (Denies self.old.state (change_in patch)) }
        ensures unchanged { OnErr result (self.new ≡ self.old) }
        ensures own { IfErr result IsOwn }
        ensures good { Good self.new.state }
    {
        self.know();
        if self.seq() < LAST_SEQ {
            return self.patch(patch);
        }
        let command = self.spelled_command(&patch)?;
        self.step_alone(command)
    }

    // Makes changes and sets a mark, or nothing.
    fn step_marked(&mut self, marking: Marking, changes: Changes) -> Result<u64, Refusal>
        ensures made { IfOk result (λ seq. IsTransacted self.old (marked (marking_of marking) (pure_changes changes)) seq self.new) }
        ensures refused { IfErr result (RefusesTransaction self.old.state (marked (marking_of marking) (pure_changes changes))) }
        ensures unchanged { OnErr result (self.new ≡ self.old) }
        ensures own { IfErr result IsOwn }
        ensures good { Good self.new.state }
    {
        self.know();
        self.check_marking(&marking)?;
        let tried = self.len() as u64;
        let seq = self.step_changes(changes)?;
        match self.set(marking.mark_at(seq)) {
            Ok(()) => Ok(seq),
            Err(_) => {
                self.keep(tried);
                Err(Refusal::plain(MEMORY))
            }
        }
    }

    // Whether the mark may be set, and the present one is as it is asked for.
    fn check_marking(&self, marking: &Marking) -> Result<(), Refusal>
        ensures refused { result_err result ≡ marking_refusal self.now.state (marking_of marking.now) }
        ensures own { IfErr result IsOwn }
    {
        marking.check(self.profile())?;
        if !marking
            .asked
            .is_met_by(self.look().marks().get(marking.key.as_str()))
        {
            return Err(Refusal::plain(MARK));
        }
        Ok(())
    }

    // Makes the changes beside a mark, or none.
    fn step_changes(&mut self, changes: Changes) -> Result<u64, Refusal>
        ensures accepted { OnOk result (changes_refusal self.old.state (pure_changes changes) ≡ None) }
        ensures made { OnOk result (AreMade self.old (all_of (pure_changes changes)) self.new) }
        ensures seq { IfOk result (λ seq. seq ≡ self.new.state.seq) }
        ensures refused { IfErr result (λ r. (r ≡ plain MEMORY) ⊎ (changes_refusal self.old.state (pure_changes changes) ≡ Some r) ⊎ SaysOfChanges self.old.state (pure_changes changes) r) }
        ensures unchanged { OnErr result (self.new ≡ self.old) }
        ensures own { IfErr result IsOwn }
        ensures good { Good self.new.state }
    {
        match changes {
            Changes::Alone(command) => self.step_alone(command),
            Changes::Together(commands) => self.step_all(commands),
        }
    }

    // Makes one change by itself.
    fn step_alone(&mut self, command: Command) -> Result<u64, Refusal>
        ensures accepted { OnOk result (refusal_of self.old.state (change_of command) ≡ None) }
        ensures made { OnOk result (AreMade self.old (change_of command ∷ []) self.new) }
        ensures seq { IfOk result (λ seq. seq ≡ self.new.state.seq) }
        ensures refused { IfErr result (Denies self.old.state (change_of command)) }
        ensures unchanged { OnErr result (self.new ≡ self.old) }
        ensures own { IfErr result IsOwn }
        ensures good { Good self.new.state }
    {
        match self.step(command) {
            Ok(accepted) => Ok(accepted.seq),
            Err(refusal) => Err(refusal),
        }
    }

    // Judges a change and makes it.
    fn step(&mut self, command: Command) -> Result<Accepted, Refusal>
        ensures accepted { OnOk result (refusal_of self.old.state (change_of command) ≡ None) }
        ensures made { OnOk result (AreMade self.old (change_of command ∷ []) self.new) }
        ensures seq { IfOk result (λ accepted. accepted.seq ≡ self.new.state.seq) }
        ensures held { IfOk result (λ accepted. accepted.held ≡ held_in self.old.state.documents (change_of command)) }
        ensures refused { IfErr result (Denies self.old.state (change_of command)) }
        ensures unchanged { OnErr result (self.new ≡ self.old) }
        ensures own { IfErr result IsOwn }
        ensures good { Good self.new.state }
    {
        self.know();
        if self.seq() == LAST_SEQ {
            return Err(self.tell_at_end(&command));
        }
        let ready = self.prepare(&command)?;
        let accepted = self.change(command, ready)?;
        self.know();
        Ok(accepted)
    }

    // The refusal of a change if no more can be counted.
    fn tell_at_end(&self, command: &Command) -> Refusal
        requires { self.now.state.seq ≡ LAST_SEQ }
        ensures refused { Denies self.now.state (change_of command.now) result }
        ensures own { IsOwn result }
    {
        let documents = self.look();
        documents.tell(command, documents.refuse_at_end(command))
    }

    // Judges all but a patch, which `change` judges in place.
    fn prepare(&self, command: &Command) -> Result<Judged, Refusal>
        ensures ready { IfOk result (IsReady self.now.state.profile self.now.state.documents (change_of command.now)) }
        ensures refused { IfErr result (Denies self.now.state (change_of command.now)) }
        ensures own { IfErr result IsOwn }
    {
        let documents = self.look();
        match documents.prepare(command) {
            Ok(ready) => Ok(ready),
            Err(refusal) => Err(documents.tell(command, refusal)),
        }
    }

    // Makes all of these changes, or none.
    fn step_all(&mut self, commands: Vec<Command>) -> Result<u64, Refusal>
        ensures accepted { OnOk result (several_refusal self.old.state (map change_of commands.items) ≡ None) }
        ensures made { OnOk result (AreMade self.old (map change_of commands.items) self.new) }
        ensures seq { IfOk result (λ seq. seq ≡ self.new.state.seq) }
        ensures refused { IfErr result (λ r. (r ≡ plain MEMORY) ⊎ (several_refusal self.old.state (map change_of commands.items) ≡ Some r) ⊎ SaysOfSeveral self.old.state (map change_of commands.items) r) }
        ensures unchanged { OnErr result (self.new ≡ self.old) }
        ensures own { IfErr result IsOwn }
        ensures good { Good self.new.state }
    {
        let before = self.len() as u64;
        if commands.is_empty() || TRANSACTION_CHANGES < commands.len() {
            return Err(Refusal::plain(COMMAND));
        }
        match self.step_each(commands) {
            Ok(()) => Ok(self.seq()),
            Err(refusal) => {
                self.keep(before);
                Err(refusal)
            }
        }
    }

    // Makes changes one after another, up to the first that is refused.
    fn step_each(&mut self, commands: Vec<Command>) -> Result<(), Refusal>
        requires { length commands.items ≤ TRANSACTION_CHANGES }
        ensures accepted { OnOk result (first_refused 0 0 self.old.state (map change_of commands.items) ≡ None) }
        ensures made { OnOk result (AreMade self.old (map change_of commands.items) self.new) }
        ensures stops { IfErr result (λ r. StopsAt self.old (map change_of commands.items) r self.new) }
        ensures own { IfErr result IsOwn }
        ensures good { Good self.new.state }
    {
        self.know();
        let mut place = 0;
        let mut kept = 0;
        for command in commands {
            let ruled = self.bytes_ruled(&command);
            let accepted = match self.step(command) {
                Ok(accepted) => accepted,
                Err(refusal) => return Err(at(place, refusal)),
            };
            let together = kept_with(kept, accepted.held.saturating_add(ruled))?;
            kept = together;
            place += 1;
        }
        Ok(())
    }

    // The bytes of the text of the document that a change puts under another schema.
    fn bytes_ruled(&self, command: &Command) -> u64
        ensures { result ≡ ruled_by self.now.state (change_of command.now) }
    {
        match command {
            Command::Schema { name, .. } => self.bytes_of(name.as_str()),
            Command::Create { .. } | Command::Patch { .. } | Command::Delete { .. } => 0,
        }
    }

    // The bytes of the text of the document of that name, if there is one.
    fn bytes_of(&self, name: &str) -> u64
        ensures { result ≡ text_bytes (find name.now self.now.state.documents) }
    {
        match self.look().stored(name) {
            Some(stored) => stored.doc.len(),
            None => 0,
        }
    }
}

// The bytes that a change keeps together with the `kept` bytes of the changes before it, or a refusal if they are too
// many.
fn kept_with(kept: u64, bytes: u64) -> Result<u64, Refusal>
    ensures counted { let together = kept + bytes in
        MatchResult result (λ more. (more ≡ together) × (large_refusal together ≡ None)) (λ r. large_refusal together ≡ Some r) }
    ensures own { IfErr result IsOwn }
{
    match kept.checked_add(bytes) {
        Some(more) if more <= TRANSACTION_KEPT_BYTES => Ok(more),
        _ => Err(Refusal::plain(TRANSACTION_LARGE)),
    }
}

// The refusal of a transaction for the change at that place. What concerns the whole names no place.
fn at(place: u64, refusal: Refusal) -> Refusal
    ensures { result ≡ refused_at place refusal }
{
    if refusal.number == SEQ_END || refusal.number == MEMORY {
        refusal
    } else {
        refusal.at_change(place)
    }
}
