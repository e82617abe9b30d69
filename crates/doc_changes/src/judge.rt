//! The judgement of a change: why it is refused. It only reads.
ghost use Rattle.std.specs.Prelude.{◌≡◌, ◌⊎◌, Ok, Err, IfOk, IfErr, IsTrue, MatchResult};
ghost use Rattle.doc_tree.specs.Sound.{IsSound};
ghost use Rattle.doc_tree.specs.TreeView.{view};
ghost use Rattle.refusals.specs.declared.numbers.TheConstants.{MEMORY};
ghost use Rattle.record_text.specs.Change.{change_of, create, patch, set_schema, delete};
ghost use Rattle.doc_changes.specs.Judged.{IsJudged, IsJudgedIn, IsReady, RefusesIn};
ghost use Rattle.doc_changes.specs.Patched.{patched};
ghost use Rattle.doc_changes.specs.Refusals.{plain};
ghost use Rattle.doc_changes.specs.State.{Good};
ghost use Rattle.doc_changes.specs.declared.limits.TheConstants.{LAST_SEQ};
ghost use Rattle.doc_changes.specs.Step.{Denies, IsOwn, MayBringLargePatterns, Refuses};

use crate::Refusal;
use crate::checks::{check_depth, check_name, check_revision, check_size};
use crate::documents::Documents;
use crate::judged::Judged;
use crate::laws::accepted_changes_are_framed;
use crate::rules::check_valid;
use doc_patch::Patch;
use doc_schema::Schema;
use doc_tree::Tree;
use record_text::Command;
use refusals::numbers::{MEMORY, NO_DOCUMENT, SCHEMA_SIZE, SEQ_END};
use std::alloc::Global;

impl<'m> Documents<'m> {
    /// Why a change is refused, if it is, in the order of `specs/Step.antt`. Nothing changes. This reads the schema that
    /// comes with a change, and of a patch it makes the new document, so `MEMORY` may come in place of any answer.
    pub fn judge(&self, command: &Command) -> Result<Judged, Refusal>
        ensures judged { IfOk result (λ judged. IsJudged self.now (change_of command.now) judged) }
        ensures refused { IfErr result (Refuses self.now (change_of command.now)) }
        ensures own { IfErr result IsOwn }
        ensures good { Good self.now }
    {
        self.know();
        let judged = self.judge_alone(command)?;
        self.check_seq()?;
        // A journal can hold what is accepted.
        accepted_changes_are_framed();
        Ok(judged)
    }

    // All but whether another change may be counted.
    pub(crate) fn judge_alone(&self, command: &Command) -> Result<Judged, Refusal>
        ensures { MatchResult result (IsJudgedIn self.now.profile self.now.documents (change_of command.now))
            (RefusesIn self.now.profile self.now.documents (change_of command.now)) }
    {
        match command {
            Command::Create { name, schema, doc } => self.judge_create(name.as_str(), schema, doc),
            Command::Patch { name, ops, if_rev } => self.judge_patch(name.as_str(), ops, *if_rev),
            Command::Schema { name, schema } => self.judge_schema(name.as_str(), schema),
            Command::Delete { name } => self.judge_delete(name.as_str()),
        }
    }

    /// The refusal of a change if no more can be counted.
    pub fn refuse_at_end(&self, command: &Command) -> Refusal
        requires { self.now.seq ≡ LAST_SEQ }
        ensures refused { Refuses self.now (change_of command.now) result }
        ensures own { IsOwn result }
    {
        match self.judge(command) {
            Ok(_) => Refusal::plain(SEQ_END),
            Err(refusal) => refusal,
        }
    }

    /// Judges all but a patch, which `make` judges in place. Refuses as `judge`, but never as `SEQ_END`.
    pub fn prepare(&self, command: &Command) -> Result<Judged, Refusal>
        ensures ready { IfOk result (IsReady self.now.profile self.now.documents (change_of command.now)) }
        ensures refused_in { IfErr result (RefusesIn self.now.profile self.now.documents (change_of command.now)) }
        ensures refused { IfErr result (Refuses self.now (change_of command.now)) }
        ensures own { IfErr result IsOwn }
    {
        if let Command::Patch { .. } = command {
            return Ok(Judged {
                patched: None,
                rules: None,
            });
        }
        self.judge_alone(command)
    }

    /// The refusal for a client that sends the change, by that of `judge`, `prepare` or `refuse_at_end`: `SCHEMA_SIZE` if it was
    /// `MEMORY`, since the patterns of the schema are too large.
    pub fn tell(&self, command: &Command, refusal: Refusal) -> Refusal
        requires { Refuses self.now (change_of command.now) refusal }
        ensures told { Denies self.now (change_of command.now) result }
        ensures own { IsOwn result }
    {
        if refusal.number == MEMORY && self.has_large_patterns(command) {
            return Refusal::plain(SCHEMA_SIZE);
        }
        refusal
    }

    // Whether a schema that comes with the change has patterns that are too large, and nothing before it is a reason to
    // refuse the change.
    fn has_large_patterns(&self, command: &Command) -> bool
        ensures { IsTrue result → MayBringLargePatterns self.now.profile self.now.documents (change_of command.now) }
    {
        match command {
            Command::Create { name, schema, .. } => {
                check_name(name.as_str()).is_ok()
                    && self.check_new(name.as_str()).is_ok()
                    && self.check_room().is_ok()
                    && Schema::has_large_patterns(self.profile, self.alloc, schema)
            }
            Command::Schema { name, schema } => {
                check_name(name.as_str()).is_ok()
                    && self.check_there(name.as_str()).is_ok()
                    && Schema::has_large_patterns(self.profile, self.alloc, schema)
            }
            Command::Patch { .. } | Command::Delete { .. } => false,
        }
    }

    fn judge_create(&self, name: &str, schema: &Tree, doc: &Tree) -> Result<Judged, Refusal>
        ensures { let change = create name.now (view schema.now) (view doc.now) in
            MatchResult result (IsJudgedIn self.now.profile self.now.documents change) (RefusesIn self.now.profile self.now.documents change) }
    {
        check_name(name)?;
        self.check_new(name)?;
        self.check_room()?;
        let rules = self.read_shared(schema)?;
        check_depth(doc)?;
        check_size(doc)?;
        check_valid(self.alloc, rules.get(), doc)?;
        Ok(Judged {
            patched: None,
            rules: Some(rules),
        })
    }

    fn judge_patch(&self, name: &str, ops: &Tree, if_rev: Option<u64>) -> Result<Judged, Refusal>
        ensures { let change = patch name.now (view ops.now) if_rev in
            MatchResult result (IsJudgedIn self.now.profile self.now.documents change) (RefusesIn self.now.profile self.now.documents change) }
    {
        check_name(name)?;
        let stored = self.stored(name).ok_or(Refusal::plain(NO_DOCUMENT))?;
        check_revision(if_rev, stored.revision)?;
        let made = make(self.alloc, ops, stored.doc.tree())?;
        check_valid(self.alloc, stored.schema.get(), &made)?;
        Ok(Judged {
            patched: Some(made),
            rules: None,
        })
    }

    fn judge_schema(&self, name: &str, schema: &Tree) -> Result<Judged, Refusal>
        ensures { let change = set_schema name.now (view schema.now) in
            MatchResult result (IsJudgedIn self.now.profile self.now.documents change) (RefusesIn self.now.profile self.now.documents change) }
    {
        check_name(name)?;
        let stored = self.stored(name).ok_or(Refusal::plain(NO_DOCUMENT))?;
        let rules = self.read_again(name, schema)?;
        check_valid(self.alloc, rules.get(), stored.doc.tree())?;
        Ok(Judged {
            patched: None,
            rules: Some(rules),
        })
    }

    fn judge_delete(&self, name: &str) -> Result<Judged, Refusal>
        ensures { let change = delete name.now in
            MatchResult result (IsJudgedIn self.now.profile self.now.documents change) (RefusesIn self.now.profile self.now.documents change) }
    {
        check_name(name)?;
        self.check_there(name)?;
        Ok(Judged {
            patched: None,
            rules: None,
        })
    }
}

// What a patch makes of a document.
fn make(alloc: Global, ops: &Tree, doc: &Tree) -> Result<Tree, Refusal>
    ensures made { let made = patched (view ops.now) (view doc.now) in
        MatchResult result (λ t. made ≡ Ok (view t)) (λ r. (made ≡ Err r) ⊎ (r ≡ plain MEMORY)) }
    ensures sound { IfOk result (λ t. IsSound (view ops.now) × IsSound (view t)) }
{
    Ok(Patch::read(alloc, ops)?.apply(alloc, doc)?)
}
