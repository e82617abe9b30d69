//! A patch by itself in its text.
ghost use Rattle.std.specs.Prelude.{◌≡◌, IfOk, IfSome};
ghost use Rattle.record_text.specs.Change.{change_of};
ghost use Rattle.doc_machine.specs.Spelled.{SpellsPatch, change_in};

use doc_patch::Patch;
use record_text::laws::objects_differ;
use record_text::{Command, patch_parts, read_body};
use std::alloc::{AllocError, Global};
use std::marker::Model;

/// A patch by itself that asks for no revision, in the compact text of its object, with its operations read. Contracts see
/// it as that text.
#[derive(Drop)]
pub struct SpelledPatch {
    pub(crate) text: Vec<u8>,
    pub(crate) name: String,
    pub(crate) changes: Patch,
}

impl Model for SpelledPatch {
    ghost use Rattle.std.specs.Prelude.{ℕ, List, string_bytes};
    ghost use Rattle.doc_patch.specs.Meaning.{operations};
    ghost use Rattle.doc_machine.specs.Spelled.{IsSpelledBy};

    ghost Value = { List ℕ };

    ghost view = { λ p. p.text.items };

    ghost invariant = { λ p. IsSpelledBy p.text.items (string_bytes p.name) (operations p.changes) };
}

impl SpelledPatch {
    /// The patch whose text the bytes are, read with no tree of its operations.
    ///
    /// `None` says nothing. It is answered if the bytes are no such text, if the text has an escape, or the patch is over a
    /// limit, and if memory is refused.
    pub fn read(alloc: Global, bytes: &[u8]) -> Option<SpelledPatch>
        ensures text { IfSome result (λ p. p ≡ bytes.now) }
        ensures spells { IfSome result (λ _. SpellsPatch bytes.now) }
    {
        // What follows gives up at an escape, maybe late.
        if bytes.contains(&b'\\') {
            return None;
        }
        let (name, ops) = patch_parts(bytes)?;
        let changes = Patch::read_unescaped(alloc, ops)?;
        let name = String::from_str(alloc, name).ok()?;
        let mut text = Vec::with_capacity(alloc, bytes.len()).ok()?;
        text.extend_from_slice(bytes).ok()?;
        Some(SpelledPatch {
            text,
            name,
            changes,
        })
    }

    /// Its text.
    pub fn text(&self) -> &[u8]
        ensures text { result.now ≡ self.now }
        ensures spells { SpellsPatch self.now }
    {
        &self.text
    }

    // The same patch as a command.
    pub(crate) fn command(&self, alloc: Global) -> Result<Command, AllocError>
        ensures { IfOk result (λ command. change_of command ≡ change_in self.now) }
    {
        // Only this change has that text.
        objects_differ();
        match read_body(alloc, &self.text) {
            Ok(command) => Ok(command),
            Err(_) => Err(AllocError),
        }
    }

    // The same patch, in memory of its own.
    pub(crate) fn copy(&self, alloc: Global) -> Result<SpelledPatch, AllocError>
        ensures { IfOk result (λ copy. copy ≡ self.now) }
    {
        // What was read once is read again, unless memory is refused.
        match SpelledPatch::read(alloc, &self.text) {
            Some(copy) => Ok(copy),
            None => Err(AllocError),
        }
    }
}
