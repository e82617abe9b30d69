//! A name, whose text is once in memory for all maps that share it.
ghost use Rattle.std.specs.Prelude.{◌≡◌, IfOk, string_bytes};

use std::alloc::{AllocError, Global};
use std::marker::Model;
use std::sync::Arc;

/// A name in a map. Contracts see its text, and not which names share it.
#[derive(Drop)]
pub struct Name {
    text: Arc<String, Global>,
}

impl Model for Name {
    ghost use Rattle.std.specs.Prelude.{String};
    ghost use Rattle.std.specs.Arc.{arc_value};
    ghost use Rattle.std.specs.declared.alloc.Global.{Global};

    ghost Value = { String Global };

    ghost view = { λ n. arc_value n.text };
}

impl Name {
    /// A name of that text, which no other shares.
    pub fn new(alloc: Global, text: String) -> Result<Name, AllocError>
        ensures { IfOk result (λ name. name ≡ text) }
    {
        Ok(Name {
            text: Arc::new(alloc, text)?,
        })
    }

    /// A name of a copy of that text.
    pub fn copy_of(alloc: Global, text: &str) -> Result<Name, AllocError>
        ensures { IfOk result (λ name. string_bytes name ≡ text.now) }
    {
        Name::new(alloc, String::from_str(alloc, text)?)
    }

    /// The same name, which shares the text: it takes no memory. Refused only if more share it than can be counted.
    pub fn share(&self) -> Result<Name, AllocError>
        ensures { IfOk result (λ name. name ≡ self.now) }
    {
        Ok(Name {
            text: Arc::try_clone(&self.text)?,
        })
    }

    /// The text.
    pub fn as_string(&self) -> &String
        ensures { result.now ≡ self.now }
    {
        &self.text
    }

    /// The text's characters.
    pub fn as_str(&self) -> &str
        ensures { result.now ≡ string_bytes self.now }
    {
        self.text.as_str()
    }
}
