//! The assertion of a keyword, made ready to be tried on many instances.
ghost use Rattle.std.specs.Prelude.{◌≡◌, IfOk};
ghost use Rattle.doc_tree.specs.Doc.{Doc};
ghost use Rattle.doc_tree.specs.TreeView.{view};
ghost use Rattle.schema_rules.specs.Assertions.{asserts, is_among};
ghost use Rattle.schema_rules.specs.Holds.{holds};
ghost use Rattle.schema_rules.specs.Instances.{seen};

use crate::assertions::asserts;
use crate::choices::Choices;
use crate::instance::Instance;
use crate::keyword::Keyword;
use doc_tree::Tree;
use std::alloc::{AllocError, Global};

/// What one member of a schema object asserts by itself (JSON Schema Validation, section 6).
#[derive(Drop)]
pub enum Assertion {
    /// What the keyword with this value asserts.
    Stated(Keyword, Tree),
    /// That the instance is equal to one of these.
    Among(Choices),
}

impl Assertion {
    /// What the keyword with this value asserts; the value is copied. `Err`: there is no memory for that.
    pub fn new(alloc: Global, keyword: Keyword, value: &Tree) -> Result<Assertion, AllocError>
        ensures { IfOk result (λ assertion. (t : Doc) → holds assertion t ≡ asserts keyword (view value.now) t) }
    {
        match keyword {
            Keyword::Enumeration => Ok(among(value.copy(alloc)?)),
            _ => Ok(Assertion::Stated(keyword, value.copy(alloc)?)),
        }
    }

    /// Whether the instance is as it asserts. Takes no memory.
    pub fn holds(&self, instance: Instance<'_>) -> bool
        ensures { result ≡ holds self.now (seen instance.entry) }
    {
        match self {
            Assertion::Stated(keyword, value) => asserts(*keyword, value, instance),
            Assertion::Among(choices) => choices.contain(instance),
        }
    }
}

// Of `enum` with this value.
fn among(value: Tree) -> Assertion
    ensures { (t : Doc) → holds result t ≡ is_among (view value) t }
{
    match value {
        Tree::List(values) => Assertion::Among(Choices::of(values)),
        value => Assertion::Stated(Keyword::Enumeration, value),
    }
}
