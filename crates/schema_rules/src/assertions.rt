//! The assertions that keywords make of an instance by themselves.
ghost use Rattle.std.specs.Prelude.{◌≡◌};
ghost use Rattle.doc_tree.specs.Doc.{text};
ghost use Rattle.doc_tree.specs.TreeView.{view};
ghost use Rattle.schema_rules.specs.Assertions.{asserts};
ghost use Rattle.schema_rules.specs.Instances.{seen};

use crate::equality::{is_among, is_equal, is_unique};
use crate::instance::Instance;
use crate::keyword::Keyword;
use crate::numbers::{is_from, is_multiple, is_over, is_under, is_up_to};
use crate::required::{has_dependents, has_each};
use crate::sizes::{
    has_items_from, has_items_up_to, has_length_from, has_length_up_to, has_members_from,
    has_members_up_to,
};
use crate::types::has_type;
use doc_tree::Tree;

/// Whether the instance is as the keyword with this value asserts by itself (JSON Schema Validation, section 6).
/// A keyword that asks schemas, and any that asserts nothing, answers true. No memory is taken.
pub fn asserts(keyword: Keyword, value: &Tree, instance: Instance<'_>) -> bool
    ensures { result ≡ asserts keyword (view value.now) (seen instance.entry) }
{
    match instance {
        Instance::Value(tree) => asserts_of_value(keyword, value, tree),
        Instance::Name(name) => asserts_of_name(keyword, value, name),
    }
}

fn asserts_of_value(keyword: Keyword, value: &Tree, instance: &Tree) -> bool
    ensures { result ≡ asserts keyword (view value.now) (view instance.now) }
{
    match keyword {
        Keyword::OfType => has_type(value, Instance::Value(instance)),
        Keyword::Enumeration => is_among(value, Instance::Value(instance)),
        Keyword::Constant => is_equal(value, Instance::Value(instance)),
        Keyword::MultipleOf => is_multiple(value, instance),
        Keyword::Minimum => is_from(value, instance),
        Keyword::Maximum => is_up_to(value, instance),
        Keyword::ExclusiveMinimum => is_over(value, instance),
        Keyword::ExclusiveMaximum => is_under(value, instance),
        Keyword::MinLength => has_length_from(value, Instance::Value(instance)),
        Keyword::MaxLength => has_length_up_to(value, Instance::Value(instance)),
        Keyword::MinItems => has_items_from(value, instance),
        Keyword::MaxItems => has_items_up_to(value, instance),
        Keyword::UniqueItems => is_unique(value, instance),
        Keyword::MinProperties => has_members_from(value, instance),
        Keyword::MaxProperties => has_members_up_to(value, instance),
        Keyword::Required => has_each(value, instance),
        Keyword::DependentRequired => has_dependents(value, instance),
        _ => true,
    }
}

// Keywords on numbers, arrays and objects assert nothing of a text.
#[tactic(auto, using(crate::proofs::Texts::on_numbers_text, crate::proofs::Texts::is_unique_text, crate::proofs::Texts::has_each_text, crate::proofs::Texts::has_dependents_text))]
fn asserts_of_name(keyword: Keyword, value: &Tree, name: &str) -> bool
    ensures { result ≡ asserts keyword (view value.now) (text name.now) }
{
    match keyword {
        Keyword::OfType => has_type(value, Instance::Name(name)),
        Keyword::Enumeration => is_among(value, Instance::Name(name)),
        Keyword::Constant => is_equal(value, Instance::Name(name)),
        Keyword::MinLength => has_length_from(value, Instance::Name(name)),
        Keyword::MaxLength => has_length_up_to(value, Instance::Name(name)),
        _ => true,
    }
}
