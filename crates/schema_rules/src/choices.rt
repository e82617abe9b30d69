//! The values of `enum`, in an order by which one is found among many.
ghost use Rattle.std.specs.Prelude.{◌≡◌};
ghost use Rattle.std.specs.List.{list_any};
ghost use Rattle.std.specs.List.Sorted.{IsPermutation, IsSortedBy};
ghost use Rattle.std.specs.Ordering.{is_lt};
ghost use Rattle.doc_tree.specs.Lists.{elements_list};
ghost use Rattle.doc_tree.specs.Same.{same};
ghost use Rattle.doc_tree.specs.TreeView.{view, elements_view};
ghost use Rattle.schema_rules.specs.Instances.{seen};
ghost use Rattle.schema_rules.specs.Order.{doc_cmp};

use crate::instance::Instance;
use crate::order::{compare, compare_to_text};
use doc_tree::Tree;
use std::cmp::Ordering;

/// The values of `enum` (JSON Schema Validation, section 6.1.2), sorted once: an instance is looked up in a time that
/// grows with the logarithm of their number.
#[derive(Drop)]
pub struct Choices {
    sorted: Vec<Tree>,
    ghost in_order: { IsSortedBy (λ a b. is_lt (doc_cmp (view a) (view b))) sorted.items },
}

impl Choices {
    /// Of these values, which may be in any order and equal one another. Takes no memory.
    pub fn of(values: Vec<Tree>) -> Choices
        ensures { IsPermutation values.items result.sorted.items }
    {
        let mut sorted = values;
        sort(&mut sorted);
        Choices { sorted }
    }

    /// Whether the instance is equal to one of them. Takes no memory.
    pub fn contain(&self, instance: Instance<'_>) -> bool
        ensures { result ≡ list_any (λ d. same d (seen instance.entry)) (elements_list (elements_view self.now.sorted.items)) }
    {
        self.sorted
            .binary_search_by(|value| compare_to(value, instance))
            .is_ok()
    }
}

fn sort(values: &mut [Tree])
    ensures permutation { IsPermutation values.old values.new }
    ensures sorted { IsSortedBy (λ a b. is_lt (doc_cmp (view a) (view b))) values.new }
{
    values.sort_unstable_by(|a, b| compare(a, b));
}

// The order of a value and the instance.
fn compare_to(value: &Tree, instance: Instance<'_>) -> Ordering
    ensures { result ≡ doc_cmp (view value.now) (seen instance.entry) }
{
    match instance {
        Instance::Value(tree) => compare(value, tree),
        Instance::Name(name) => compare_to_text(value, name),
    }
}
