//! The assertions of the keywords on numbers.
ghost use Rattle.std.specs.Prelude.{◌≡◌, int_le, int_lt};
ghost use Rattle.doc_tree.specs.TreeView.{view};
ghost use Rattle.schema_rules.specs.Assertions.{on_numbers, divides};

use doc_tree::Tree;

/// Whether the instance is a multiple of the keyword's number.
pub(crate) fn is_multiple(value: &Tree, instance: &Tree) -> bool
    ensures { result ≡ on_numbers divides (view value.now) (view instance.now) }
{
    match (value, instance) {
        (Tree::Int(divisor), Tree::Int(number)) => *divisor <= 0 || *number % *divisor == 0,
        _ => true,
    }
}

/// Whether the instance is the keyword's number or more.
pub(crate) fn is_from(value: &Tree, instance: &Tree) -> bool
    ensures { result ≡ on_numbers (λ a b. int_le a b) (view value.now) (view instance.now) }
{
    match (value, instance) {
        (Tree::Int(bound), Tree::Int(number)) => *bound <= *number,
        _ => true,
    }
}

/// Whether the instance is the keyword's number or less.
pub(crate) fn is_up_to(value: &Tree, instance: &Tree) -> bool
    ensures { result ≡ on_numbers (λ a b. int_le b a) (view value.now) (view instance.now) }
{
    match (value, instance) {
        (Tree::Int(bound), Tree::Int(number)) => *number <= *bound,
        _ => true,
    }
}

/// Whether the instance is more than the keyword's number.
pub(crate) fn is_over(value: &Tree, instance: &Tree) -> bool
    ensures { result ≡ on_numbers (λ a b. int_lt a b) (view value.now) (view instance.now) }
{
    match (value, instance) {
        (Tree::Int(bound), Tree::Int(number)) => *bound < *number,
        _ => true,
    }
}

/// Whether the instance is less than the keyword's number.
pub(crate) fn is_under(value: &Tree, instance: &Tree) -> bool
    ensures { result ≡ on_numbers (λ a b. int_lt b a) (view value.now) (view instance.now) }
{
    match (value, instance) {
        (Tree::Int(bound), Tree::Int(number)) => *number < *bound,
        _ => true,
    }
}
