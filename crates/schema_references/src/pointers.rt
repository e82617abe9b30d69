//! The schema that a pointer leads to.
ghost use Rattle.std.specs.Prelude.{◌≡◌, map, option_map, string_bytes};
ghost use Rattle.doc_tree.specs.TreeView.{view};
ghost use Rattle.schema_rules.specs.Pointers.{held_at, shape_at, walk};
ghost use Rattle.schema_rules.specs.declared.keyword.Shape.TheVariants as shapes;

use doc_pointer::child_at;
use doc_tree::Tree;
use schema_rules::{Shape, keyword_named, shape_of};

/// The schema at the end of the tokens, one after the other. Takes no memory.
pub(crate) fn walk<'t>(root: &'t Tree, tokens: &[String]) -> Option<&'t Tree>
    ensures { option_map (λ t. view t.now) result ≡ walk shapes.One (map string_bytes tokens.now) (view root.now) }
{
    let mut here = root;
    let mut shape = Shape::One;
    for token in tokens {
        here = held_at(shape, token, here)?;
        shape = shape_at(shape, token);
    }
    match shape {
        Shape::One => Some(here),
        _ => None,
    }
}

/// The value that a token leads to, from a value of that shape. Takes no memory.
pub fn held_at<'t>(shape: Shape, token: &str, value: &'t Tree) -> Option<&'t Tree>
    ensures { option_map (λ t. view t.now) result ≡ held_at shape token.now (view value.now) }
{
    match value {
        Tree::Object(_) => match shape {
            Shape::One | Shape::Named => child_at(value, token),
            _ => None,
        },
        Tree::List(_) => match shape {
            Shape::Several => child_at(value, token),
            _ => None,
        },
        _ => None,
    }
}

/// The shape of that value: below a schema that of the keyword.
pub fn shape_at(shape: Shape, token: &str) -> Shape
    ensures { result ≡ shape_at shape token.now }
{
    match shape {
        Shape::One => shape_of(keyword_named(token)),
        _ => Shape::One,
    }
}
