//! Operators of comparisons, and what a query begins with (RFC 9535, section 2.3.5.1).
ghost use Rattle.std.specs.Prelude.{◌≡◌, option_map};
ghost use Rattle.path_grammar.specs.Reading.{read_comparison_op, read_identifier};

use crate::characters::after;
use path_grammar::CompareOp;

/// The `comparison-op` that the text begins with, and what follows it.
#[tactic(auto, unfolding(path_grammar::specs::Reading::read_comparison_op))]
pub fn comparison_op(text: &[char]) -> Option<(CompareOp, &[char])>
    ensures { option_map (λ x. (x.0, x.1.now)) result ≡ read_comparison_op text.now }
{
    if let Some(rest) = after(text, '=') {
        let rest = after(rest, '=')?;
        return Some((CompareOp::Equal, rest));
    }
    if let Some(rest) = after(text, '!') {
        let rest = after(rest, '=')?;
        return Some((CompareOp::NotEqual, rest));
    }
    if let Some(rest) = after(text, '<') {
        return Some(match after(rest, '=') {
            Some(rest) => (CompareOp::LessEqual, rest),
            None => (CompareOp::Less, rest),
        });
    }
    let rest = after(text, '>')?;
    Some(match after(rest, '=') {
        Some(rest) => (CompareOp::GreaterEqual, rest),
        None => (CompareOp::Greater, rest),
    })
}

/// Whether a query begins at the root (`$`) or at the current node (`@`), and what follows that.
pub fn identifier(text: &[char]) -> Option<(bool, &[char])>
    ensures { option_map (λ x. (x.0, x.1.now)) result ≡ read_identifier text.now }
{
    if let Some(rest) = after(text, '@') {
        return Some((false, rest));
    }
    let rest = after(text, '$')?;
    Some((true, rest))
}
