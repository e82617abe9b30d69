//! Syntax that holds a `Vec` or a `Box`, made of its parts.
ghost use Rattle.std.specs.Prelude.{◌≡◌, IfOk};
ghost use Rattle.path_grammar.specs.Syntax.{length_of, logical_and, logical_not, logical_or, no_expressions};
ghost use Rattle.path_parse.specs.SyntaxView.{expression_view, expressions_view, operand_view, query_view, segments_view};

use crate::syntax::{Expr, Operand, Query, Segment};
use std::alloc::{AllocError, Global};

/// A query of these segments.
pub fn query(segments: Vec<Segment>) -> Query
    ensures { query_view result ≡ segments_view segments.items }
{
    Query { segments }
}

/// Some of these parts.
pub fn or(parts: Vec<Expr>) -> Expr
    ensures { expression_view result ≡ logical_or (expressions_view parts.items) }
{
    Expr::Or(parts)
}

/// All of these parts.
pub fn and(parts: Vec<Expr>) -> Expr
    ensures { expression_view result ≡ logical_and (expressions_view parts.items) }
{
    Expr::And(parts)
}

/// That the test does not hold.
pub fn not(alloc: Global, test: Expr) -> Result<Expr, AllocError>
    ensures { IfOk result (λ made. expression_view made ≡ logical_not (expression_view test)) }
{
    Ok(Expr::Not(Box::new(alloc, test)?))
}

/// The length of the operand's value.
pub fn length(alloc: Global, operand: Operand) -> Result<Operand, AllocError>
    ensures { IfOk result (λ made. operand_view made ≡ length_of (operand_view operand)) }
{
    Ok(Operand::Length(Box::new(alloc, operand)?))
}

/// The placeholder of a call that is left out.
pub fn nothing(alloc: Global) -> Expr
    ensures { expression_view result ≡ logical_or no_expressions }
{
    or(Vec::new(alloc))
}
