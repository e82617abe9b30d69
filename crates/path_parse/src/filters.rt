//! Logical expressions of filters (RFC 9535, section 2.3.5.1).
ghost use Rattle.std.specs.Prelude.{length, suc};
ghost use Rattle.path_grammar.specs.Reading.{skip};
ghost use Rattle.path_grammar.specs.Syntax.{logical_and, logical_or};
ghost use Rattle.path_grammar.specs.Reading.{read_basic, read_comparison, read_expression, read_from_query, read_in_parentheses};
ghost use Rattle.path_grammar.specs.Reading.{read_logical_and, read_logical_or, read_more_conjuncts, read_more_disjuncts, read_no_query, read_test};
ghost use Rattle.path_parse.specs.Gives.{at_depth, compared_on, Gives, joined, negated};
ghost use Rattle.path_parse.specs.SyntaxView.{expression_view, expressions_view, operand_view};
ghost use Rattle.path_words.specs.Part.{part_of};

use crate::make;
use crate::operands::{comparable, no_query, two_arguments};
use crate::segments::filter_query;
use crate::stop::Stop;
use crate::syntax::{Expr, Operand};
use path_grammar::CompareOp;
use path_words::Part;
use path_words::characters::{after, after_doubled, after_word, begins_query, skip_blanks};
use path_words::operators::comparison_op;
use std::alloc::Global;

/// `logical-expr` after an opening parenthesis, and the closing one.
#[cycle(parser)]
#[tactic(auto, unfolding(path_grammar::specs::Reading::read_in_parentheses))]
fn in_parentheses(alloc: Global, depth: usize, text: &[char]) -> Result<Part<'_, Expr>, Stop>
    ensures { Gives (part_of expression_view) result (at_depth read_in_parentheses depth text.now) }
{
    let mut part = expression(alloc, depth, skip_blanks(text))?;
    let Some(rest) = after(skip_blanks(part.rest), ')') else {
        return Err(Stop::Syntax);
    };
    part.rest = rest;
    Ok(part)
}

/// What may be negated: parentheses, a query, a call of `match` or `search`.
#[cycle(parser)]
#[tactic(auto, unfolding(path_grammar::specs::Reading::read_test))]
fn test(alloc: Global, depth: usize, text: &[char]) -> Result<Part<'_, Expr>, Stop>
    ensures { Gives (part_of expression_view) result (at_depth read_test depth text.now) }
{
    if let Some(rest) = after(text, '(') {
        return in_parentheses(alloc, depth, rest);
    }
    if let Some(rest) = after_word(text, &['m', 'a', 't', 'c', 'h', '(']) {
        return two_arguments(alloc, depth, rest);
    }
    if let Some(rest) = after_word(text, &['s', 'e', 'a', 'r', 'c', 'h', '(']) {
        return two_arguments(alloc, depth, rest);
    }
    let part = filter_query(alloc, depth, text)?;
    Ok(Part {
        value: Expr::Exists(part.value),
        left_out: part.left_out,
        rest: part.rest,
    })
}

/// The right side of a comparison, after its operator.
#[cycle(parser)]
#[tactic(auto, unfolding(path_grammar::specs::Reading::read_comparison))]
fn comparison(
    alloc: Global,
    depth: usize,
    left: Operand,
    left_out: bool,
    op: CompareOp,
    text: &[char],
) -> Result<Part<'_, Expr>, Stop>
    ensures { Gives (part_of expression_view) result
        (at_depth read_comparison depth (operand_view left) left_out op text.now) }
{
    let right = comparable(alloc, depth, skip_blanks(text))?;
    let value = Expr::Compare {
        op,
        left,
        right: right.value,
    };
    Ok(Part {
        value,
        left_out: left_out | right.left_out,
        rest: right.rest,
    })
}

/// What begins with a query: a comparison, or the query as a test.
#[cycle(parser)]
#[inline(never)]
#[tactic(auto, unfolding(path_grammar::specs::Reading::read_from_query))]
fn from_query(alloc: Global, depth: usize, text: &[char]) -> Result<Part<'_, Expr>, Stop>
    ensures { Gives (part_of expression_view) result (at_depth read_from_query depth text.now) }
{
    let part = filter_query(alloc, depth, text)?;
    let Some((op, more)) = comparison_op(skip_blanks(part.rest)) else {
        return Ok(Part {
            value: Expr::Exists(part.value),
            left_out: part.left_out,
            rest: part.rest,
        });
    };
    if !part.singular {
        return Err(Stop::Syntax);
    }
    comparison(
        alloc,
        depth,
        Operand::Single(part.value),
        part.left_out,
        op,
        more,
    )
}

/// What is negated, after its `!`.
#[cycle(parser)]
#[inline(never)]
fn negation(alloc: Global, depth: usize, text: &[char]) -> Result<Part<'_, Expr>, Stop>
    ensures { Gives (part_of expression_view) result (negated (at_depth read_test depth (skip text.now))) }
{
    let part = test(alloc, depth, skip_blanks(text))?;
    Ok(Part {
        value: make::not(alloc, part.value)?,
        left_out: part.left_out,
        rest: part.rest,
    })
}

/// A comparison whose left side is no query.
#[cycle(parser)]
#[inline(never)]
fn from_no_query(alloc: Global, depth: usize, text: &[char]) -> Result<Part<'_, Expr>, Stop>
    ensures { Gives (part_of expression_view) result
        (compared_on (at_depth read_comparison depth) (at_depth read_no_query depth text.now)) }
{
    let left = no_query(alloc, depth, text)?;
    let Some((op, rest)) = comparison_op(skip_blanks(left.rest)) else {
        return Err(Stop::Syntax);
    };
    comparison(alloc, depth, left.value, left.left_out, op, rest)
}

/// `basic-expr`
#[cycle(parser)]
#[tactic(auto, unfolding(path_grammar::specs::Reading::read_basic))]
fn basic(alloc: Global, depth: usize, text: &[char]) -> Result<Part<'_, Expr>, Stop>
    ensures { Gives (part_of expression_view) result (at_depth read_basic depth text.now) }
{
    if let Some(rest) = after(text, '!') {
        return negation(alloc, depth, rest);
    }
    if begins_query(text) {
        return from_query(alloc, depth, text);
    }
    if let Some(rest) = after(text, '(') {
        return in_parentheses(alloc, depth, rest);
    }
    if let Some(rest) = after_word(text, &['m', 'a', 't', 'c', 'h', '(']) {
        return two_arguments(alloc, depth, rest);
    }
    if let Some(rest) = after_word(text, &['s', 'e', 'a', 'r', 'c', 'h', '(']) {
        return two_arguments(alloc, depth, rest);
    }
    from_no_query(alloc, depth, text)
}

/// The further parts of `logical-and-expr`, each after `&&`.
#[cycle(parser)]
fn more_conjuncts(alloc: Global, depth: usize, text: &[char]) -> Result<Part<'_, Vec<Expr>>, Stop>
    ensures { Gives (part_of (λ v. expressions_view v.items)) result
        (at_depth read_more_conjuncts depth (suc (length text.now)) text.now) }
{
    let mut found = Vec::new(alloc);
    let mut left_out = false;
    let mut rest = text;
    for _ in 0..text.len() + 1 {
        let Some(next) = after_doubled(skip_blanks(rest), '&') else {
            return Ok(Part {
                value: found,
                left_out,
                rest,
            });
        };
        let part = basic(alloc, depth, skip_blanks(next))?;
        found.push(part.value)?;
        left_out |= part.left_out;
        rest = part.rest;
    }
    Err(Stop::Syntax)
}

/// The part that was read, and the further ones.
#[cycle(parser)]
#[inline(never)]
#[tactic(auto, using(crate::proofs::Loops::joins))]
fn with_conjuncts<'t>(
    alloc: Global,
    depth: usize,
    first: Part<'t, Expr>,
) -> Result<Part<'t, Expr>, Stop>
    ensures { Gives (part_of expression_view) result (joined logical_and (part_of expression_view first.entry)
        (at_depth read_more_conjuncts depth (suc (length first.entry.rest.now)) first.entry.rest.now)) }
{
    let mut more = more_conjuncts(alloc, depth, first.rest)?;
    let left_out = first.left_out | more.left_out;
    if more.value.is_empty() {
        return Ok(Part {
            value: first.value,
            left_out,
            rest: more.rest,
        });
    }
    more.value.insert(0, first.value)?;
    Ok(Part {
        value: make::and(more.value),
        left_out,
        rest: more.rest,
    })
}

/// `logical-and-expr`; one part alone is that part itself
#[cycle(parser)]
#[tactic(auto, unfolding(path_grammar::specs::Reading::read_logical_and, path_grammar::specs::Reading::read_parts), using(crate::proofs::Loops::joins))]
fn logical_and(alloc: Global, depth: usize, text: &[char]) -> Result<Part<'_, Expr>, Stop>
    ensures { Gives (part_of expression_view) result (at_depth read_logical_and depth text.now) }
{
    let first = basic(alloc, depth, text)?;
    with_conjuncts(alloc, depth, first)
}

/// The further parts of `logical-or-expr`, each after `||`.
#[cycle(parser)]
fn more_disjuncts(alloc: Global, depth: usize, text: &[char]) -> Result<Part<'_, Vec<Expr>>, Stop>
    ensures { Gives (part_of (λ v. expressions_view v.items)) result
        (at_depth read_more_disjuncts depth (suc (length text.now)) text.now) }
{
    let mut found = Vec::new(alloc);
    let mut left_out = false;
    let mut rest = text;
    for _ in 0..text.len() + 1 {
        let Some(next) = after_doubled(skip_blanks(rest), '|') else {
            return Ok(Part {
                value: found,
                left_out,
                rest,
            });
        };
        let part = logical_and(alloc, depth, skip_blanks(next))?;
        found.push(part.value)?;
        left_out |= part.left_out;
        rest = part.rest;
    }
    Err(Stop::Syntax)
}

/// The part that was read, and the further ones.
#[cycle(parser)]
#[inline(never)]
#[tactic(auto, using(crate::proofs::Loops::joins))]
fn with_disjuncts<'t>(
    alloc: Global,
    depth: usize,
    first: Part<'t, Expr>,
) -> Result<Part<'t, Expr>, Stop>
    ensures { Gives (part_of expression_view) result (joined logical_or (part_of expression_view first.entry)
        (at_depth read_more_disjuncts depth (suc (length first.entry.rest.now)) first.entry.rest.now)) }
{
    let mut more = more_disjuncts(alloc, depth, first.rest)?;
    let left_out = first.left_out | more.left_out;
    if more.value.is_empty() {
        return Ok(Part {
            value: first.value,
            left_out,
            rest: more.rest,
        });
    }
    more.value.insert(0, first.value)?;
    Ok(Part {
        value: make::or(more.value),
        left_out,
        rest: more.rest,
    })
}

/// `logical-or-expr`; one part alone is that part itself
#[cycle(parser)]
#[tactic(auto, unfolding(path_grammar::specs::Reading::read_logical_or, path_grammar::specs::Reading::read_parts), using(crate::proofs::Loops::joins))]
fn logical_or(alloc: Global, depth: usize, text: &[char]) -> Result<Part<'_, Expr>, Stop>
    ensures { Gives (part_of expression_view) result (at_depth read_logical_or depth text.now) }
{
    let first = logical_and(alloc, depth, text)?;
    with_disjuncts(alloc, depth, first)
}

/// `logical-expr`, at most `depth` calls, parentheses and filters deep.
#[cycle(parser)]
#[tactic(auto, unfolding(path_grammar::specs::Reading::read_expression))]
pub fn expression(alloc: Global, depth: usize, text: &[char]) -> Result<Part<'_, Expr>, Stop>
    ensures { Gives (part_of expression_view) result (read_expression depth text.now) }
{
    if depth == 0 {
        return Err(Stop::Syntax);
    }
    logical_or(alloc, depth - 1, text)
}
