//! Comparables and calls of functions (RFC 9535, sections 2.3.5.1 and 2.4).
ghost use Rattle.std.specs.Prelude.{◌≡◌, option_map};
ghost use Rattle.doc_tree.specs.TreeView.{view};
ghost use Rattle.path_grammar.specs.Reading.{read_argument, read_comparable, read_expression, read_literal, read_no_query, read_nodes_argument, read_two_arguments, read_value_argument, skip};
ghost use Rattle.path_grammar.specs.Syntax.{count_of, json, value_of};
ghost use Rattle.path_parse.specs.Gives.{at_depth, Gives};
ghost use Rattle.path_parse.specs.SyntaxView.{expression_view, operand_view};
ghost use Rattle.path_words.specs.Part.{part_of};

use crate::make;
use crate::segments::{filter_query, query};
use crate::stop::Stop;
use crate::syntax::{Expr, Operand, Source};
use doc_tree::Tree;
use path_words::Part;
use path_words::characters::{after, after_word, begins_string, skip_blanks};
use path_words::numbers::number;
use path_words::operators::identifier;
use path_words::strings::string;
use std::alloc::Global;

/// `literal`
#[tactic(auto, unfolding(path_grammar::specs::Reading::read_literal))]
fn literal(alloc: Global, text: &[char]) -> Result<Part<'_, Tree>, Stop>
    ensures { Gives (part_of (λ t. json (view t))) result (read_literal text.now) }
{
    if begins_string(text) {
        let Some((name, rest)) = string(alloc, text)? else {
            return Err(Stop::Syntax);
        };
        return Ok(Part {
            value: Tree::Text(name),
            left_out: false,
            rest,
        });
    }
    if let Some(rest) = after_word(text, &['t', 'r', 'u', 'e']) {
        return Ok(Part {
            value: Tree::Bool(true),
            left_out: false,
            rest,
        });
    }
    if let Some(rest) = after_word(text, &['f', 'a', 'l', 's', 'e']) {
        return Ok(Part {
            value: Tree::Bool(false),
            left_out: false,
            rest,
        });
    }
    if let Some(rest) = after_word(text, &['n', 'u', 'l', 'l']) {
        return Ok(Part {
            value: Tree::Null,
            left_out: false,
            rest,
        });
    }
    let Some(found) = number(text) else {
        return Err(Stop::Syntax);
    };
    Ok(found)
}

/// The argument of `length` and the closing parenthesis.
#[cycle(parser)]
#[tactic(auto, unfolding(path_grammar::specs::Reading::read_value_argument))]
fn length_call(alloc: Global, depth: usize, text: &[char]) -> Result<Part<'_, Operand>, Stop>
    ensures { Gives (part_of operand_view) result (at_depth read_value_argument depth text.now) }
{
    let part = argument(alloc, depth, skip_blanks(text))?;
    let Some(rest) = after(skip_blanks(part.rest), ')') else {
        return Err(Stop::Syntax);
    };
    Ok(Part {
        value: make::length(alloc, part.value)?,
        left_out: part.left_out,
        rest,
    })
}

/// The argument of `count` and the closing parenthesis.
#[cycle(parser)]
#[tactic(auto, unfolding(path_grammar::specs::Reading::read_nodes_argument))]
fn count_call(alloc: Global, depth: usize, text: &[char]) -> Result<Part<'_, Operand>, Stop>
    ensures { Gives (part_of operand_view) result (at_depth read_nodes_argument depth count_of text.now) }
{
    let part = filter_query(alloc, depth, skip_blanks(text))?;
    let Some(rest) = after(skip_blanks(part.rest), ')') else {
        return Err(Stop::Syntax);
    };
    Ok(Part {
        value: Operand::Count(part.value),
        left_out: part.left_out,
        rest,
    })
}

/// The argument of `value` and the closing parenthesis.
#[cycle(parser)]
#[tactic(auto, unfolding(path_grammar::specs::Reading::read_nodes_argument))]
fn value_call(alloc: Global, depth: usize, text: &[char]) -> Result<Part<'_, Operand>, Stop>
    ensures { Gives (part_of operand_view) result (at_depth read_nodes_argument depth value_of text.now) }
{
    let part = filter_query(alloc, depth, skip_blanks(text))?;
    let Some(rest) = after(skip_blanks(part.rest), ')') else {
        return Err(Stop::Syntax);
    };
    Ok(Part {
        value: Operand::ValueOf(part.value),
        left_out: part.left_out,
        rest,
    })
}

/// What follows an argument and the blanks around it.
#[cycle(parser)]
fn after_argument(alloc: Global, depth: usize, text: &[char]) -> Result<&[char], Stop>
    ensures { Gives (λ rest. rest.now) result (option_map (λ x. skip x.2) (read_argument depth (skip text.now))) }
{
    let part = argument(alloc, depth, skip_blanks(text))?;
    Ok(skip_blanks(part.rest))
}

/// The arguments of `match` or `search` and the closing parenthesis. The call is left out.
#[cycle(parser)]
#[tactic(auto, unfolding(path_grammar::specs::Reading::read_two_arguments))]
pub fn two_arguments(alloc: Global, depth: usize, text: &[char]) -> Result<Part<'_, Expr>, Stop>
    ensures { Gives (part_of expression_view) result (at_depth read_two_arguments depth text.now) }
{
    let Some(rest) = after(after_argument(alloc, depth, text)?, ',') else {
        return Err(Stop::Syntax);
    };
    let Some(rest) = after(after_argument(alloc, depth, rest)?, ')') else {
        return Err(Stop::Syntax);
    };
    Ok(Part {
        value: make::nothing(alloc),
        left_out: true,
        rest,
    })
}

/// `comparable` that is no query
#[cycle(parser)]
#[tactic(auto, unfolding(path_grammar::specs::Reading::read_no_query))]
pub fn no_query(alloc: Global, depth: usize, text: &[char]) -> Result<Part<'_, Operand>, Stop>
    ensures { Gives (part_of operand_view) result (at_depth read_no_query depth text.now) }
{
    if let Some(rest) = after_word(text, &['l', 'e', 'n', 'g', 't', 'h', '(']) {
        return length_call(alloc, depth, rest);
    }
    if let Some(rest) = after_word(text, &['c', 'o', 'u', 'n', 't', '(']) {
        return count_call(alloc, depth, rest);
    }
    if let Some(rest) = after_word(text, &['v', 'a', 'l', 'u', 'e', '(']) {
        return value_call(alloc, depth, rest);
    }
    let part = literal(alloc, text)?;
    Ok(Part {
        value: Operand::Literal(part.value),
        left_out: part.left_out,
        rest: part.rest,
    })
}

/// `comparable`
#[cycle(parser)]
#[tactic(auto, unfolding(path_grammar::specs::Reading::read_comparable))]
pub fn comparable(alloc: Global, depth: usize, text: &[char]) -> Result<Part<'_, Operand>, Stop>
    ensures { Gives (part_of operand_view) result (at_depth read_comparable depth text.now) }
{
    let Some((from_root, rest)) = identifier(text) else {
        return no_query(alloc, depth, text);
    };
    let part = query(alloc, depth, rest)?;
    if !part.singular {
        return Err(Stop::Syntax);
    }
    let source = Source {
        from_root,
        query: part.value,
    };
    Ok(Part {
        value: Operand::Single(source),
        left_out: part.left_out,
        rest: part.rest,
    })
}

/// An argument of ValueType (section 2.4.3), at most `depth` calls, parentheses and filters deep.
#[cycle(parser)]
#[tactic(auto, unfolding(path_grammar::specs::Reading::read_argument))]
fn argument(alloc: Global, depth: usize, text: &[char]) -> Result<Part<'_, Operand>, Stop>
    ensures { Gives (part_of operand_view) result (read_argument depth text.now) }
{
    if depth == 0 {
        return Err(Stop::Syntax);
    }
    comparable(alloc, depth - 1, text)
}
