//! Segments and queries (RFC 9535, sections 2.1.1 and 2.5).
ghost use Rattle.std.specs.Prelude.{◌≡◌};
ghost use Rattle.path_grammar.specs.Reading.{read_after_dots, read_argument, read_dotted, read_expression, read_filter_query, read_query, read_segment};
ghost use Rattle.path_parse.specs.Gives.{at_depth, Gives, path_of, segment_of, source_of};
ghost use Rattle.path_parse.specs.SyntaxView.{query_view, selectors_view};

use crate::make;
use crate::path_part::PathPart;
use crate::selectors::bracketed;
use crate::stop::Stop;
use crate::syntax::{Query, Segment, Selector, Source};
use path_words::characters::{after, after_doubled, begins_segment, skip_blanks};
use path_words::names::shorthand;
use path_words::operators::identifier;
use std::alloc::Global;

/// `wildcard-selector` or `member-name-shorthand`, after one dot or two
#[tactic(auto, unfolding(path_grammar::specs::Reading::read_dotted))]
fn dotted(alloc: Global, text: &[char]) -> Result<PathPart<'_, Vec<Selector>>, Stop>
    ensures { Gives (path_of (λ v. selectors_view v.items)) result (read_dotted text.now) }
{
    let mut value = Vec::new(alloc);
    if let Some(rest) = after(text, '*') {
        value.push(Selector::Wild)?;
        return Ok(PathPart {
            value,
            singular: false,
            left_out: false,
            rest,
        });
    }
    let Some((name, rest)) = shorthand(alloc, text)? else {
        return Err(Stop::Syntax);
    };
    value.push(Selector::Name(name))?;
    Ok(PathPart {
        value,
        singular: true,
        left_out: false,
        rest,
    })
}

/// What a `descendant-segment` has after its two dots.
#[cycle(parser)]
#[tactic(auto, unfolding(path_grammar::specs::Reading::read_after_dots))]
fn after_dots(
    alloc: Global,
    depth: usize,
    text: &[char],
) -> Result<PathPart<'_, Vec<Selector>>, Stop>
    ensures { Gives (path_of (λ v. selectors_view v.items)) result (at_depth read_after_dots depth text.now) }
{
    match after(text, '[') {
        Some(rest) => bracketed(alloc, depth, rest),
        None => dotted(alloc, text),
    }
}

/// `segment`
#[cycle(parser)]
#[tactic(auto, unfolding(path_grammar::specs::Reading::read_segment))]
fn segment(alloc: Global, depth: usize, text: &[char]) -> Result<PathPart<'_, Segment>, Stop>
    ensures { Gives segment_of result (at_depth read_segment depth text.now) }
{
    if let Some(rest) = after_doubled(text, '.') {
        let part = after_dots(alloc, depth, rest)?;
        let value = Segment {
            descend: true,
            selectors: part.value,
        };
        return Ok(PathPart {
            value,
            singular: false,
            left_out: part.left_out,
            rest: part.rest,
        });
    }
    let part = if let Some(rest) = after(text, '.') {
        dotted(alloc, rest)?
    } else if let Some(rest) = after(text, '[') {
        bracketed(alloc, depth, rest)?
    } else {
        return Err(Stop::Syntax);
    };
    let value = Segment {
        descend: false,
        selectors: part.value,
    };
    Ok(PathPart {
        value,
        singular: part.singular,
        left_out: part.left_out,
        rest: part.rest,
    })
}

/// The segments of a query, after its `$` or `@`.
#[cycle(parser)]
pub fn query(alloc: Global, depth: usize, text: &[char]) -> Result<PathPart<'_, Query>, Stop>
    ensures { Gives (path_of query_view) result (at_depth read_query depth text.now) }
{
    let mut found = Vec::new(alloc);
    let mut singular = true;
    let mut left_out = false;
    let mut rest = text;
    for _ in 0..text.len() + 1 {
        let here = skip_blanks(rest);
        if !begins_segment(here) {
            return Ok(PathPart {
                value: make::query(found),
                singular,
                left_out,
                rest,
            });
        }
        let part = segment(alloc, depth, here)?;
        found.push(part.value)?;
        singular &= part.singular;
        left_out |= part.left_out;
        rest = part.rest;
    }
    Err(Stop::Syntax)
}

/// `filter-query`
#[cycle(parser)]
#[tactic(auto, unfolding(path_grammar::specs::Reading::read_filter_query))]
pub fn filter_query(
    alloc: Global,
    depth: usize,
    text: &[char],
) -> Result<PathPart<'_, Source>, Stop>
    ensures { Gives source_of result (at_depth read_filter_query depth text.now) }
{
    let Some((from_root, rest)) = identifier(text) else {
        return Err(Stop::Syntax);
    };
    let part = query(alloc, depth, rest)?;
    let value = Source {
        from_root,
        query: part.value,
    };
    Ok(PathPart {
        value,
        singular: part.singular,
        left_out: part.left_out,
        rest: part.rest,
    })
}
