//! Selectors and brackets (RFC 9535, sections 2.3 and 2.5.1.1).
ghost use Rattle.std.specs.Prelude.{◌≡◌, option_map, length, suc};
ghost use Rattle.path_grammar.specs.Reading.{after_singular, is_singular_selector, read_argument, read_bracketed, read_expression};
ghost use Rattle.path_grammar.specs.Reading.{read_index_or_slice, read_more_selectors, read_plain_selector, read_selector, read_slice_from};
ghost use Rattle.path_parse.specs.Gives.{at_depth, before_selectors, Gives, path_of};
ghost use Rattle.path_parse.specs.SyntaxView.{selector_view, selectors_view};
ghost use Rattle.path_words.specs.Part.{part_of};

use crate::filters::expression;
use crate::path_part::PathPart;
use crate::stop::Stop;
use crate::syntax::Selector;
use path_words::Part;
use path_words::characters::{after, begins_string, skip_blanks, starts_with_blank};
use path_words::integers::{int, slice_bound, slice_step};
use path_words::strings::string;
use std::alloc::Global;

/// A slice after its first colon.
#[tactic(auto, unfolding(path_grammar::specs::Reading::read_slice_from))]
fn slice(start: Option<i64>, text: &[char]) -> Option<(Selector, &[char])>
    ensures { option_map (λ x. (selector_view x.0, x.1.now)) result ≡ read_slice_from start text.now }
{
    let (stop, rest) = slice_bound(skip_blanks(text))?;
    let (step, rest) = slice_step(rest)?;
    Some((Selector::Slice { start, stop, step }, rest))
}

/// `index-selector` or `slice-selector`
#[tactic(auto, unfolding(path_grammar::specs::Reading::read_index_or_slice))]
fn index_or_slice(text: &[char]) -> Option<(Selector, &[char])>
    ensures { option_map (λ x. (selector_view x.0, x.1.now)) result ≡ read_index_or_slice text.now }
{
    if let Some(rest) = after(text, ':') {
        return slice(None, rest);
    }
    let (number, rest) = int(text)?;
    if let Some(more) = after(skip_blanks(rest), ':') {
        return slice(Some(number), more);
    }
    Some((Selector::Index(number), rest))
}

/// `name-selector`, `index-selector` or `slice-selector`
#[tactic(auto, unfolding(path_grammar::specs::Reading::read_plain_selector))]
fn plain_selector(alloc: Global, text: &[char]) -> Result<(Selector, &[char]), Stop>
    ensures { Gives (λ x. (selector_view x.0, x.1.now)) result (read_plain_selector text.now) }
{
    if begins_string(text) {
        let Some((name, rest)) = string(alloc, text)? else {
            return Err(Stop::Syntax);
        };
        return Ok((Selector::Name(name), rest));
    }
    let Some(found) = index_or_slice(text) else {
        return Err(Stop::Syntax);
    };
    Ok(found)
}

/// `selector`
#[cycle(parser)]
#[tactic(auto, unfolding(path_grammar::specs::Reading::read_selector))]
fn selector(alloc: Global, depth: usize, text: &[char]) -> Result<Part<'_, Selector>, Stop>
    ensures { Gives (part_of selector_view) result (at_depth read_selector depth text.now) }
{
    if let Some(rest) = after(text, '*') {
        return Ok(Part {
            value: Selector::Wild,
            left_out: false,
            rest,
        });
    }
    if let Some(rest) = after(text, '?') {
        let part = expression(alloc, depth, skip_blanks(rest))?;
        return Ok(Part {
            value: Selector::Filter(part.value),
            left_out: part.left_out,
            rest: part.rest,
        });
    }
    let (value, rest) = plain_selector(alloc, text)?;
    Ok(Part {
        value,
        left_out: false,
        rest,
    })
}

/// The further selectors up to the closing bracket, put at the end of those that were found.
#[cycle(parser)]
fn more_selectors(
    alloc: Global,
    depth: usize,
    found: Vec<Selector>,
    left_out: bool,
    text: &[char],
) -> Result<Part<'_, Vec<Selector>>, Stop>
    ensures { Gives (part_of (λ v. selectors_view v.items)) result (before_selectors found.items left_out
        (at_depth read_more_selectors depth (suc (length text.now)) text.now)) }
{
    let mut found = found;
    let mut left_out = left_out;
    let mut rest = text;
    for _ in 0..text.len() + 1 {
        let here = skip_blanks(rest);
        if let Some(rest) = after(here, ']') {
            return Ok(Part {
                value: found,
                left_out,
                rest,
            });
        }
        let Some(next) = after(here, ',') else {
            return Err(Stop::Syntax);
        };
        let part = selector(alloc, depth, skip_blanks(next))?;
        found.push(part.value)?;
        left_out |= part.left_out;
        rest = part.rest;
    }
    Err(Stop::Syntax)
}

/// Whether a bracket of a singular query may hold it: a name or an index.
fn is_singular(selector: &Selector) -> bool
    ensures { result ≡ is_singular_selector (selector_view selector.now) }
{
    matches!(selector, Selector::Name(_) | Selector::Index(_))
}

/// The rest after the closing bracket, if the selector, read from `text`, is in a bracket of a singular query.
fn singular_end<'t>(text: &[char], selector: &Selector, rest: &'t [char]) -> Option<&'t [char]>
    ensures { option_map (λ end. end.now) result ≡ after_singular text.now (selector_view selector.now) rest.now }
{
    if starts_with_blank(text) {
        return None;
    }
    if is_singular(selector) {
        after(rest, ']')
    } else {
        None
    }
}

/// `bracketed-selection` after its `[`
#[cycle(parser)]
#[tactic(auto, unfolding(path_grammar::specs::Reading::read_bracketed))]
pub fn bracketed(
    alloc: Global,
    depth: usize,
    text: &[char],
) -> Result<PathPart<'_, Vec<Selector>>, Stop>
    ensures { Gives (path_of (λ v. selectors_view v.items)) result (at_depth read_bracketed depth text.now) }
{
    let first = selector(alloc, depth, skip_blanks(text))?;
    let end = singular_end(text, &first.value, first.rest);
    let mut found = Vec::new(alloc);
    found.push(first.value)?;
    if let Some(rest) = end {
        return Ok(PathPart {
            value: found,
            singular: true,
            left_out: first.left_out,
            rest,
        });
    }
    let all = more_selectors(alloc, depth, found, first.left_out, first.rest)?;
    Ok(PathPart {
        value: all.value,
        singular: false,
        left_out: all.left_out,
        rest: all.rest,
    })
}
