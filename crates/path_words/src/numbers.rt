//! Number literals, and whether the profile leaves them out (RFC 9535, section 2.3.5.1).
ghost use Rattle.std.specs.Prelude.{◌≡◌, option_map};
ghost use Rattle.doc_tree.specs.TreeView.{view};
ghost use Rattle.path_grammar.specs.Characters.{is_digit};
ghost use Rattle.path_grammar.specs.Reading.{after_e, read_number, read_run};
ghost use Rattle.path_grammar.specs.Syntax.{json};
ghost use Rattle.path_words.specs.CappedNumbers.{after_digits, number_within, pass_exponent, pass_fraction, passed};
ghost use Rattle.path_words.specs.CappedNumbers.{read_capped_magnitude, read_capped_number, read_capped_positive, read_capped_signed};
ghost use Rattle.path_words.specs.Part.{part_of};

use crate::characters::{after, is_digit};
use crate::integers::capped_digits;
use crate::part::Part;
use doc_tree::Tree;

/// What follows the digits that the text begins with.
fn skip_digits(text: &[char]) -> &[char]
    ensures { result.now ≡ (read_run is_digit text.now).1 }
{
    let mut rest = text;
    while let [first, more @ ..] = rest {
        if !is_digit(*first) {
            break;
        }
        rest = more;
    }
    rest
}

/// What follows one or more digits.
fn after_digits(text: &[char]) -> Option<&[char]>
    ensures { option_map (λ rest. rest.now) result ≡ after_digits text.now }
{
    match text {
        [first, rest @ ..] if is_digit(*first) => Some(skip_digits(rest)),
        _ => None,
    }
}

fn passed(text: &[char]) -> Option<(bool, &[char])>
    ensures { option_map (λ x. (x.0, x.1.now)) result ≡ passed text.now }
{
    let rest = after_digits(text)?;
    Some((true, rest))
}

/// Whether there is a `frac`, and what follows it.
#[tactic(auto, unfolding(crate::specs::CappedNumbers::pass_fraction))]
fn fraction(text: &[char]) -> Option<(bool, &[char])>
    ensures { option_map (λ x. (x.0, x.1.now)) result ≡ pass_fraction text.now }
{
    match after(text, '.') {
        Some(rest) => passed(rest),
        None => Some((false, text)),
    }
}

fn after_e(text: &[char]) -> Option<&[char]>
    ensures { option_map (λ rest. rest.now) result ≡ after_e text.now }
{
    match text {
        [first, rest @ ..] if *first == 'e' || *first == 'E' => Some(rest),
        _ => None,
    }
}

/// Whether there is an `exp`, and what follows it.
#[tactic(auto, unfolding(crate::specs::CappedNumbers::pass_exponent))]
fn exponent(text: &[char]) -> Option<(bool, &[char])>
    ensures { option_map (λ x. (x.0, x.1.now)) result ≡ pass_exponent text.now }
{
    let Some(rest) = after_e(text) else {
        return Some((false, text));
    };
    if let Some(rest) = after(rest, '+') {
        return passed(rest);
    }
    if let Some(rest) = after(rest, '-') {
        return passed(rest);
    }
    passed(rest)
}

fn positive(text: &[char]) -> Option<(u128, &[char])>
    ensures { option_map (λ x. (x.0, x.1.now)) result ≡ read_capped_positive text.now }
{
    match text {
        [first, rest @ ..] if '1' <= *first && *first <= '9' => Some(capped_digits(
            *first as u128 - '0' as u128,
            rest,
        )),
        _ => None,
    }
}

#[tactic(auto, unfolding(crate::specs::CappedNumbers::read_capped_magnitude))]
fn magnitude(text: &[char]) -> Option<(u128, &[char])>
    ensures { option_map (λ x. (x.0, x.1.now)) result ≡ read_capped_magnitude text.now }
{
    match after(text, '0') {
        Some(rest) => Some((0, rest)),
        None => positive(text),
    }
}

/// Whether there is a `-`, the size, and what follows them.
#[tactic(auto, unfolding(crate::specs::CappedNumbers::read_capped_signed))]
fn signed(text: &[char]) -> Option<(bool, u128, &[char])>
    ensures { option_map (λ x. (x.0, x.1, x.2.now)) result ≡ read_capped_signed text.now }
{
    match after(text, '-') {
        Some(rest) => {
            let (size, rest) = magnitude(rest)?;
            Some((true, size, rest))
        }
        None => {
            let (size, rest) = magnitude(text)?;
            Some((false, size, rest))
        }
    }
}

/// The number as a tree; None if the profile leaves it out.
fn within(decimal: bool, negative: bool, size: u128) -> Option<i64>
    ensures { result ≡ number_within decimal negative size }
{
    if decimal {
        return None;
    }
    if negative {
        return if size <= 1 << 63 {
            Some(-(size as i128) as i64)
        } else {
            None
        };
    }
    if size < 1 << 63 {
        Some(size as i64)
    } else {
        None
    }
}

#[tactic(auto, unfolding(crate::specs::CappedNumbers::read_capped_number))]
fn capped_number(text: &[char]) -> Option<Part<'_, Tree>>
    ensures { option_map (part_of (λ t. json (view t))) result ≡ read_capped_number text.now }
{
    let (negative, size, rest) = signed(text)?;
    let (with_fraction, rest) = fraction(rest)?;
    let (with_exponent, rest) = exponent(rest)?;
    Some(
        match within(with_fraction | with_exponent, negative, size) {
            Some(number) => Part {
                value: Tree::Int(number),
                left_out: false,
                rest,
            },
            None => Part {
                value: Tree::Null,
                left_out: true,
                rest,
            },
        },
    )
}

/// The `number` that the text begins with, and what follows it; `null` represents one that the profile leaves out: with
/// a fraction or an exponent, or beyond 64 bits.
pub fn number(text: &[char]) -> Option<Part<'_, Tree>>
    ensures { option_map (part_of (λ t. json (view t))) result ≡ read_number text.now }
{
    capped_number(text)
}
