//! Integers of indexes and slices (RFC 9535, sections 2.3.3.1 and 2.3.4.1).
ghost use Rattle.std.specs.Prelude.{◌≡◌, ℕ, ◌<◌, option_map, Some, None, MatchOption};
ghost use Rattle.path_grammar.specs.Reading.{read_digits, read_int, read_positive, read_slice_bound, read_slice_step};
ghost use Rattle.path_words.specs.CappedNumbers.{read_capped_digits, IsCapped};

use crate::characters::{after, begins_int, is_digit, skip_blanks};

/// From here on a size is only known to be at least this.
const CAP: u128 = 1 << 64;

/// Integers of queries lie strictly between -2^53 and 2^53, the exact integers of I-JSON (RFC 9535, section 2.1).
const EXACT: u128 = 1 << 53;

/// The number of the digits that the text begins with, after the first one, up to `CAP`, and what follows them.
pub fn capped_digits(first: u128, text: &[char]) -> (u128, &[char])
    requires { first < 10 }
    ensures { (result.0, result.1.now) ≡ read_capped_digits first text.now }
{
    let mut number = first;
    let mut rest = text;
    while let [digit, more @ ..] = rest {
        if !is_digit(*digit) {
            break;
        }
        if number < CAP {
            number = number * 10 + (*digit as u128 - '0' as u128);
        }
        rest = more;
    }
    (number, rest)
}

fn digits(first: u128, text: &[char]) -> (u128, &[char])
    requires { first < 10 }
    ensures size { IsCapped result.0 (read_digits first text.now).0 }
    ensures rest { result.1.now ≡ (read_digits first text.now).1 }
{
    capped_digits(first, text)
}

fn positive(text: &[char]) -> Option<(u128, &[char])>
    ensures { MatchOption result (read_positive text.now ≡ None) (λ x. (m : ℕ) × IsCapped x.0 m × (read_positive text.now ≡ Some (m, x.1.now))) }
{
    match text {
        [first, rest @ ..] if '1' <= *first && *first <= '9' => Some(digits(
            *first as u128 - '0' as u128,
            rest,
        )),
        _ => None,
    }
}

/// The `int` that the text begins with, and what follows it. Also None if it is no exact integer of I-JSON.
#[tactic(auto, unfolding(path_grammar::specs::Reading::read_int))]
pub fn int(text: &[char]) -> Option<(i64, &[char])>
    ensures { option_map (λ x. (x.0, x.1.now)) result ≡ read_int text.now }
{
    if let Some(rest) = after(text, '0') {
        return Some((0, rest));
    }
    if let Some(rest) = after(text, '-') {
        let (number, rest) = positive(rest)?;
        if number < EXACT {
            return Some((-(number as i64), rest));
        }
        return None;
    }
    let (number, rest) = positive(text)?;
    if number < EXACT {
        Some((number as i64, rest))
    } else {
        None
    }
}

/// The start or end of a slice, which may be absent, and what follows it and the blanks after it.
#[tactic(auto, unfolding(path_grammar::specs::Reading::read_slice_bound))]
pub fn slice_bound(text: &[char]) -> Option<(Option<i64>, &[char])>
    ensures { option_map (λ x. (x.0, x.1.now)) result ≡ read_slice_bound text.now }
{
    if !begins_int(text) {
        return Some((None, text));
    }
    let (number, rest) = int(text)?;
    Some((Some(number), skip_blanks(rest)))
}

/// The step of a slice with its colon, both of which may be absent, and what follows it.
#[tactic(auto, unfolding(path_grammar::specs::Reading::read_slice_step))]
pub fn slice_step(text: &[char]) -> Option<(Option<i64>, &[char])>
    ensures { option_map (λ x. (x.0, x.1.now)) result ≡ read_slice_step text.now }
{
    let Some(rest) = after(text, ':') else {
        return Some((None, text));
    };
    let here = skip_blanks(rest);
    if !begins_int(here) {
        return Some((None, rest));
    }
    let (number, rest) = int(here)?;
    Some((Some(number), rest))
}
