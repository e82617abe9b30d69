//! String literals (RFC 9535, section 2.3.1.1).
ghost use Rattle.std.specs.Prelude.{◌≡◌, ◌+◌, ◌*◌, ◌<◌, true, option_map, string_bytes, IfSome, IfOk};
ghost use Rattle.path_grammar.specs.Reading.{read_character, read_escaped, read_four_hex_digits, read_hex_digit, read_hex_escape};
ghost use Rattle.path_grammar.specs.Reading.{read_low_surrogate, read_quoted, read_short_escape, read_string, read_unescaped};
ghost use Rattle.path_grammar.specs.Strings.{escapable, hex_value, is_hex_digit, is_high_surrogate, is_low_surrogate, is_unescaped};

use crate::characters::{after, is_digit};
use std::alloc::{AllocError, Global};

/// `HEXDIG`, of either case
fn is_hex_digit(character: char) -> bool
    ensures { result ≡ is_hex_digit character }
{
    is_digit(character)
        || (('A' <= character && character <= 'F') || ('a' <= character && character <= 'f'))
}

/// What a hexadecimal digit counts.
fn hex_value(digit: char) -> u32
    requires { is_hex_digit digit ≡ true }
    ensures value { result ≡ hex_value digit }
    ensures small { result < 16 }
{
    if digit <= '9' {
        digit as u32 - '0' as u32
    } else if digit <= 'F' {
        digit as u32 - 'A' as u32 + 10
    } else {
        digit as u32 - 'a' as u32 + 10
    }
}

/// The number of a hexadecimal digit after digits with the value `above`.
fn hex_digit(above: u32, text: &[char]) -> Option<(u32, &[char])>
    requires { above < 4096 }
    ensures value { option_map (λ x. (x.0, x.1.now)) result ≡ read_hex_digit above text.now }
    ensures small { IfSome result (λ x. x.0 < above * 16 + 16) }
{
    match text {
        [first, rest @ ..] if is_hex_digit(*first) => Some((above * 16 + hex_value(*first), rest)),
        _ => None,
    }
}

#[tactic(auto, unfolding(path_grammar::specs::Reading::read_four_hex_digits))]
fn four_hex_digits(text: &[char]) -> Option<(u32, &[char])>
    ensures value { option_map (λ x. (x.0, x.1.now)) result ≡ read_four_hex_digits text.now }
    ensures small { IfSome result (λ x. x.0 < 65536) }
{
    let (number, rest) = hex_digit(0, text)?;
    let (number, rest) = hex_digit(number, rest)?;
    let (number, rest) = hex_digit(number, rest)?;
    hex_digit(number, rest)
}

fn is_high_surrogate(number: u32) -> bool
    ensures { result ≡ is_high_surrogate number }
{
    0xD800 <= number && number <= 0xDBFF
}

fn is_low_surrogate(number: u32) -> bool
    ensures { result ≡ is_low_surrogate number }
{
    0xDC00 <= number && number <= 0xDFFF
}

/// The character of the high surrogate and of the low one that has to follow.
#[tactic(auto, unfolding(path_grammar::specs::Reading::read_low_surrogate))]
fn low_surrogate(high: u32, text: &[char]) -> Option<(char, &[char])>
    requires { is_high_surrogate high ≡ true }
    ensures { option_map (λ x. (x.0, x.1.now)) result ≡ read_low_surrogate high text.now }
{
    let rest = after(text, '\\')?;
    let rest = after(rest, 'u')?;
    let (low, rest) = four_hex_digits(rest)?;
    if !is_low_surrogate(low) {
        return None;
    }
    let character = char::from_u32(0x10000 + (high - 0xD800) * 0x400 + (low - 0xDC00))?;
    Some((character, rest))
}

/// `hexchar`: what follows `\u`.
#[tactic(auto, unfolding(path_grammar::specs::Reading::read_hex_escape))]
fn hex_escape(text: &[char]) -> Option<(char, &[char])>
    ensures { option_map (λ x. (x.0, x.1.now)) result ≡ read_hex_escape text.now }
{
    let (number, rest) = four_hex_digits(text)?;
    if is_high_surrogate(number) {
        return low_surrogate(number, rest);
    }
    if is_low_surrogate(number) {
        return None;
    }
    let character = char::from_u32(number)?;
    Some((character, rest))
}

/// The character that is meant by one after a backslash, between two of this quote.
fn escapable(quote: char, character: char) -> Option<char>
    ensures { result ≡ escapable quote character }
{
    if character == quote {
        Some(quote)
    } else if character == 'b' {
        Some('\u{8}')
    } else if character == 'f' {
        Some('\u{c}')
    } else if character == 'n' {
        Some('\n')
    } else if character == 'r' {
        Some('\r')
    } else if character == 't' {
        Some('\t')
    } else if character == '/' {
        Some('/')
    } else if character == '\\' {
        Some('\\')
    } else {
        None
    }
}

fn short_escape(quote: char, text: &[char]) -> Option<(char, &[char])>
    ensures { option_map (λ x. (x.0, x.1.now)) result ≡ read_short_escape quote text.now }
{
    let [first, rest @ ..] = text else {
        return None;
    };
    let character = escapable(quote, *first)?;
    Some((character, rest))
}

/// What follows a backslash.
#[tactic(auto, unfolding(path_grammar::specs::Reading::read_escaped))]
fn escaped(quote: char, text: &[char]) -> Option<(char, &[char])>
    ensures { option_map (λ x. (x.0, x.1.now)) result ≡ read_escaped quote text.now }
{
    match after(text, 'u') {
        Some(rest) => hex_escape(rest),
        None => short_escape(quote, text),
    }
}

/// Whether the character is itself between two of this quote.
fn is_unescaped(quote: char, character: char) -> bool
    ensures { result ≡ is_unescaped quote character }
{
    ' ' <= character && (character != quote && character != '\\')
}

fn unescaped(quote: char, text: &[char]) -> Option<(char, &[char])>
    ensures { option_map (λ x. (x.0, x.1.now)) result ≡ read_unescaped quote text.now }
{
    match text {
        [first, rest @ ..] if is_unescaped(quote, *first) => Some((*first, rest)),
        _ => None,
    }
}

/// One character of a string, escaped or not.
#[tactic(auto, unfolding(path_grammar::specs::Reading::read_character))]
fn character(quote: char, text: &[char]) -> Option<(char, &[char])>
    ensures { option_map (λ x. (x.0, x.1.now)) result ≡ read_character quote text.now }
{
    match after(text, '\\') {
        Some(rest) => escaped(quote, rest),
        None => unescaped(quote, text),
    }
}

/// The characters up to the closing quote.
fn quoted(
    alloc: Global,
    quote: char,
    text: &[char],
) -> Result<Option<(String, &[char])>, AllocError>
    ensures { IfOk result (λ found. option_map (λ x. (string_bytes x.0, x.1.now)) found ≡ read_quoted quote text.now) }
{
    let mut found = String::new(alloc);
    let mut rest = text;
    for _ in 0..text.len() + 1 {
        if let Some(end) = after(rest, quote) {
            return Ok(Some((found, end)));
        }
        let Some((next, more)) = character(quote, rest) else {
            return Ok(None);
        };
        found.push(next)?;
        rest = more;
    }
    Ok(None)
}

/// The `string-literal` that the text begins with, as the text that it spells, and what follows it.
#[tactic(auto, unfolding(path_grammar::specs::Reading::read_string))]
pub fn string(alloc: Global, text: &[char]) -> Result<Option<(String, &[char])>, AllocError>
    ensures { IfOk result (λ found. option_map (λ x. (string_bytes x.0, x.1.now)) found ≡ read_string text.now) }
{
    if let Some(rest) = after(text, '"') {
        return quoted(alloc, '"', rest);
    }
    match after(text, '\'') {
        Some(rest) => quoted(alloc, '\'', rest),
        None => Ok(None),
    }
}
