//! The normalized path of a location, as a text.
ghost use Rattle.std.specs.Prelude.{◌≡◌, ◌++◌, ◌<◌, option_map, flat_map, map, chars, string_bytes, encode_utf8_all, IfOk};
ghost use Rattle.doc_tree.specs.Doc as place;
ghost use Rattle.doc_tree.specs.Place.{place_of};
ghost use Rattle.path_grammar.specs.Lent.{lent_place, lent_places};
ghost use Rattle.path_parse.specs.NormalPath.{hex_digit, normal_character, normal_path, normal_step, short_escape};

use crate::step::lent;
use doc_tree::Step;
use path_grammar::LentStep;
use std::alloc::{AllocError, Global};

/// The normalized path of the location to which the steps lead from the root (RFC 9535, section 2.7).
///
/// The one error is that memory was refused.
pub fn normal_text(alloc: Global, steps: &[Step]) -> Result<String, AllocError>
    ensures { IfOk result (λ text. chars (string_bytes text) ≡ normal_path (map place_of steps.now)) }
{
    let mut text = String::new(alloc);
    text.push('$')?;
    for step in steps {
        text = with_step(text, lent(step))?;
    }
    Ok(text)
}

/// The same of steps that a document lends.
///
/// The one error is that memory was refused.
pub fn lent_normal_text(alloc: Global, steps: &[LentStep<'_>]) -> Result<String, AllocError>
    ensures { IfOk result (λ text. chars (string_bytes text) ≡ normal_path (lent_places steps.now)) }
{
    let mut text = String::new(alloc);
    text.push('$')?;
    for step in steps {
        text = with_step(text, *step)?;
    }
    Ok(text)
}

/// The text with the step after it.
fn with_step(text: String, step: LentStep<'_>) -> Result<String, AllocError>
    ensures { IfOk result (λ longer. string_bytes longer
        ≡ string_bytes text ++ encode_utf8_all (normal_step (lent_place step.entry))) }
{
    match step {
        LentStep::Name(name) => with_name(text, name.as_str()),
        LentStep::Index(index) => with_index(text, index),
    }
}

/// The text with the step to the member of that name after it.
fn with_name(text: String, name: &str) -> Result<String, AllocError>
    ensures { IfOk result (λ longer. string_bytes longer
        ≡ string_bytes text ++ encode_utf8_all (normal_step (place.name name.now))) }
{
    let mut text = text;
    text.push_str("['")?;
    text = with_characters(text, name)?;
    text.push_str("']")?;
    Ok(text)
}

/// The text with the step to the element at that index after it.
fn with_index(text: String, index: u64) -> Result<String, AllocError>
    ensures { IfOk result (λ longer. string_bytes longer
        ≡ string_bytes text ++ encode_utf8_all (normal_step (place.index index))) }
{
    let mut text = text;
    let mut buffer = itoa::Buffer::new();
    text.push_str("[")?;
    text.push_str(buffer.format(index))?;
    text.push_str("]")?;
    Ok(text)
}

/// The text with the characters of a name after it, each as it is written between quotes.
fn with_characters(text: String, name: &str) -> Result<String, AllocError>
    ensures { IfOk result (λ longer. string_bytes longer
        ≡ string_bytes text ++ encode_utf8_all (flat_map normal_character (chars name.now))) }
{
    let mut text = text;
    for character in name.chars() {
        text = with_character(text, character)?;
    }
    Ok(text)
}

/// The text with one character of a name after it, as it is written between quotes.
fn with_character(text: String, character: char) -> Result<String, AllocError>
    ensures { IfOk result (λ longer. string_bytes longer
        ≡ string_bytes text ++ encode_utf8_all (normal_character character)) }
{
    let mut text = text;
    if let Some(escape) = short_escape(character) {
        text.push_str(escape)?;
    } else if character < ' ' {
        text.push_str("\\u00")?;
        text.push(hex_digit(character as u32 / 16))?;
        text.push(hex_digit(character as u32 % 16))?;
    } else {
        text.push(character)?;
    }
    Ok(text)
}

/// The escape of a backslash and one character, if there is one.
fn short_escape(character: char) -> Option<&'static str>
    ensures { option_map (λ escape. escape.now) result ≡ short_escape character }
{
    match character {
        '\u{8}' => Some("\\b"),
        '\t' => Some("\\t"),
        '\n' => Some("\\n"),
        '\u{c}' => Some("\\f"),
        '\r' => Some("\\r"),
        '\'' => Some("\\'"),
        '\\' => Some("\\\\"),
        _ => None,
    }
}

/// The hexadecimal digit, in lower case.
fn hex_digit(number: u32) -> char
    requires { number < 16 }
    ensures { result ≡ hex_digit number }
{
    if number < 10 {
        (b'0' + number as u8) as char
    } else {
        (b'a' + (number - 10) as u8) as char
    }
}
