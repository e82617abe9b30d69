//! Names after a dot (RFC 9535, section 2.5.1.1).
ghost use Rattle.std.specs.Prelude.{◌≡◌, option_map, string_bytes, IfOk};
ghost use Rattle.path_grammar.specs.Characters.{is_name_char, is_name_first};
ghost use Rattle.path_grammar.specs.Reading.{read_shorthand};

use crate::characters::is_digit;
use std::alloc::{AllocError, Global};

/// `name-first`
fn is_name_first(character: char) -> bool
    ensures { result ≡ is_name_first character }
{
    ('A' <= character && character <= 'Z')
        || (('a' <= character && character <= 'z') || (character == '_' || '\u{80}' <= character))
}

/// `name-char`
fn is_name_char(character: char) -> bool
    ensures { result ≡ is_name_char character }
{
    is_name_first(character) || is_digit(character)
}

/// The `member-name-shorthand` that the text begins with, and what follows it.
pub fn shorthand(alloc: Global, text: &[char]) -> Result<Option<(String, &[char])>, AllocError>
    ensures { IfOk result (λ found. option_map (λ x. (string_bytes x.0, x.1.now)) found ≡ read_shorthand text.now) }
{
    let [first, more @ ..] = text else {
        return Ok(None);
    };
    if !is_name_first(*first) {
        return Ok(None);
    }
    let mut name = String::new(alloc);
    name.push(*first)?;
    let mut rest = more;
    while let [next, more @ ..] = rest {
        if !is_name_char(*next) {
            break;
        }
        name.push(*next)?;
        rest = more;
    }
    Ok(Some((name, rest)))
}
