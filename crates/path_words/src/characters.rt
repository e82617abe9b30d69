//! Single characters, fixed words and blanks.
ghost use Rattle.std.specs.Prelude.{◌≡◌, option_map};
ghost use Rattle.path_grammar.specs.Characters.{is_blank, is_digit};
ghost use Rattle.path_grammar.specs.Reading.{after_character, after_doubled, after_word, skip, starts_with_blank, begins_int, begins_query, begins_segment, begins_string};

/// What follows the character, if the text begins with it.
pub fn after(text: &[char], character: char) -> Option<&[char]>
    ensures { option_map (λ rest. rest.now) result ≡ after_character character text.now }
{
    match text {
        [first, rest @ ..] if *first == character => Some(rest),
        _ => None,
    }
}

/// The rest after the character twice, if the text begins with that.
pub fn after_doubled(text: &[char], character: char) -> Option<&[char]>
    ensures { option_map (λ rest. rest.now) result ≡ after_doubled character text.now }
{
    after(after(text, character)?, character)
}

/// What follows the word, if the text begins with it.
pub fn after_word<'t>(text: &'t [char], word: &[char]) -> Option<&'t [char]>
    ensures { option_map (λ rest. rest.now) result ≡ after_word word.now text.now }
{
    let mut rest = text;
    let mut wanted = word;
    while let [first, more @ ..] = wanted {
        rest = after(rest, *first)?;
        wanted = more;
    }
    Some(rest)
}

/// A space, a tab, a line feed or a carriage return (RFC 9535, section 2.1.1).
fn is_blank(character: char) -> bool
    ensures { result ≡ is_blank character }
{
    character == ' ' || (character == '\t' || (character == '\n' || character == '\r'))
}

/// What follows the blanks that the text begins with.
pub fn skip_blanks(text: &[char]) -> &[char]
    ensures { result.now ≡ skip text.now }
{
    let mut rest = text;
    while let [first, more @ ..] = rest {
        if !is_blank(*first) {
            break;
        }
        rest = more;
    }
    rest
}

/// A digit 0 to 9.
pub fn is_digit(character: char) -> bool
    ensures { result ≡ is_digit character }
{
    '0' <= character && character <= '9'
}

/// Whether the text begins with a blank.
pub fn starts_with_blank(text: &[char]) -> bool
    ensures { result ≡ starts_with_blank text.now }
{
    match text {
        [first, ..] => is_blank(*first),
        [] => false,
    }
}

/// Whether the text begins as an integer does: with `-` or a digit.
pub fn begins_int(text: &[char]) -> bool
    ensures { result ≡ begins_int text.now }
{
    match text {
        [first, ..] => *first == '-' || is_digit(*first),
        [] => false,
    }
}

/// Whether the text begins as a string does: with a quote.
pub fn begins_string(text: &[char]) -> bool
    ensures { result ≡ begins_string text.now }
{
    match text {
        [first, ..] => *first == '"' || *first == '\'',
        [] => false,
    }
}

/// Whether the text begins as a segment does: with a dot or a bracket.
pub fn begins_segment(text: &[char]) -> bool
    ensures { result ≡ begins_segment text.now }
{
    match text {
        [first, ..] => *first == '.' || *first == '[',
        [] => false,
    }
}

/// Whether the text begins as a query does: with `@` or `$`.
pub fn begins_query(text: &[char]) -> bool
    ensures { result ≡ begins_query text.now }
{
    match text {
        [first, ..] => *first == '@' || *first == '$',
        [] => false,
    }
}
