//! The searches of all patterns of a schema, by numbers.
ghost use Rattle.std.specs.Prelude.{◌≡◌, ◌<◌, length};
ghost use Rattle.schema_pattern.specs.Patterns.{is_found, pattern_in};
ghost use Rattle.schema_pattern.specs.Tables.{some_found, source_at, sources};

use crate::pattern::Search;

/// Whether some part of the text matches the pattern of that number. Takes no memory.
pub fn finds_at(searches: &mut [Search<'_>], number: usize, text: &str) -> bool
    requires { number < length searches.old }
    ensures value { result ≡ is_found (pattern_in (source_at (sources searches.old) number)) text.now }
    ensures same { sources searches.new ≡ sources searches.old }
{
    searches[number].finds(text)
}

/// Whether some part of the text matches some pattern. Takes no memory.
pub fn some_finds(searches: &mut [Search<'_>], text: &str) -> bool
    ensures value { result ≡ some_found (sources searches.old) text.now }
    ensures same { sources searches.new ≡ sources searches.old }
{
    let mut number = 0;
    let mut found = false;
    while number < searches.len() {
        let here = searches[number].finds(text);
        found = found | here;
        number += 1;
    }
    found
}
