//! All patterns of a schema.
ghost use Rattle.std.specs.Prelude.{◌≡◌, ◌<◌, ◌≤◌, ◌^◌, IfErr, IfOk, is_some, length, map, true};
ghost use Rattle.regex.specs.Strings.{regex_source};
ghost use Rattle.schema_pattern.specs.Patterns.{IsFaultOf, pattern_in};
ghost use Rattle.schema_pattern.specs.Tables.{AreFaultOf, are_patterns, pattern_sources, sources};

use crate::fault::PatternFault;
use crate::pattern::{Pattern, Search};
use std::alloc::{AllocError, Global};

// Room for a small pattern.
const LEAST_ROOM: usize = 4_096;

/// The patterns that the texts are, with tables of about `room` bytes at most, all together.
///
/// `PatternFault::Form` if some text is no pattern; else `PatternFault::Large` if the tables would take more.
/// `PatternFault::Memory` may come in place of any answer.
pub fn read_patterns(
    alloc: Global,
    texts: &[&str],
    room: usize,
) -> Result<Vec<Pattern>, PatternFault>
    requires { room ≤ 2 ^ 32 }
    ensures sources { IfOk result (λ ps. pattern_sources ps.items ≡ map (λ t. t.now) texts.now) }
    ensures ok { IfOk result (λ _. are_patterns (map (λ t. t.now) texts.now) ≡ true) }
    ensures err { IfErr result (AreFaultOf (map (λ t. t.now) texts.now)) }
{
    let mut patterns = Vec::with_capacity(alloc, texts.len())?;
    let mut left = room;
    for text in texts {
        match read_within(alloc, text, left) {
            Ok(read) => {
                patterns.push(read.pattern)?;
                left = read.left;
            }
            Err(PatternFault::Large) => return Err(large_or_none(alloc, texts)),
            Err(fault) => return Err(fault),
        }
    }
    Ok(patterns)
}

// What refuses texts of which one is a pattern that is too large: another may be none.
fn large_or_none(alloc: Global, texts: &[&str]) -> PatternFault
    requires { 0 < length texts.now }
    ensures { AreFaultOf (map (λ t. t.now) texts.now) result }
{
    for text in texts {
        match Pattern::read(alloc, text, LEAST_ROOM) {
            Ok(_) | Err(PatternFault::Large) => {}
            Err(fault) => return fault,
        }
    }
    PatternFault::Large
}

/// What searches for each of them.
pub fn searches_of(alloc: Global, patterns: &[Pattern]) -> Result<Vec<Search<'_>>, AllocError>
    ensures { IfOk result (λ ss. sources ss.items ≡ pattern_sources patterns.now) }
{
    let mut searches = Vec::with_capacity(alloc, patterns.len())?;
    for pattern in patterns {
        searches.push(pattern.search(alloc)?)?;
    }
    Ok(searches)
}

// A pattern, and the room that it leaves.
#[derive(Drop)]
struct Read {
    pattern: Pattern,
    left: usize,
}

// The pattern that the text is, in the least room of these that is enough.
fn read_within(alloc: Global, text: &str, left: usize) -> Result<Read, PatternFault>
    requires { left ≤ 2 ^ 32 }
    ensures source { IfOk result (λ r. regex_source r.pattern.regex ≡ text.now) }
    ensures less { IfOk result (λ r. r.left ≤ left) }
    ensures ok { IfOk result (λ _. is_some (pattern_in text.now) ≡ true) }
    ensures err { IfErr result (IsFaultOf text.now) }
{
    let mut room = LEAST_ROOM;
    while room <= left {
        match Pattern::read(alloc, text, room) {
            Ok(pattern) => return Ok(Read {
                pattern,
                left: left - room,
            }),
            Err(PatternFault::Large) => room *= 2,
            Err(fault) => return Err(fault),
        }
    }
    // The room is none for this pattern, if it is one.
    match Pattern::read(alloc, text, LEAST_ROOM) {
        Ok(_) => Err(PatternFault::Large),
        Err(fault) => Err(fault),
    }
}
