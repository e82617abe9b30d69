//! A pattern that was read, and a search for it.
ghost use Rattle.std.specs.Prelude.{◌≡◌, ◌+◌, ◌≤◌, IfErr, IfOk, is_some, true};
ghost use Rattle.regex.specs.Strings.{matcher_pattern, regex_config, regex_pattern, regex_size, regex_source};
ghost use Rattle.schema_pattern.specs.Patterns.{AreAlike, IsFaultFor, IsFaultOf, is_found, pattern_in};

use crate::fault::PatternFault;
use regex::{Error, Matcher, Regex, RegexBuilder};
use std::alloc::{AllocError, Global};

/// A pattern that was read.
#[derive(Drop)]
pub struct Pattern {
    regex: Regex,
    ghost alike: { AreAlike (regex_source regex) (regex_pattern regex) },
}

/// What searches texts for a pattern.
#[derive(Drop)]
pub struct Search<'p> {
    pub(crate) source: &'p str,
    matcher: Matcher<'p>,
    ghost alike: { AreAlike source.now (matcher_pattern matcher) },
}

impl Pattern {
    /// The pattern that the text is, with tables of about `room` bytes at most.
    pub fn read(alloc: Global, source: &str, room: usize) -> Result<Pattern, PatternFault>
        ensures source { IfOk result (λ p. regex_source p.regex ≡ source.now) }
        ensures small { IfOk result (λ p. regex_size p.regex ≤ room + 24) }
        ensures ok { IfOk result (λ _. is_some (pattern_in source.now) ≡ true) }
        ensures err { IfErr result (IsFaultOf source.now) }
    {
        match RegexBuilder::new(source).size_limit(room).build(alloc) {
            Ok(regex) => Ok(Pattern { regex }),
            Err(error) => Err(fault_of(error)),
        }
    }

    /// What searches for it.
    pub fn search(&self, alloc: Global) -> Result<Search<'_>, AllocError>
        ensures { IfOk result (λ s. s.source.now ≡ regex_source self.now.regex) }
    {
        let matcher = self.regex.matcher(alloc)?;
        let source = self.regex.as_str();
        Ok(Search { source, matcher })
    }
}

fn fault_of(error: Error) -> PatternFault
    ensures { IsFaultFor error result }
{
    match error {
        Error::Syntax(_) => PatternFault::Form,
        Error::CompiledTooBig | Error::Internal => PatternFault::Large,
        Error::OutOfMemory => PatternFault::Memory,
    }
}

impl<'p> Search<'p> {
    /// Whether some part of the text matches. Takes no memory.
    pub fn finds(&mut self, text: &str) -> bool
        ensures value { result ≡ is_found (pattern_in self.old.source.now) text.now }
        ensures same { self.new.source ≡ self.old.source }
    {
        self.matcher.is_match(text)
    }
}
