//! The reading of a query from its text.
ghost use Rattle.std.specs.Prelude.{◌≡◌, chars, IfErr, IfOk};
ghost use Rattle.path_grammar.specs.Reading.{read_whole};
ghost use Rattle.path_grammar.specs.Answers.{SpellsOnly};
ghost use Rattle.path_parse.specs.Answer.{IsFaultOf, IsFaultOfCharacters, IsQueryOf};
ghost use Rattle.path_parse.specs.Gives.{Gives};
ghost use Rattle.path_parse.specs.SyntaxView.{query_view};

use crate::fault::QueryFault;
use crate::limits::QUERY_BYTES;
use crate::segments::query;
use crate::stop::Stop;
use crate::syntax::Query;
use path_words::characters::after;
use refusals::numbers::{MEMORY, PATH, PATH_LEFT_OUT, PATH_LONG};
use std::alloc::{AllocError, Global};

/// The query that the whole text spells, and whether something in it is left out.
#[tactic(auto, unfolding(path_grammar::specs::Reading::read_whole))]
fn whole(alloc: Global, text: &[char]) -> Result<(Query, bool), Stop>
    ensures { Gives (λ x. (query_view x.0, x.1)) result (read_whole text.now) }
{
    let Some(rest) = after(text, '$') else {
        return Err(Stop::Syntax);
    };
    // No text nests deeper than it is long.
    let part = query(alloc, text.len(), rest)?;
    if !part.rest.is_empty() {
        return Err(Stop::Syntax);
    }
    Ok((part.value, part.left_out))
}

/// The characters of the text.
fn characters(alloc: Global, text: &str) -> Result<Vec<char>, AllocError>
    ensures { IfOk result (λ found. found.items ≡ chars text.now) }
{
    text.chars().collect(alloc)
}

/// What the characters spell, whatever their number.
fn judged(alloc: Global, text: &[char]) -> Result<Query, QueryFault>
    ensures ok { IfOk result (λ q. SpellsOnly (query_view q) text.now) }
    ensures err { IfErr result (IsFaultOfCharacters text.now) }
{
    match whole(alloc, text) {
        Ok((query, left_out)) => {
            if left_out {
                Err(QueryFault {
                    number: PATH_LEFT_OUT,
                })
            } else {
                Ok(query)
            }
        }
        Err(Stop::Syntax) => Err(QueryFault { number: PATH }),
        Err(Stop::Memory) => Err(QueryFault { number: MEMORY }),
    }
}

impl Query {
    /// The one query in profile that the text spells (RFC 9535, sections 2.1 to 2.5).
    ///
    /// Else `PATH_LONG` if the text has more than `QUERY_BYTES`, `PATH_LEFT_OUT` if it spells a query, but none in
    /// profile, `PATH` if it spells none. `MEMORY` may come in place of any answer but `PATH_LONG`.
    pub fn read(alloc: Global, text: &str) -> Result<Query, QueryFault>
        ensures ok { IfOk result (IsQueryOf text.now) }
        ensures err { IfErr result (IsFaultOf text.now) }
    {
        if text.len() > QUERY_BYTES {
            return Err(QueryFault { number: PATH_LONG });
        }
        let characters = characters(alloc, text)?;
        judged(alloc, &characters)
    }
}
