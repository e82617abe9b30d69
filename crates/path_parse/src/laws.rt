//! Laws of the definitions and of the contract of `Query::read`.
ghost use Rattle.std.specs.Prelude.{◌≡◌, ◌≤◌, chars, length, MatchResult};
ghost use Rattle.path_grammar.specs.Grammar.{Spells};
ghost use Rattle.path_grammar.specs.Profile.{InProfile};
ghost use Rattle.path_grammar.specs.Syntax.{Segments};
ghost use Rattle.path_parse.specs.SyntaxView.{query_view};
ghost use Rattle.refusals.specs.declared.numbers.TheConstants.{MEMORY};

use crate::fault::QueryFault;
use crate::syntax::Query;
pub use path_grammar::laws::spells_no_other_query;
use std::alloc::Global;

/// A text, not too long, that spells a query in profile is read as that query, unless memory is refused.
pub fn reads_what_is_spelled(alloc: Global, text: &str) -> Result<Query, QueryFault>
    requires { length text.now ≤ 1024 }
    ensures { (query : Segments) → Spells query (chars text.now) → InProfile query
        → MatchResult result (λ read. query_view read ≡ query) (λ fault. fault.number ≡ MEMORY) }
{
    Query::read(alloc, text)
}
