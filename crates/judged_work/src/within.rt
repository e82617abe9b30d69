//! The work of a judgement, up to a limit.
ghost use Rattle.std.specs.Prelude.{◌≡◌, ◌+◌, ◌*◌, ◌/◌, ◌≤◌, IfOk, length, replicate};
ghost use Rattle.doc_tree.specs.TreeView.{view};
ghost use Rattle.schema_levels.specs.Searched.{AreSearched};
ghost use Rattle.schema_pattern.specs.Tables.{sources};
ghost use Rattle.judged_work.specs.Work.{judged_work, within};

use crate::stop::Stop;
use crate::walk::{none, spend_work};
use doc_tree::Tree;
use schema_levels::bits::write;
use schema_levels::{MOST_WORDS, Node};
use schema_pattern::Search;
use std::alloc::{AllocError, Global};

/// The work of judging the value by the node with that number, if it is at most the limit; `None` if it is more. An error
/// means that memory ran out.
pub fn work_within(
    nodes: &[Node],
    searches: &mut [Search<'_>],
    number: usize,
    value: &Tree,
    limit: usize,
    alloc: Global,
) -> Result<Option<usize>, AllocError>
    requires searched { AreSearched (sources searches.old) nodes.now }
    requires room { length nodes.now ≤ 64 * MOST_WORDS }
    ensures found { IfOk result (λ found. found ≡ within limit (judged_work nodes.now number (view value.now))) }
    ensures same { sources searches.new ≡ sources searches.old }
{
    let mut asked = none((nodes.len() + 63) / 64, alloc)?;
    work_from(nodes, searches, number, value, &mut asked, limit, alloc)
}

fn work_from(
    nodes: &[Node],
    searches: &mut [Search<'_>],
    number: usize,
    value: &Tree,
    asked: &mut [u64],
    limit: usize,
    alloc: Global,
) -> Result<Option<usize>, AllocError>
    requires searched { AreSearched (sources searches.old) nodes.now }
    requires room { length nodes.now ≤ 64 * MOST_WORDS }
    requires empty { asked.old ≡ replicate ((length nodes.now + 63) / 64) 0 }
    ensures found { IfOk result (λ found. found ≡ within limit (judged_work nodes.now number (view value.now))) }
    ensures same { sources searches.new ≡ sources searches.old }
{
    write(asked, number, true);
    match spend_work(nodes, searches, value, asked, limit, alloc) {
        Ok(left) => Ok(Some(limit - left)),
        Err(Stop::Limit) => Ok(None),
        Err(Stop::Memory(refused)) => Err(refused),
    }
}
