//! The changes of a line that speaks of a mark with them.
ghost use Rattle.std.specs.Prelude.{◌≡◌, ℕ, List, codes, string_bytes, IfOk, MatchOption, option_map};
ghost use Rattle.doc_machine.specs.Marking as markings;
ghost use Rattle.doc_machine.specs.Marking.{asked_of};
ghost use Rattle.doc_tree.specs.Cursor.{IsNext, ahead};
ghost use Rattle.doc_tree.specs.TreeView.{members_view, view};
ghost use Rattle.protocol.specs.Marks.{asked_value, mark_object};
ghost use Rattle.protocol.specs.Read.{AreChanges, IsMarked, IsMarking, TakesOut};

use crate::request::Request;
use crate::several::several;
use doc_machine::{Asked, Changes, Marking, Transaction};
use doc_tree::{MemberCursor, Tree};
use name_map::NameMap;
use record_text::command_with;
use std::alloc::{AllocError, Global};

/// Takes the member of that name out, if there is one, and answers its value.
pub(crate) fn take_out(members: &mut NameMap<Tree>, name: &str) -> Option<Tree>
    ensures { TakesOut name.now (members_view members.old.entries) (option_map view result) (members_view members.new.entries) }
{
    match members.take(name) {
        Some((_, value)) => Some(value),
        None => None,
    }
}

/// The changes whose object has that value at `mark` and these members beside it, with the mark. `None` if they make
/// none.
pub(crate) fn marked(
    alloc: Global,
    at_mark: Tree,
    members: NameMap<Tree>,
) -> Result<Option<Request>, AllocError>
    ensures { IfOk result (IsMarked (view at_mark) (members_view members.entries)) }
{
    let mut left = members;
    let at_if_mark = take_out(&mut left, "if_mark");
    let Some(marking) = marking_in(at_mark, at_if_mark) else {
        return Ok(None);
    };
    match changes_of(alloc, left)? {
        Some(changes) => Ok(Some(Request::Change(Transaction::Marked(marking, changes)))),
        None => Ok(None),
    }
}

// What a line says of a mark by these two members.
fn marking_in(at_mark: Tree, at_if_mark: Option<Tree>) -> Option<Marking>
    ensures { IsMarking (view at_mark) (option_map view at_if_mark) result }
{
    let (key, value) = key_and_value(at_mark)?;
    let asked = asked_in(at_if_mark)?;
    Some(Marking { key, value, asked })
}

// The key and the value of the mark whose object it is.
fn key_and_value(tree: Tree) -> Option<(String, String)>
    ensures { MatchOption result ((key value : List ℕ) → view tree ≡ mark_object key value → ⊥)
        (λ mark. view tree ≡ mark_object (string_bytes mark.0) (string_bytes mark.1)) }
{
    let members = MemberCursor::of(tree)?;
    let (key, rest) = members.take_text("key")?;
    let (value, rest) = rest.take_text("value")?;
    rest.end()?;
    Some((key, value))
}

// What the mark must be before, by the value at `if_mark`.
fn asked_in(tree: Option<Tree>) -> Option<Asked>
    ensures { MatchOption result ((asked : markings.Asked) → option_map view tree ≡ asked_value asked → ⊥)
        (λ asked. option_map view tree ≡ asked_value (asked_of asked)) }
{
    match tree {
        None => Some(Asked::Anything),
        Some(Tree::Null) => Some(Asked::Absence),
        Some(Tree::Text(value)) => Some(Asked::Value(value)),
        Some(_) => None,
    }
}

// The changes whose object has these members.
fn changes_of(alloc: Global, members: NameMap<Tree>) -> Result<Option<Changes>, AllocError>
    ensures { IfOk result (AreChanges (members_view members.entries)) }
{
    let Some(cursor) = MemberCursor::of(Tree::Object(members)) else {
        return Ok(None);
    };
    if cursor.is_at("changes") {
        together(alloc, cursor)
    } else {
        Ok(alone(cursor))
    }
}

// The list of changes of the transaction whose object has these members.
fn together(alloc: Global, members: MemberCursor) -> Result<Option<Changes>, AllocError>
    requires { IsNext (codes "changes") (ahead members) }
    ensures { IfOk result (AreChanges (ahead members)) }
{
    match several(alloc, members)? {
        Some(commands) => Ok(Some(Changes::Together(commands))),
        None => Ok(None),
    }
}

// The one change whose object has these members.
fn alone(members: MemberCursor) -> Option<Changes>
    requires { IsNext (codes "changes") (ahead members) → ⊥ }
    ensures { AreChanges (ahead members) result }
{
    let (word, others) = members.take_text("cmd")?;
    let command = command_with(word.as_str(), others)?;
    Some(Changes::Alone(command))
}
