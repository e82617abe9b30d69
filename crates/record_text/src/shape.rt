//! The command that a document is the object of: an object's members come in byte order of their names,
//! so each kind of command has its members in one order.
ghost use Rattle.std.specs.Prelude.{◌≡◌, ℕ, List, MatchOption, codes, string_bytes};
ghost use Rattle.doc_tree.specs.Cursor.{ahead};
ghost use Rattle.doc_tree.specs.Doc.{Doc};
ghost use Rattle.doc_tree.specs.TreeView.{view};
ghost use Rattle.record_text.specs.Change.{command_object, name_and};
ghost use Rattle.record_text.specs.Record.{IsCommand, ReadsCommand};

use crate::command::Command;
use crate::fault::RecordFault;
use doc_tree::{MemberCursor, Tree};
use std::alloc::Global;

/// The command whose object the tree is, with trees of its own.
///
/// `Shape` if the tree is the object of no command: no object, another `cmd`, a member missing or one too many, a name
/// that is no text. `Memory` may come in place of any answer.
pub fn command_of(alloc: Global, tree: &Tree) -> Result<Command, RecordFault>
    ensures { ReadsCommand (view tree.now) result }
{
    command_from(tree.copy(alloc)?).ok_or(RecordFault::Shape)
}

/// The command whose object the tree is, with the tree's own parts. `None` if `command_of` answers `Shape`. It takes no
/// memory.
pub fn command_from(tree: Tree) -> Option<Command>
    ensures { IsCommand (view tree) result }
{
    let (word, others) = MemberCursor::of(tree)?.take_text("cmd")?;
    command_with(word.as_str(), others)
}

/// The command whose object has that word at `cmd` and these members after it, with their own parts. `None` if it is
/// the object of no command. It takes no memory.
pub fn command_with(word: &str, others: MemberCursor) -> Option<Command>
    ensures { IsCommand (command_object word.now (ahead others)) result }
{
    match word {
        "create" => create(others),
        "patch" => patch(others),
        "schema" => schema(others),
        "delete" => delete(others),
        _ => None,
    }
}

fn create(others: MemberCursor) -> Option<Command>
    ensures { IsCommand (command_object (codes "create") (ahead others)) result }
{
    let (doc, rest) = others.take("doc")?;
    let (name, rest) = rest.take_text("name")?;
    let (schema, rest) = rest.take("schema")?;
    rest.end()?;
    Some(Command::Create { name, schema, doc })
}

fn patch(others: MemberCursor) -> Option<Command>
    ensures { IsCommand (command_object (codes "patch") (ahead others)) result }
{
    if !others.is_at("if_rev") {
        let (name, ops) = last_two(others, "ops")?;
        return Some(Command::Patch {
            name,
            ops,
            if_rev: None,
        });
    }
    let (revision, rest) = others.take_number("if_rev")?;
    let (name, ops) = last_two(rest, "ops")?;
    Some(Command::Patch {
        name,
        ops,
        if_rev: Some(revision),
    })
}

fn schema(others: MemberCursor) -> Option<Command>
    ensures { IsCommand (command_object (codes "schema") (ahead others)) result }
{
    let (name, schema) = last_two(others, "schema")?;
    Some(Command::Schema { name, schema })
}

fn delete(others: MemberCursor) -> Option<Command>
    ensures { IsCommand (command_object (codes "delete") (ahead others)) result }
{
    let (name, rest) = others.take_text("name")?;
    rest.end()?;
    Some(Command::Delete { name })
}

// The name and the value of the last member, if the members are a name and one more with that name.
fn last_two(others: MemberCursor, last: &str) -> Option<(String, Tree)>
    ensures { MatchOption result
        ((name : List ℕ) (d : Doc) → ahead others ≡ name_and name last.now d → ⊥)
        (λ p. ahead others ≡ name_and (string_bytes p.0) last.now (view p.1)) }
{
    let (name, rest) = others.take_text("name")?;
    let (value, rest) = rest.take(last)?;
    rest.end()?;
    Some((name, value))
}
