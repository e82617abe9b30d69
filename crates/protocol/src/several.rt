//! The changes of a transaction's line.
ghost use Rattle.std.specs.Prelude.{◌≡◌, ◌≤◌, ◌↔◌, codes, IfOk, IsTrue, MatchOption};
ghost use Rattle.doc_tree.specs.Cursor.{IsNext, ahead};
ghost use Rattle.doc_tree.specs.Doc.{Elements};
ghost use Rattle.doc_tree.specs.TreeView.{elements_view};
ghost use Rattle.protocol.specs.Read.{AreCommands, AreSeveral};
ghost use Rattle.protocol.specs.Request.{transaction_members};

use doc_machine::Command;
use doc_machine::limits::TRANSACTION_CHANGES;
use doc_tree::{MemberCursor, Tree};
use record_text::command_from;
use std::alloc::{AllocError, Global};

/// The commands of the transaction whose object has these members, of which the first is its changes.
pub(crate) fn several(
    alloc: Global,
    members: MemberCursor,
) -> Result<Option<Vec<Command>>, AllocError>
    requires { IsNext (codes "changes") (ahead members) }
    ensures { IfOk result (AreSeveral (ahead members)) }
{
    let Some(changes) = changes_in(members) else {
        return Ok(None);
    };
    if !is_countable(changes.len()) {
        return Ok(None);
    }
    commands_in(alloc, changes)
}

// Whether a transaction may have `many` changes.
fn is_countable(many: usize) -> bool
    ensures { IsTrue result ↔ ((1 ≤ many) × (many ≤ 1_024)) }
{
    1 <= many && many <= TRANSACTION_CHANGES
}

// The list of changes if these are the members of a transaction's object.
fn changes_in(members: MemberCursor) -> Option<Vec<Tree>>
    ensures { MatchOption result
        ((ds : Elements) → ahead members ≡ transaction_members ds → ⊥)
        (λ trees. ahead members ≡ transaction_members (elements_view trees.items)) }
{
    let (value, rest) = members.take("changes")?;
    let (word, rest) = rest.take_text("cmd")?;
    rest.end()?;
    if word.as_str() != "transaction" {
        return None;
    }
    match value {
        Tree::List(trees) => Some(trees),
        _ => None,
    }
}

// The commands whose objects these are, with the trees' own parts. `None` if one is no command's.
fn commands_in(alloc: Global, trees: Vec<Tree>) -> Result<Option<Vec<Command>>, AllocError>
    ensures { IfOk result (AreCommands (elements_view trees.items)) }
{
    let mut commands = Vec::with_capacity(alloc, trees.len())?;
    for tree in trees {
        let Some(command) = command_from(tree) else {
            return Ok(None);
        };
        commands.push(command)?;
    }
    Ok(Some(commands))
}
