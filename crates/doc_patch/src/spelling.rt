//! An operation as a document spells it, before its pointers are read.

ghost use Rattle.std.specs.Prelude.{◌≡◌, option_map};
ghost use Rattle.doc_patch.specs.Meaning.{spelled};
ghost use Rattle.doc_patch.specs.Reading as reading;
ghost use Rattle.doc_patch.specs.Reading.{spelling};
ghost use Rattle.doc_tree.specs.TreeView.{view};

use doc_tree::Tree;

/// The members of an operation that it defines (RFC 6902, section 4).
#[derive(Clone, Copy)]
pub enum Spelling<'t> {
    Add { path: &'t str, value: &'t Tree },
    Remove { path: &'t str },
    Replace { path: &'t str, value: &'t Tree },
    Move { from: &'t str, path: &'t str },
    Copy { from: &'t str, path: &'t str },
    Test { path: &'t str, value: &'t Tree },
}

/// The members of the operation that the document is, or `None` if it doesn't have the form of one.
pub fn spelling_of(tree: &Tree) -> Option<Spelling<'_>>
    ensures { option_map spelled result ≡ spelling (view tree.now) }
{
    let op = as_text(tree.member("op")?)?;
    let path = as_text(tree.member("path")?)?;
    if op == "add" {
        Some(Spelling::Add {
            path,
            value: tree.member("value")?,
        })
    } else if op == "remove" {
        Some(Spelling::Remove { path })
    } else if op == "replace" {
        Some(Spelling::Replace {
            path,
            value: tree.member("value")?,
        })
    } else if op == "move" {
        Some(Spelling::Move {
            from: as_text(tree.member("from")?)?,
            path,
        })
    } else if op == "copy" {
        Some(Spelling::Copy {
            from: as_text(tree.member("from")?)?,
            path,
        })
    } else if op == "test" {
        Some(Spelling::Test {
            path,
            value: tree.member("value")?,
        })
    } else {
        None
    }
}

// The text that the value is.
fn as_text(tree: &Tree) -> Option<&str>
    ensures { option_map (λ s. s.now) result ≡ reading.as_text (view tree.now) }
{
    match tree {
        Tree::Text(text) => Some(text.as_str()),
        _ => None,
    }
}
