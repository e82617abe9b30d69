//! Bodies that are read quickly: most hold no escape, and most are patches. Their texts are compared and not written
//! again, and a patch's parts are read in place. `None` says nothing of a body.
ghost use Rattle.std.specs.Prelude.{◌≡◌, ◌≤◌, ◌++◌, None, true, IfSome};
ghost use Rattle.std.specs.Str.{IsUtf8};
ghost use Rattle.doc_tree.specs.Doc.{Doc, height};
ghost use Rattle.doc_tree.specs.Sound.{IsSound};
ghost use Rattle.doc_tree.specs.Text.{text_of};
ghost use Rattle.doc_tree.specs.TreeView.{view};
ghost use Rattle.record_text.specs.Change.{change_of, object_of, patch};
ghost use Rattle.record_text.specs.Fault.{IsTextOf};

use crate::command::Command;
use doc_tree::{Tree, read_unescaped, strip_bytes, strip_quoted};
use std::alloc::Global;
use std::str;

const BEFORE_NAME: &[u8] = b"{\"cmd\":\"patch\",\"name\":";

const BEFORE_OPS: &[u8] = b",\"ops\":";

const AFTER_OPS: &[u8] = b"}";

// One less than a text may have, since the object of a command is a level.
const OPS_HEIGHT: u64 = 126;

const TEXT_HEIGHT: u64 = 127;

/// A patch that asks for no revision, whose object the body is the compact text of.
pub(crate) fn plain_patch(alloc: Global, body: &[u8]) -> Option<Command>
    ensures { IfSome result (λ c. IsTextOf body.now (object_of (change_of c))) }
{
    let (name, rest) = read_unescaped(alloc, body.strip_prefix(BEFORE_NAME)?)?;
    let (ops, _) = Tree::read_compact(alloc, rest.strip_prefix(BEFORE_OPS)?)?;
    if !is_patch_text(name.as_str(), &ops, body) {
        return None;
    }
    Some(Command::Patch {
        name,
        ops,
        if_rev: None,
    })
}

/// The tree whose compact text the bytes are, if it is at most 127 high.
pub fn plain_tree(alloc: Global, bytes: &[u8]) -> Option<Tree>
    ensures { IfSome result (λ t. IsTextOf bytes.now (view t)) }
{
    // The quick reader would give up there, maybe late.
    if bytes.contains(&b'\\') {
        return None;
    }
    let tree = Tree::read_compact_whole(alloc, bytes)?;
    if !tree.strip_text(bytes)?.is_empty() || tree.height() > TEXT_HEIGHT {
        return None;
    }
    Some(tree)
}

// Whether the body is the text of that patch's object, part by part.
fn is_patch_text(name: &str, ops: &Tree, body: &[u8]) -> bool
    ensures { result ≡ true → IsTextOf body.now (object_of (patch name.now (view ops.now) None)) }
{
    match after_patch(name, ops, body) {
        Some(rest) => rest.is_empty() && ops.height() <= OPS_HEIGHT,
        None => false,
    }
}

// What follows the text of that patch's object.
fn after_patch<'b>(name: &str, ops: &Tree, body: &'b [u8]) -> Option<&'b [u8]>
    ensures { IfSome result (λ rest. body.now ≡ text_of (object_of (patch name.now (view ops.now) None)) ++ rest.now) }
{
    let rest = strip_quoted(name, strip_bytes(BEFORE_NAME, body)?)?;
    let rest = ops.strip_text(strip_bytes(BEFORE_OPS, rest)?)?;
    strip_bytes(AFTER_OPS, rest)
}

/// The name, and the bytes in the place of the operations, which aren't read, in the body of a patch that asks for no
/// revision: the body is the text of the patch by each document that has these bytes as its text. It takes no memory.
///
/// `None` says nothing: the body is no such patch's, or the name holds an escape.
pub fn patch_parts(body: &[u8]) -> Option<(&str, &[u8])>
    ensures { IfSome result (λ p. (ops : Doc) → p.1.now ≡ text_of ops → IsSound ops → height ops ≤ 126
        → IsTextOf body.now (object_of (patch p.0.now ops None))) }
{
    let rest = strip_bytes(BEFORE_NAME, body)?;
    let name = first_text(rest)?;
    let rest = strip_bytes(BEFORE_OPS, strip_quoted(name, rest)?)?;
    let (last, ops) = rest.split_last()?;
    if *last != b'}' {
        return None;
    }
    Some((name, ops))
}

// A text that the bytes may begin with as a JSON string with no escape: `strip_quoted` says whether they do.
fn first_text(bytes: &[u8]) -> Option<&str>
    ensures { IfSome result (λ text. IsUtf8 text.now) }
{
    let inside = bytes.strip_prefix(b"\"")?;
    let end = inside.iter().position(|byte| *byte == b'"')?;
    str::from_utf8(&inside[..end]).ok()
}
