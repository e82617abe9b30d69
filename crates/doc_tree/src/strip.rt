//! The comparison of bytes with the compact text of a document, with no text made.
ghost use Rattle.std.specs.Fmt.{signed_decimal};
ghost use Rattle.std.specs.Prelude.{◌≡◌, ◌∷◌, ◌++◌, false, IfSome};
ghost use Rattle.json.specs.Print.{quoted};
ghost use Rattle.serde_json.specs.Written.{comma_if};
ghost use Rattle.doc_tree.specs.Sound.{IsSound};
ghost use Rattle.doc_tree.specs.Text.{text_of, elements_text, members_text_of};
ghost use Rattle.doc_tree.specs.TreeView.{view, elements_view, members_view};

use crate::front::is_same;
use crate::plain::is_plain;
use crate::tree::Tree;
use name_map::NameMap;

impl Tree {
    /// What follows the compact text of the document, in bytes that begin with it. It takes no memory.
    ///
    /// `None` says nothing: the bytes begin with something else, or a text or a name holds a byte that is
    /// written with an escape, for which none is looked.
    pub fn strip_text<'b>(&self, bytes: &'b [u8]) -> Option<&'b [u8]>
        ensures { IfSome result (λ rest. bytes.now ≡ text_of (view self.now) ++ rest.now) }
    {
        strip_tree_text(self, bytes)
    }
}

/// What follows the text as a JSON string (RFC 8259, section 7), in bytes that begin with it.
///
/// `None` says nothing, as with `Tree::strip_text`.
pub fn strip_quoted<'b>(text: &str, bytes: &'b [u8]) -> Option<&'b [u8]>
    ensures { IfSome result (λ rest. bytes.now ≡ quoted text.now ++ rest.now) }
{
    if !is_plain(text.as_bytes()) {
        return None;
    }
    let inside = strip_byte(b'"', bytes)?;
    let rest = strip_bytes(text.as_bytes(), inside)?;
    strip_byte(b'"', rest)
}

/// The rest of the second bytes after the first ones, if they begin with these.
pub fn strip_bytes<'b>(first: &[u8], bytes: &'b [u8]) -> Option<&'b [u8]>
    ensures { IfSome result (λ rest. bytes.now ≡ first.now ++ rest.now) }
{
    if bytes.len() < first.len() {
        return None;
    }
    let (front, rest) = bytes.split_at(first.len());
    if is_same(first, front) {
        Some(rest)
    } else {
        None
    }
}

/// What follows that byte, in bytes that begin with it.
#[inline]
pub(crate) fn strip_byte(byte: u8, bytes: &[u8]) -> Option<&[u8]>
    ensures { IfSome result (λ rest. bytes.now ≡ byte ∷ rest.now) }
{
    match bytes.split_first() {
        Some((first, rest)) if *first == byte => Some(rest),
        _ => None,
    }
}

#[cycle(strip)]
fn strip_tree_text<'b>(tree: &Tree, bytes: &'b [u8]) -> Option<&'b [u8]>
    ensures { IfSome result (λ rest. bytes.now ≡ text_of (view tree.now) ++ rest.now) }
{
    match tree {
        Tree::Null => strip_bytes(b"null", bytes),
        Tree::Bool(true) => strip_bytes(b"true", bytes),
        Tree::Bool(false) => strip_bytes(b"false", bytes),
        Tree::Int(n) => after_int(*n, bytes),
        Tree::Text(text) => strip_quoted(text.as_str(), bytes),
        Tree::List(items) => after_elements(items, strip_byte(b'[', bytes)?),
        Tree::Object(members) => after_members(members, strip_byte(b'{', bytes)?),
    }
}

#[cycle(strip)]
fn after_elements<'b>(items: &Vec<Tree>, bytes: &'b [u8]) -> Option<&'b [u8]>
    ensures { IfSome result (λ rest. bytes.now ≡ elements_text false (elements_view items.now.items) ++ rest.now) }
{
    let mut rest = bytes;
    let mut later = false;
    for item in items {
        rest = strip_tree_text(item, after_comma(later, rest)?)?;
        later = true;
    }
    strip_byte(b']', rest)
}

#[cycle(strip)]
fn after_members<'b>(members: &NameMap<Tree>, bytes: &'b [u8]) -> Option<&'b [u8]>
    ensures { IfSome result (λ rest. bytes.now ≡ members_text_of false (members_view members.now.entries) ++ rest.now) }
{
    let mut rest = bytes;
    let mut later = false;
    for (name, member) in members.iter() {
        let named = strip_quoted(name.as_str(), after_comma(later, rest)?)?;
        rest = strip_tree_text(member, strip_byte(b':', named)?)?;
        later = true;
    }
    strip_byte(b'}', rest)
}

// What follows the comma before all but the first.
fn after_comma(later: bool, bytes: &[u8]) -> Option<&[u8]>
    ensures { IfSome result (λ rest. bytes.now ≡ comma_if later ++ rest.now) }
{
    if later {
        strip_byte(b',', bytes)
    } else {
        Some(bytes)
    }
}

fn after_int(n: i64, bytes: &[u8]) -> Option<&[u8]>
    ensures { IfSome result (λ rest. bytes.now ≡ signed_decimal n ++ rest.now) }
{
    let mut buffer = itoa::Buffer::new();
    strip_bytes(buffer.format(n).as_bytes(), bytes)
}
