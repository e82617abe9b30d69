//! The compact text of a document, written after what a buffer holds.
ghost use Rattle.std.specs.Fmt.{signed_decimal};
ghost use Rattle.std.specs.Prelude.{◌≡◌, ◌++◌, false, OnOk};
ghost use Rattle.json.specs.Print.{escape, quoted};
ghost use Rattle.serde_json.specs.Written.{comma_if};
ghost use Rattle.doc_tree.specs.Sound.{AreSound, IsSound, MembersAreSound};
ghost use Rattle.doc_tree.specs.Text.{text_of};
ghost use Rattle.doc_tree.specs.TreeView.{view, elements_view, members_view};
ghost use Rattle.doc_tree.specs.Doc.{list, object};

use crate::escape::put_escaped;
use crate::plain::is_plain;
use crate::tree::Tree;
use name_map::NameMap;
use std::alloc::AllocError;

impl Tree {
    /// Adds the compact text to the bytes, as `text` answers it. The one error is that memory was refused; a part of
    /// the text may then have been added.
    pub fn put_text(&self, out: &mut Vec<u8>) -> Result<(), AllocError>
        ensures text { OnOk result (out.new.items ≡ out.old.items ++ text_of (view self.now)) }
        ensures sound { OnOk result (IsSound (view self.now)) }
    {
        put_tree(self, out)
    }
}

/// Adds the text to the bytes as a JSON string (RFC 8259, section 7). The error is that of `Tree::put_text`.
pub fn put_quoted(text: &str, out: &mut Vec<u8>) -> Result<(), AllocError>
    ensures { OnOk result (out.new.items ≡ out.old.items ++ quoted text.now) }
{
    out.push(b'"')?;
    put_inside(text.as_bytes(), out)?;
    out.push(b'"')?;
    Ok(())
}

// What is between the quotes.
#[inline]
fn put_inside(text: &[u8], out: &mut Vec<u8>) -> Result<(), AllocError>
    ensures { OnOk result (out.new.items ≡ out.old.items ++ escape text.now) }
{
    if is_plain(text) {
        out.extend_from_slice(text)
    } else {
        put_escaped(text, out)
    }
}

#[cycle(put)]
fn put_tree(tree: &Tree, out: &mut Vec<u8>) -> Result<(), AllocError>
    ensures text { OnOk result (out.new.items ≡ out.old.items ++ text_of (view tree.now)) }
    ensures sound { OnOk result (IsSound (view tree.now)) }
{
    match tree {
        Tree::Null => out.extend_from_slice(b"null"),
        Tree::Bool(true) => out.extend_from_slice(b"true"),
        Tree::Bool(false) => out.extend_from_slice(b"false"),
        Tree::Int(n) => put_int(*n, out),
        Tree::Text(text) => put_quoted(text.as_str(), out),
        Tree::List(items) => put_elements(items, out),
        Tree::Object(members) => put_members(members, out),
    }
}

#[cycle(put)]
fn put_elements(items: &Vec<Tree>, out: &mut Vec<u8>) -> Result<(), AllocError>
    ensures text { OnOk result
        (out.new.items ≡ out.old.items ++ text_of (list (elements_view items.now.items))) }
    ensures sound { OnOk result (AreSound (elements_view items.now.items)) }
{
    out.push(b'[')?;
    let mut later = false;
    for item in items {
        put_comma(later, out)?;
        put_tree(item, out)?;
        later = true;
    }
    out.push(b']')?;
    Ok(())
}

#[cycle(put)]
fn put_members(members: &NameMap<Tree>, out: &mut Vec<u8>) -> Result<(), AllocError>
    ensures text { OnOk result
        (out.new.items ≡ out.old.items ++ text_of (object (members_view members.now.entries))) }
    ensures sound { OnOk result (MembersAreSound (members_view members.now.entries)) }
{
    out.push(b'{')?;
    let mut later = false;
    for (name, member) in members.iter() {
        put_comma(later, out)?;
        put_quoted(name.as_str(), out)?;
        out.push(b':')?;
        put_tree(member, out)?;
        later = true;
    }
    out.push(b'}')?;
    Ok(())
}

// The comma before all but the first.
#[inline]
fn put_comma(later: bool, out: &mut Vec<u8>) -> Result<(), AllocError>
    ensures { OnOk result (out.new.items ≡ out.old.items ++ comma_if later) }
{
    if later {
        out.push(b',')?;
    }
    Ok(())
}

fn put_int(n: i64, out: &mut Vec<u8>) -> Result<(), AllocError>
    ensures { OnOk result (out.new.items ≡ out.old.items ++ signed_decimal n) }
{
    let mut buffer = itoa::Buffer::new();
    out.extend_from_slice(buffer.format(n).as_bytes())
}
