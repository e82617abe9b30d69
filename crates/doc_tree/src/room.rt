//! The length of a text, found without making the text: what room is left after each part.
ghost use Rattle.std.specs.Fmt.{signed_decimal};
ghost use Rattle.std.specs.Prelude.{◌≡◌, ◌+◌, ◌<◌, ◌≤◌, false, length, MatchOption};
ghost use Rattle.std.specs.Option.{SomeIff};
ghost use Rattle.json.specs.Print.{quoted, escape_byte};
ghost use Rattle.doc_tree.specs.Text.{text_of, elements_text, members_text_of};
ghost use Rattle.doc_tree.specs.TreeView.{view, elements_view, members_view};

use crate::plain::is_plain;
use crate::tree::Tree;
use name_map::NameMap;

impl Tree {
    /// The length in bytes of the compact text; `None` if it is over the limit.
    pub fn text_len_within(&self, limit: u64) -> Option<u64>
        ensures { let len = length (text_of (view self.now)) in SomeIff result (len ≤ limit) len }
    {
        let left = room_after(self, limit)?;
        Some(limit - left)
    }
}

/// The length in bytes of the text as a JSON string (RFC 8259, section 7), with its quotes and escapes; `None` if it is
/// over the limit.
pub fn quoted_len_within(text: &str, limit: u64) -> Option<u64>
    ensures { let len = length (quoted text.now) in SomeIff result (len ≤ limit) len }
{
    let left = room_after_quoted(text, limit)?;
    Some(limit - left)
}

#[cycle(room)]
fn room_after(tree: &Tree, room: u64) -> Option<u64>
    ensures { let len = length (text_of (view tree.now)) in
        MatchOption result (room < len) (λ left. left + len ≡ room) }
{
    match tree {
        Tree::Null => room.checked_sub(4),
        Tree::Bool(b) => room.checked_sub(if *b { 4 } else { 5 }),
        Tree::Int(n) => room.checked_sub(int_len(*n)),
        Tree::Text(text) => room_after_quoted(text.as_str(), room),
        Tree::List(items) => room_after_elements(items, room.checked_sub(1)?),
        Tree::Object(members) => room_after_members(members, room.checked_sub(1)?),
    }
}

#[cycle(room)]
fn room_after_elements(items: &Vec<Tree>, room: u64) -> Option<u64>
    ensures { let len = length (elements_text false (elements_view items.now.items)) in
        MatchOption result (room < len) (λ left. left + len ≡ room) }
{
    let mut left = room;
    let mut later = false;
    for item in items {
        if later {
            left = left.checked_sub(1)?;
        }
        later = true;
        left = room_after(item, left)?;
    }
    left.checked_sub(1)
}

#[cycle(room)]
fn room_after_members(members: &NameMap<Tree>, room: u64) -> Option<u64>
    ensures { let len = length (members_text_of false (members_view members.now.entries)) in
        MatchOption result (room < len) (λ left. left + len ≡ room) }
{
    let mut left = room;
    let mut later = false;
    for (name, member) in members.iter() {
        if later {
            left = left.checked_sub(1)?;
        }
        later = true;
        left = room_after_quoted(name.as_str(), left)?.checked_sub(1)?;
        left = room_after(member, left)?;
    }
    left.checked_sub(1)
}

fn room_after_quoted(text: &str, room: u64) -> Option<u64>
    ensures { let len = length (quoted text.now) in
        MatchOption result (room < len) (λ left. left + len ≡ room) }
{
    let bytes = text.as_bytes();
    let mut left = room.checked_sub(2)?;
    if is_plain(bytes) {
        return left.checked_sub(bytes.len() as u64);
    }
    for byte in bytes {
        left = left.checked_sub(escaped_len(*byte))?;
    }
    Some(left)
}

#[tactic(auto, unfolding(json::specs::Print::escape_byte))]
fn escaped_len(byte: u8) -> u64
    ensures { result ≡ length (escape_byte byte) }
{
    if byte == b'"' || byte == b'\\' {
        2
    } else if byte == 8 || byte == 9 || byte == 10 || byte == 12 || byte == 13 {
        2
    } else if byte < 32 {
        6
    } else {
        1
    }
}

fn int_len(n: i64) -> u64
    ensures { result ≡ length (signed_decimal n) }
{
    let mut buffer = itoa::Buffer::new();
    buffer.format(n).len() as u64
}
