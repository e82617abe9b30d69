//! The quick reader of compact text.
//
//! It states nothing of what it answers: its callers compare the tree's text with the bytes (`Tree::strip_text`), and
//! read with `Tree::read` if nothing is answered. So all that is proved here is that it ends and never panics, whatever
//! the bytes are.
use crate::alike;
use crate::plain::plain_len;
use crate::strip::strip_byte;
use crate::tree::Tree;
use name_map::NameMap;
use simdutf8::basic::from_utf8;
use std::alloc::Global;

// How deep lists and objects may nest: as deep as `Tree::read` reads.
const MOST_LEVELS: u32 = 127;

// A number with digits of this value or more is too large with a further digit.
const DIGITS_END: u64 = 1_000_000_000_000_000_000;

impl Tree {
    /// A document whose compact text the bytes may begin with, and what follows it.
    ///
    /// Nothing is stated of the answer: `strip_text` says whether the bytes begin with that document's text. `None`
    /// says nothing either. It is answered if there is no compact text, as soon as a name doesn't come after the one
    /// before it, and also if the text has an escape or the number -2^63, is over 127 levels deep, or memory is refused.
    pub fn read_compact(alloc: Global, bytes: &[u8]) -> Option<(Tree, &[u8])> {
        value(alloc, MOST_LEVELS, bytes, None, None)
    }

    /// A document whose compact text the bytes may be.
    ///
    /// As with `read_compact`, nothing is stated of the answer. But here all bytes are tested for UTF-8 at once, and not
    /// those of each text alone: it is made for bytes that are one text.
    pub fn read_compact_whole(alloc: Global, bytes: &[u8]) -> Option<Tree> {
        let whole = from_utf8(bytes).ok()?;
        let (tree, _) = value(alloc, MOST_LEVELS, bytes, Some(whole), None)?;
        Some(tree)
    }
}

/// A text that the bytes may begin with as a JSON string with no escape, and what follows it.
///
/// As with `Tree::read_compact`, nothing is stated of the answer: `strip_quoted` says.
pub fn read_unescaped(alloc: Global, bytes: &[u8]) -> Option<(String, &[u8])> {
    let (text, rest) = unescaped(bytes, None)?;
    Some((String::from_str(alloc, text).ok()?, rest))
}

// The same as a part of the bytes, which are the last ones of `whole` if that is given.
fn unescaped<'b>(bytes: &'b [u8], whole: Option<&'b str>) -> Option<(&'b str, &'b [u8])> {
    let inside = strip_byte(b'"', bytes)?;
    let (plain, rest) = inside.split_at(plain_len(inside));
    let after = strip_byte(b'"', rest)?;
    Some((text_before(plain, rest, whole)?, after))
}

// The bytes before the rest as a text. As a part of `whole` they need no test of their own.
fn text_before<'b>(plain: &'b [u8], rest: &[u8], whole: Option<&'b str>) -> Option<&'b str> {
    match whole {
        Some(whole) => {
            let end = whole.len().checked_sub(rest.len())?;
            whole.get(end.checked_sub(plain.len())?..end)
        }
        None => from_utf8(plain).ok(),
    }
}

// `whole` is a text of which the bytes are the last ones, if one is known, and `like` a tree that may look like the one to
// be read, and then shares its names with it.
#[cycle(compact)]
fn value<'b>(
    alloc: Global,
    levels: u32,
    bytes: &'b [u8],
    whole: Option<&'b str>,
    like: Option<&Tree>,
) -> Option<(Tree, &'b [u8])> {
    match *bytes.first()? {
        b'"' => {
            let (text, rest) = unescaped(bytes, whole)?;
            Some((Tree::Text(String::from_str(alloc, text).ok()?), rest))
        }
        b'[' => elements(alloc, levels.checked_sub(1)?, &bytes[1..], whole, like),
        b'{' => members(alloc, levels.checked_sub(1)?, &bytes[1..], whole, like),
        b'n' => Some((Tree::Null, bytes.strip_prefix(b"null")?)),
        b't' => Some((Tree::Bool(true), bytes.strip_prefix(b"true")?)),
        b'f' => Some((Tree::Bool(false), bytes.strip_prefix(b"false")?)),
        _ => number(bytes),
    }
}

// The elements after the opening bracket: each takes at least a byte.
#[cycle(compact)]
fn elements<'b>(
    alloc: Global,
    levels: u32,
    bytes: &'b [u8],
    whole: Option<&'b str>,
    like: Option<&Tree>,
) -> Option<(Tree, &'b [u8])> {
    if let Some(rest) = strip_byte(b']', bytes) {
        return Some((Tree::List(Vec::new(alloc)), rest));
    }
    let mut items: Vec<Tree> = Vec::with_capacity(alloc, alike::len_of(like)).ok()?;
    let mut next = bytes;
    for _ in 0..bytes.len() {
        let (item, rest) = value(alloc, levels, next, whole, alike::item(&items, like))?;
        items.push(item).ok()?;
        if let Some(rest) = strip_byte(b']', rest) {
            items.shrink_to_fit();
            return Some((Tree::List(items), rest));
        }
        next = strip_byte(b',', rest)?;
    }
    None
}

// The members after the opening brace, as long as their names come in order.
#[cycle(compact)]
fn members<'b>(
    alloc: Global,
    levels: u32,
    bytes: &'b [u8],
    whole: Option<&'b str>,
    like: Option<&Tree>,
) -> Option<(Tree, &'b [u8])> {
    if let Some(rest) = strip_byte(b'}', bytes) {
        return Some((Tree::Object(NameMap::new(alloc)), rest));
    }
    let mut found: NameMap<Tree> = NameMap::with_capacity(alloc, alike::len_of(like)).ok()?;
    let mut next = bytes;
    let mut last = None;
    for _ in 0..bytes.len() {
        let (name, rest) = unescaped(next, whole)?;
        if !comes_after(name.as_bytes(), last) {
            return None;
        }
        last = Some(name.as_bytes());
        let twin = alike::member(&found, name, like);
        let (member, rest) = value(alloc, levels, strip_byte(b':', rest)?, whole, twin.value)?;
        let name = alike::name_of(alloc, name, twin.name).ok()?;
        found.add_last(name, member)?;
        if let Some(rest) = strip_byte(b'}', rest) {
            found.shrink();
            return Some((Tree::Object(found), rest));
        }
        next = strip_byte(b',', rest)?;
    }
    None
}

fn comes_after(name: &[u8], last: Option<&[u8]>) -> bool {
    match last {
        Some(last) => match (last.first(), name.first()) {
            (Some(before), Some(first)) if before != first => before < first,
            _ => last < name,
        },
        None => true,
    }
}

// The number that the bytes begin with, also if it has a superfluous 0 in front.
fn number(bytes: &[u8]) -> Option<(Tree, &[u8])> {
    let (negative, unsigned) = match strip_byte(b'-', bytes) {
        Some(unsigned) => (true, unsigned),
        None => (false, bytes),
    };
    let end = unsigned.iter().position(|byte| !byte.is_ascii_digit());
    let (digits, rest) = unsigned.split_at(end.unwrap_or(unsigned.len()));
    if digits.is_empty() {
        return None;
    }
    let size = value_of(digits)?;
    let n = if negative { size.checked_neg()? } else { size };
    Some((Tree::Int(n), rest))
}

fn value_of(digits: &[u8]) -> Option<i64> {
    let mut size = 0;
    for digit in digits {
        if size >= DIGITS_END {
            return None;
        }
        size = size * 10 + u64::from(digit.saturating_sub(b'0'));
    }
    i64::try_from(size).ok()
}
