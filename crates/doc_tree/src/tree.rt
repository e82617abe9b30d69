//! A document in memory, and the steps by which its parts are named.
use name_map::NameMap;

/// A JSON value (RFC 8259, section 3) whose numbers are 64-bit whole numbers.
#[derive(Drop)]
pub enum Tree {
    Null,
    Bool(bool),
    Int(i64),
    Text(String),
    /// An array, element by element.
    List(Vec<Tree>),
    /// An object; its members are in the order of their names' UTF-8 bytes.
    Object(NameMap<Tree>),
}

/// A step from a document to one of its children.
#[derive(Drop)]
pub enum Step {
    /// To the member of that name.
    Name(String),
    /// To the element at that index, counted from 0.
    Index(u64),
}
