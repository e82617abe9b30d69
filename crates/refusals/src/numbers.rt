//! The number of each refusal.

/// A line has more than 1,048,576 bytes without its LF.
pub const LINE_TOO_LONG: u16 = 10;

/// Bytes are no JSON text (RFC 8259, section 2) in UTF-8, or nest more than 127 deep.
pub const NOT_JSON: u16 = 11;

/// A number in a JSON text is no whole number from -2^63 to 2^63-1.
pub const NUMBER: u16 = 12;

/// A document nests more than 64 deep.
pub const DEPTH: u16 = 13;

/// A line is not one of the commands, with exactly its members.
pub const COMMAND: u16 = 14;

/// A name has not 1 to 64 of the letters, digits, `-`, `_` and `.`.
pub const NAME: u16 = 15;

/// A document of that name already exists.
pub const EXISTS: u16 = 20;

/// No document has that name.
pub const NO_DOCUMENT: u16 = 21;

/// As many documents exist as a store holds: 1,024, in format 3 65,536.
pub const TOO_MANY: u16 = 22;

/// A document's compact text has more than 1,048,576 bytes.
pub const TOO_LARGE: u16 = 23;

/// A patch asks for another revision than the document's.
pub const REVISION: u16 = 24;

/// A transaction asks for another mark than the present one of its key.
pub const MARK: u16 = 25;

/// A patch is no array, or an operation of it is not as RFC 6902, section 4 has it.
pub const PATCH_SHAPE: u16 = 30;

/// `path` or `from` of an operation is no JSON Pointer (RFC 6901, section 3).
pub const PATCH_POINTER: u16 = 31;

/// A place that an operation needs isn't there (RFC 6902, sections 4.1 to 4.6).
pub const PATCH_MISSING: u16 = 32;

/// A value is moved into itself (RFC 6902, section 4.4).
pub const PATCH_INTO_ITSELF: u16 = 33;

/// A test failed (RFC 6902, section 4.6).
pub const PATCH_TEST: u16 = 34;

/// The whole document is removed.
pub const PATCH_ROOT: u16 = 35;

/// A patch has more than 4,096 operations or 2,097,152 bytes of compact text, or nests more than 66
/// deep.
pub const PATCH_LONG: u16 = 36;

/// A pointer names no value of the document.
pub const NO_VALUE: u16 = 37;

/// A text is no JSON Pointer: it is neither empty nor begins with `/`, or a `~` is followed by neither `0` nor `1` (RFC
/// 6901, section 3).
pub const POINTER: u16 = 38;

/// A value at a position of a schema is no schema, or a keyword's value has not its form.
pub const SCHEMA_FORM: u16 = 40;

/// A schema has a keyword that is left out here.
pub const SCHEMA_KEYWORD: u16 = 41;

/// A reference in a schema names no schema.
pub const SCHEMA_REF: u16 = 42;

/// Schemas lead back to themselves at one and the same instance.
pub const SCHEMA_LOOP: u16 = 43;

/// A schema has more than 262,144 bytes of compact text, or nests more than 64 deep.
pub const SCHEMA_SIZE: u16 = 44;

/// A document isn't valid under its schema.
pub const INVALID: u16 = 45;

/// A text is no valid query (RFC 9535, section 2.1).
pub const PATH: u16 = 50;

/// A text is a valid query, but one with something that the profile leaves out: a call of `match` or
/// `search`, or a number literal that is no whole number of 64 bits without fraction and exponent.
pub const PATH_LEFT_OUT: u16 = 51;

/// The text of a query has more than 1,024 bytes.
pub const PATH_LONG: u16 = 52;

/// The list after some segment, of a query or of a query in a filter, has more than 100,000 nodes.
pub const PATH_NODES: u16 = 53;

/// The reply line of a query has more than 16,777,216 bytes.
pub const REPLY_LONG: u16 = 54;

/// A change no longer fits the store.
pub const FULL: u16 = 60;

/// The device failed during the call.
pub const DEVICE: u16 = 61;

/// The device failed earlier, and the store wasn't opened again.
pub const BROKEN: u16 = 62;

/// The allocator refused memory.
pub const MEMORY: u16 = 63;

/// The number of accepted changes would pass 2^64-1.
pub const SEQ_END: u16 = 64;

/// The documents that several changes of one transaction patch, or put under another schema, have more than 33,554,432
/// bytes of text together, each counted with each change.
pub const TRANSACTION_LARGE: u16 = 65;

/// A device on which a format was asked for holds a store: sector 0 begins as a commit sector does, whatever follows.
pub const ALREADY_A_STORE: u16 = 70;

/// A device has fewer than 3 sectors, or more than 2^32.
pub const SMALL: u16 = 71;

/// A device holds no store: it has fewer than 3 sectors or more than 2^32, or sector 0 doesn't begin
/// as a commit sector does.
pub const NOT_A_STORE: u16 = 72;

/// A device holds a store that can't be read.
pub const DAMAGED: u16 = 73;

/// A device holds a store of format 1 whose documents don't fit it in format 2.
pub const NO_ROOM: u16 = 74;

/// A store in format 3 is opened strictly, and its slots say that a commit was cut off: the last answered change may be
/// missing.
pub const CUT_OFF: u16 = 75;

/// A store has a document whose schema an earlier format doesn't allow.
pub const NEWER_SCHEMA: u16 = 76;
