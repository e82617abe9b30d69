//! The name of each number.

ghost use Rattle.std.specs.Prelude.{◌≡◌};
ghost use Rattle.refusals.specs.Names as names;

use crate::numbers::*;

/// The name of the refusal of that number, or the empty text if there is none.
pub fn name_of(number: u16) -> &'static str
    ensures { result.now ≡ names.name_of number }
{
    match number {
        LINE_TOO_LONG => "line-too-long",
        NOT_JSON => "not-json",
        NUMBER => "number",
        DEPTH => "depth",
        COMMAND => "command",
        NAME => "name",
        EXISTS => "exists",
        NO_DOCUMENT => "no-document",
        TOO_MANY => "too-many",
        TOO_LARGE => "too-large",
        REVISION => "revision",
        MARK => "mark",
        PATCH_SHAPE => "patch-shape",
        PATCH_POINTER => "patch-pointer",
        PATCH_MISSING => "patch-missing",
        PATCH_INTO_ITSELF => "patch-into-itself",
        PATCH_TEST => "patch-test",
        PATCH_ROOT => "patch-root",
        PATCH_LONG => "patch-long",
        NO_VALUE => "no-value",
        POINTER => "pointer",
        SCHEMA_FORM => "schema-form",
        SCHEMA_KEYWORD => "schema-keyword",
        SCHEMA_REF => "schema-ref",
        SCHEMA_LOOP => "schema-loop",
        SCHEMA_SIZE => "schema-size",
        INVALID => "invalid",
        PATH => "path",
        PATH_LEFT_OUT => "path-left-out",
        PATH_LONG => "path-long",
        PATH_NODES => "path-nodes",
        REPLY_LONG => "reply-long",
        FULL => "full",
        DEVICE => "device",
        BROKEN => "broken",
        MEMORY => "memory",
        SEQ_END => "seq-end",
        TRANSACTION_LARGE => "transaction-large",
        ALREADY_A_STORE => "already-a-store",
        SMALL => "small",
        NOT_A_STORE => "not-a-store",
        DAMAGED => "damaged",
        NO_ROOM => "no-room",
        CUT_OFF => "cut-off",
        NEWER_SCHEMA => "newer-schema",
        _ => "",
    }
}
