//! The compact texts of commands' objects, written after what a buffer holds.
ghost use Rattle.std.specs.Prelude.{◌≡◌, [], ◌∷◌, ◌++◌, OnOk, Some, None, decimal};
ghost use Rattle.doc_tree.specs.Sound.{IsSound};
ghost use Rattle.doc_tree.specs.Text.{text_of};
ghost use Rattle.doc_tree.specs.TreeView.{view};
ghost use Rattle.record_text.specs.Change.{IsSpelled, change_of, create, delete, object_of, patch, set_schema};
ghost use Rattle.record_text.specs.Frame.{body_of};

use crate::command::Command;
use doc_tree::{Tree, put_quoted};
use std::alloc::AllocError;

/// Adds the text of a command's object.
pub(crate) fn put_command(command: &Command, out: &mut Vec<u8>) -> Result<(), AllocError>
    requires { IsSpelled (change_of command.now) }
    ensures text { OnOk result (out.new.items ≡ out.old.items ++ body_of (change_of command.now)) }
    ensures sound { OnOk result (IsSound (object_of (change_of command.now))) }
{
    match command {
        Command::Create { name, schema, doc } => put_create(name.as_str(), schema, doc, out),
        Command::Patch { name, ops, if_rev } => match *if_rev {
            Some(rev) => put_patch_of(name.as_str(), ops, rev, out),
            None => put_patch(name.as_str(), ops, out),
        },
        Command::Schema { name, schema } => put_schema(name.as_str(), schema, out),
        Command::Delete { name } => put_delete(name.as_str(), out),
    }
}

/// Adds the text of the creation of a document, whose parts are lent.
pub(crate) fn put_create(
    name: &str,
    schema: &Tree,
    doc: &Tree,
    out: &mut Vec<u8>,
) -> Result<(), AllocError>
    ensures text { OnOk result
        (out.new.items ≡ out.old.items ++ body_of (create name.now (view schema.now) (view doc.now))) }
    ensures sound { OnOk result (IsSound (object_of (create name.now (view schema.now) (view doc.now)))) }
{
    out.extend_from_slice(b"{\"cmd\":\"create\",\"doc\":")?;
    doc.put_text(out)?;
    out.extend_from_slice(b",\"name\":")?;
    put_quoted(name, out)?;
    put_last(b",\"schema\":", schema, out)
}

fn put_patch(name: &str, ops: &Tree, out: &mut Vec<u8>) -> Result<(), AllocError>
    ensures text { OnOk result (out.new.items ≡ out.old.items ++ body_of (patch name.now (view ops.now) None)) }
    ensures sound { OnOk result (IsSound (object_of (patch name.now (view ops.now) None))) }
{
    out.extend_from_slice(b"{\"cmd\":\"patch\",\"name\":")?;
    put_quoted(name, out)?;
    put_last(b",\"ops\":", ops, out)
}

fn put_patch_of(name: &str, ops: &Tree, rev: u64, out: &mut Vec<u8>) -> Result<(), AllocError>
    requires { IsSpelled (patch name.now (view ops.now) (Some rev)) }
    ensures text { OnOk result
        (out.new.items ≡ out.old.items ++ body_of (patch name.now (view ops.now) (Some rev))) }
    ensures sound { OnOk result (IsSound (object_of (patch name.now (view ops.now) (Some rev)))) }
{
    out.extend_from_slice(b"{\"cmd\":\"patch\",\"if_rev\":")?;
    put_number(rev, out)?;
    out.extend_from_slice(b",\"name\":")?;
    put_quoted(name, out)?;
    put_last(b",\"ops\":", ops, out)
}

fn put_schema(name: &str, schema: &Tree, out: &mut Vec<u8>) -> Result<(), AllocError>
    ensures text { OnOk result (out.new.items ≡ out.old.items ++ body_of (set_schema name.now (view schema.now))) }
    ensures sound { OnOk result (IsSound (object_of (set_schema name.now (view schema.now)))) }
{
    out.extend_from_slice(b"{\"cmd\":\"schema\",\"name\":")?;
    put_quoted(name, out)?;
    put_last(b",\"schema\":", schema, out)
}

fn put_delete(name: &str, out: &mut Vec<u8>) -> Result<(), AllocError>
    ensures text { OnOk result (out.new.items ≡ out.old.items ++ body_of (delete name.now)) }
    ensures sound { OnOk result (IsSound (object_of (delete name.now))) }
{
    out.extend_from_slice(b"{\"cmd\":\"delete\",\"name\":")?;
    put_quoted(name, out)?;
    out.extend_from_slice(b"}")
}

// The last member of an object, `before` being what comes before its value, and the closing brace.
fn put_last(before: &[u8], value: &Tree, out: &mut Vec<u8>) -> Result<(), AllocError>
    ensures text { OnOk result
        (out.new.items ≡ out.old.items ++ (before.now ++ (text_of (view value.now) ++ 125 ∷ []))) }
    ensures sound { OnOk result (IsSound (view value.now)) }
{
    out.extend_from_slice(before)?;
    value.put_text(out)?;
    out.extend_from_slice(b"}")
}

fn put_number(number: u64, out: &mut Vec<u8>) -> Result<(), AllocError>
    ensures { OnOk result (out.new.items ≡ out.old.items ++ decimal number) }
{
    let mut buffer = itoa::Buffer::new();
    out.extend_from_slice(buffer.format(number).as_bytes())
}
