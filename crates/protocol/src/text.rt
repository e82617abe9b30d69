//! Reply lines that lend what they show, written by `serde_json` in memory of their own.
ghost use Rattle.std.specs.Prelude.{◌≡◌, List, ℕ, map, IfOk, OnOk, true};
ghost use Rattle.serde.specs.Event.{Logs};
ghost use Rattle.serde_json.specs.Events.{SendsValue};
ghost use Rattle.doc_tree.specs.Doc.{list};
ghost use Rattle.doc_tree.specs.Text.{data_of};
ghost use Rattle.doc_tree.specs.TreeView.{view};
ghost use Rattle.protocol.specs.Reply.{line_of, names_reply, texts, value_reply};

use crate::shown::shown_line;
use doc_tree::Tree;
use serde::{Described, Serialize, Serializer};
use std::alloc::{AllocError, Global};

/// The line of a reply that shows a value.
pub fn value_line(alloc: Global, value: &Tree) -> Result<Vec<u8>, AllocError>
    ensures { IfOk result (λ line. line.items ≡ line_of (value_reply (view value.now))) }
{
    shown_line(alloc, &ValueReply { value })
}

/// The line of a reply that shows names.
pub fn names_line(alloc: Global, names: &[&str]) -> Result<Vec<u8>, AllocError>
    ensures { IfOk result (λ line. line.items ≡ line_of (names_reply (map (λ n. n.now) names.now))) }
{
    shown_line(alloc, &NamesReply { names })
}

#[derive(Drop)]
struct ValueReply<'v> {
    value: &'v Tree,
}

impl Described for ValueReply<'_> {
    ghost writes = { λ reply. SendsValue (data_of (value_reply (view reply.value.now))) };
}

impl Serialize for ValueReply<'_> {
    fn serialize<S: Serializer>(&self, out: &mut S) -> Result<(), S::Error> {
        out.begin_map(Some(2))?;
        out.key("ok")?;
        out.bool(true)?;
        out.key("value")?;
        self.value.serialize(out)?;
        out.end_map()
    }
}

#[derive(Drop)]
struct NamesReply<'n> {
    names: &'n [&'n str],
}

impl Described for NamesReply<'_> {
    ghost writes = { λ reply. SendsValue (data_of (names_reply (map (λ n. n.now) reply.names.now))) };
}

impl Serialize for NamesReply<'_> {
    fn serialize<S: Serializer>(&self, out: &mut S) -> Result<(), S::Error> {
        out.begin_map(Some(2))?;
        out.key("names")?;
        send_texts(self.names, out)?;
        out.key("ok")?;
        out.bool(true)?;
        out.end_map()
    }
}

fn send_texts<S: Serializer>(all: &[&str], out: &mut S) -> Result<(), S::Error>
    ensures { OnOk result (SendsValue (data_of (list (texts (map (λ t. t.now) all.now))))
        (S.written out.old) (S.written out.new)) }
{
    out.begin_seq(Some(all.len()))?;
    for text in all {
        out.str(text)?;
    }
    out.end_seq()
}
