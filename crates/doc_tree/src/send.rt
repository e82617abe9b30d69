//! A tree as serde's data: one event a value, and members in order of their names.
ghost use Rattle.std.specs.Prelude.{OnOk};
ghost use Rattle.serde.specs.Event.{Logs};
ghost use Rattle.serde_json.specs.Data.{array, object};
ghost use Rattle.serde_json.specs.Events.{number_event, SendsValue};
ghost use Rattle.serde_json.specs.Find.{of_integer};
ghost use Rattle.doc_tree.specs.Sound.{IsSound, AreSound, MembersAreSound};
ghost use Rattle.doc_tree.specs.Text.{data_of, items_of, members_of};
ghost use Rattle.doc_tree.specs.TreeView.{view, elements_view, members_view};

use crate::tree::Tree;
use name_map::NameMap;
use serde::{Described, Serialize, Serializer};
use serde_json::Number;

impl Described for Tree {
    // Only a sound document is sent, so that what is written is UTF-8.
    ghost writes = { λ t before after.
        SendsValue (data_of (view t)) before after × IsSound (view t) };
}

impl Serialize for Tree {
    fn serialize<S: Serializer>(&self, out: &mut S) -> Result<(), S::Error> {
        send(self, out)
    }
}

#[cycle(send)]
fn send<S: Serializer>(tree: &Tree, out: &mut S) -> Result<(), S::Error>
    ensures events { OnOk result
        (SendsValue (data_of (view tree.now)) (S.written out.old) (S.written out.new)) }
    ensures sound { OnOk result (IsSound (view tree.now)) }
{
    match tree {
        Tree::Null => out.unit(),
        Tree::Bool(b) => out.bool(*b),
        Tree::Int(n) => send_int(*n, out),
        Tree::Text(text) => out.str(text.as_str()),
        Tree::List(items) => send_items(items, out),
        Tree::Object(members) => send_members(members, out),
    }
}

fn send_int<S: Serializer>(n: i64, out: &mut S) -> Result<(), S::Error>
    ensures { OnOk result (Logs (S.written out.old) (S.written out.new) (number_event (of_integer n))) }
{
    Number::from(n).serialize(out)
}

#[cycle(send)]
fn send_items<S: Serializer>(items: &Vec<Tree>, out: &mut S) -> Result<(), S::Error>
    ensures events { OnOk result (SendsValue (array (items_of (elements_view items.now.items)))
        (S.written out.old) (S.written out.new)) }
    ensures sound { OnOk result (AreSound (elements_view items.now.items)) }
{
    out.begin_seq(Some(items.len()))?;
    for item in items {
        send(item, out)?;
    }
    out.end_seq()
}

#[cycle(send)]
fn send_members<S: Serializer>(members: &NameMap<Tree>, out: &mut S) -> Result<(), S::Error>
    ensures events { OnOk result (SendsValue (object (members_of (members_view members.now.entries)))
        (S.written out.old) (S.written out.new)) }
    ensures sound { OnOk result (MembersAreSound (members_view members.now.entries)) }
{
    out.begin_map(Some(members.len()))?;
    for (name, member) in members.iter() {
        out.key(name.as_str())?;
        send(member, out)?;
    }
    out.end_map()
}
