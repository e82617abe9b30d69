//! The rows of a query's reply, each written by `serde_json` in memory of its own.
ghost use Rattle.std.specs.Prelude.{◌≡◌, ◌<◌, length, IfOk};
ghost use Rattle.serde_json.specs.Events.{SendsValue};
ghost use Rattle.doc_tree.specs.Text.{data_of, text_of};
ghost use Rattle.path_eval.specs.NodeView.{lent_node_of, listed_of};
ghost use Rattle.protocol.specs.Reply.{node_object};
ghost use Rattle.protocol.specs.Rows.{IsRowOf, row_object};

use crate::shown::shown_text;
use doc_machine::Nodelist;
use doc_tree::Tree;
use path_eval::{LentNode, lent_normal_text};
use serde::{Described, Serialize, Serializer};
use std::alloc::{AllocError, Global};

/// A node of a reply: its normalized path, and its value, which the document lends.
#[derive(Drop)]
struct Row<'n> {
    path: String,
    value: &'n Tree,
}

impl Described for Row<'_> {
    ghost writes = { λ row. SendsValue (data_of (row_object row)) };
}

impl Serialize for Row<'_> {
    fn serialize<S: Serializer>(&self, out: &mut S) -> Result<(), S::Error> {
        out.begin_map(Some(2))?;
        out.key("path")?;
        out.str(self.path.as_str())?;
        out.key("value")?;
        self.value.serialize(out)?;
        out.end_map()
    }
}

/// The text of the row of the node of that number.
pub(crate) fn row_text(
    alloc: Global,
    nodes: &Nodelist<'_>,
    number: usize,
) -> Result<Vec<u8>, AllocError>
    requires { number < length (listed_of nodes.now) }
    ensures { IfOk result (λ text. IsRowOf (listed_of nodes.now) number text.items) }
{
    let node = nodes.node(alloc, number)?;
    node_text(alloc, &node)
}

fn node_text(alloc: Global, node: &LentNode<'_>) -> Result<Vec<u8>, AllocError>
    ensures { IfOk result (λ text. text.items ≡ text_of (node_object (lent_node_of node.now))) }
{
    let row = row_of(alloc, node)?;
    shown_row(alloc, &row)
}

fn row_of<'n>(alloc: Global, node: &LentNode<'n>) -> Result<Row<'n>, AllocError>
    ensures { IfOk result (λ row. row_object row ≡ node_object (lent_node_of node.now)) }
{
    Ok(Row {
        path: lent_normal_text(alloc, node.steps.as_slice())?,
        value: node.value,
    })
}

fn shown_row(alloc: Global, row: &Row<'_>) -> Result<Vec<u8>, AllocError>
    ensures { IfOk result (λ text. text.items ≡ text_of (row_object row.now)) }
{
    shown_text(alloc, row)
}
