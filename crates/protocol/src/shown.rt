//! The text of a reply, or of a part of one, that `serde_json` writes.
ghost use Rattle.std.specs.Prelude.{◌≡◌, [], Some, IfOk};
ghost use Rattle.serde.specs.Event.{Log};
ghost use Rattle.serde_json.specs.Events.{SendsValue};
ghost use Rattle.doc_tree.specs.Doc.{Doc};
ghost use Rattle.doc_tree.specs.Text.{data_of, text_of};
ghost use Rattle.protocol.specs.Reply.{line_of};

use serde::Serialize;
use std::alloc::{AllocError, Global};

/// The line of the reply that a value shows, in memory of its own. The value lends what it shows.
pub fn shown_line<T: Serialize>(alloc: Global, shown: &T) -> Result<Vec<u8>, AllocError>
    ensures { (reply : Doc) → ((log : Log) → T.writes shown.now (Some []) log → SendsValue (data_of reply) (Some []) log)
        → IfOk result (λ line. line.items ≡ line_of reply) }
{
    let mut line = shown_text(alloc, shown)?;
    line.push(b'\n')?;
    Ok(line)
}

/// The text of the document that a value shows.
pub(crate) fn shown_text<T: Serialize>(alloc: Global, shown: &T) -> Result<Vec<u8>, AllocError>
    ensures { (doc : Doc) → ((log : Log) → T.writes shown.now (Some []) log → SendsValue (data_of doc) (Some []) log)
        → IfOk result (λ text. text.items ≡ text_of doc) }
{
    let Ok(text) = serde_json::to_vec(alloc, shown) else {
        return Err(AllocError);
    };
    Ok(text)
}
