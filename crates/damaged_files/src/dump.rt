//! The documents of a machine as lines.
ghost use Rattle.std.specs.Prelude.{◌≡◌, IfOk};
ghost use Rattle.doc_tree.specs.Text.{data_of};
ghost use Rattle.serde_json.specs.Events.{SendsValue};
ghost use Rattle.store_salvage.specs.Lines.{end_of_lines};
ghost use Rattle.damaged_files.specs.Dump.{dump_of, last_line};
ghost use Rattle.damaged_files.specs.Shown.{Shows};

use crate::showing::{ShowFault, show};
use doc_machine::Machine;
use serde::{Described, Serialize, Serializer};
use std::alloc::{AllocError, Global};
use std::io::Write;
use store_salvage::lines;

/// Shows for each document of a machine the line that makes it, and then one that counts these, with that number as the one
/// of the last change. `Err`: memory was refused, and nothing is shown; or the writer failed.
pub fn show_documents<O: Write>(
    alloc: Global,
    machine: &Machine,
    seq: u64,
    writer: &mut O,
) -> Result<(), ShowFault>
    ensures { Shows result (dump_of machine.now.documents seq) (O.contents writer.old) (O.contents writer.new) }
{
    let look = machine.look();
    let mut text = lines(alloc, &look)?;
    let end = last_line(alloc, look.len() as u64, seq)?;
    text.extend_from_slice(&end)?;
    show(writer, &text)
}

// The line after `lines` lines.
fn last_line(alloc: Global, lines: u64, seq: u64) -> Result<Vec<u8>, AllocError>
    ensures { IfOk result (λ line. line.items ≡ last_line lines seq) }
{
    let Ok(mut line) = serde_json::to_vec(alloc, &LastLine { lines, seq }) else {
        return Err(AllocError);
    };
    line.push(b'\n')?;
    Ok(line)
}

// That it is the last line, the number of those before it, and of the last change.
#[derive(Clone, Copy)]
struct LastLine {
    lines: u64,
    seq: u64,
}

impl Described for LastLine {
    ghost writes = { λ line. SendsValue (data_of (end_of_lines line.lines line.seq)) };
}

impl Serialize for LastLine {
    fn serialize<S: Serializer>(&self, out: &mut S) -> Result<(), S::Error> {
        out.begin_map(Some(3))?;
        out.key("end")?;
        out.bool(true)?;
        out.key("lines")?;
        out.u64(self.lines)?;
        out.key("seq")?;
        out.u64(self.seq)?;
        out.end_map()
    }
}
