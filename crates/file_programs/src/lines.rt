//! A line of a program itself.

ghost use Rattle.file_programs.specs.Shown.{Shows};

use crate::fault::Fault;
use std::io::Write;

/// Writes a line, line feed included, outside of a session.
pub fn show_line<O: Write>(writer: &mut O, line: &[u8]) -> Result<(), Fault>
    ensures { Shows result line.now (O.contents writer.old) (O.contents writer.new) }
{
    match writer.write_all(line) {
        Ok(()) => Ok(()),
        Err(_) => Err(Fault::Writer),
    }
}
