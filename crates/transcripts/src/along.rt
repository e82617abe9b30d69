//! A play that standard input leads.

use crate::bench::Bench;
use crate::fault::Fault;
use crate::words::act;
use std::alloc::Global;
use std::io::{BufRead, BufReader};

/// The separator of the command lines of one session, which are one line of standard input. No JSON text has it.
const BETWEEN: &str = "\u{1e}";

/// Does each line of standard input as it comes: a new bench for `# NAME`, a word, or a session of a command line or of
/// several, with `BETWEEN` between them. Each reply or report is printed at once, with a line `.` after it.
pub fn play_along(rt: &HostRuntime) -> Result<(), Fault> {
    let mut bench = Bench::new(rt.alloc())?;
    follow(rt, &mut bench)
}

/// Does each line over the bench at hand.
fn follow(rt: &HostRuntime, bench: &mut Bench) -> Result<(), Fault> {
    let alloc = rt.alloc();
    for line in BufReader::new(alloc, rt.reader())?.lines(alloc) {
        let said = said_to(alloc, bench, line?)?;
        println!(rt; "{said}.")?;
    }
    Ok(())
}

/// Does a line, and answers what is said to it.
fn said_to(alloc: Global, bench: &mut Bench, line: String) -> Result<String, Fault> {
    let mut said = String::new(alloc);
    if line.starts_with("# ") {
        begin(alloc, bench)?;
    } else if let Some(word) = line.strip_prefix('!') {
        act(alloc, bench, word, &mut said)?;
    } else {
        serve(alloc, bench, &line, &mut said)?;
    }
    Ok(said)
}

/// Puts a new bench in the place of the one at hand.
fn begin(alloc: Global, bench: &mut Bench) -> Result<(), Fault> {
    *bench = Bench::new(alloc)?;
    Ok(())
}

/// Serves the command lines of a line in one session.
fn serve(alloc: Global, bench: &mut Bench, line: &str, said: &mut String) -> Result<(), Fault> {
    let mut lines = line.replace(alloc, BETWEEN, "\n")?;
    lines.push('\n')?;
    bench.serve(lines.as_str(), said)
}
