//! Plays transcripts: command lines, what is done to the device between them, and the replies that are wanted.
//!
//! Each word after the program's name is a file. A row begins with its name, and has a disk of 16 sectors of its own, in
//! memory and formatted, which the first command line opens.
//!
//!     # what the row shows
//!     @pick 0 1                   it is played once with each, which then replaces %pick%
//!     !fuse 12                    a word for the device (`words`)
//!     {"cmd":"list"}              a command line; <<x*600>> means 600 times x
//!     > {"names":[],"ok":true}    a reply, or what a word says
//!
//! The command lines up to a reply or a word are one session. A reply is compared whole; after `> ..` it ends with the
//! text, and after `> #` it has that number of bytes. A row that goes another way is shown with both texts, and the
//! status is then 1.
//!
//! The word `-` is standard input, whose lines are done as they come (`along`).
#![tactic(auto)]

mod along;
mod bench;
mod fault;
mod play;
mod replies;
mod script;
mod texts;
mod torn;
mod words;

use along::play_along;
use fault::Fault;
use play::play;
use script::{Row, rows_of};
use std::process::ExitCode;
use std::{env, fs};

fn main(rt: HostRuntime) -> ExitCode {
    match play_files(&rt) {
        Ok(true) => ExitCode::from(0),
        Ok(false) => ExitCode::from(1),
        Err(fault) => {
            let _ = eprintln!(rt; "transcripts: {fault:?}");
            ExitCode::from(2)
        }
    }
}

/// Plays each file, and answers whether all went as they should.
fn play_files(rt: &HostRuntime) -> Result<bool, Fault> {
    let files: Vec<String> = env::args(rt)?.collect(rt.alloc())?;
    let mut well = true;
    for file in files.iter().skip(1) {
        if file.as_str() == "-" {
            play_along(rt)?;
            continue;
        }
        let text = fs::read_to_string(rt, file.as_str())?;
        well = play_rows(rt, file.as_str(), text.as_str())? && well;
    }
    Ok(well)
}

/// Plays the rows of a file, and prints those that went another way.
fn play_rows(rt: &HostRuntime, file: &str, text: &str) -> Result<bool, Fault> {
    let mut well = true;
    let rows = rows_of(rt.alloc(), text)?;
    for (index, row) in rows.iter().enumerate() {
        for turn in 0..row.plays() {
            well = play_row(rt, file, index, row, turn)? && well;
        }
    }
    if well {
        println!(rt; "{file}: all rows went as they should")?;
    }
    Ok(well)
}

/// Plays a row once, and prints it if it went another way.
fn play_row(
    rt: &HostRuntime,
    file: &str,
    index: usize,
    row: &Row,
    turn: usize,
) -> Result<bool, Fault> {
    let number = index.saturating_add(1);
    let name = row.name;
    match play(rt.alloc(), row, turn) {
        Ok(None) => return Ok(true),
        Ok(Some(found)) => {
            println!(rt; "{file}, row {number}, {name} (play {turn})")?;
            println!(rt; "wanted:\n{}said:\n{}", found.wanted, found.said)?;
        }
        Err(Fault::Script) => println!(rt; "{file}, row {number}, {name}: a line is none")?,
        Err(fault) => return Err(fault),
    }
    Ok(false)
}
