//! The program `jpstore`: a crash-safe store of named JSON documents, by command lines and reply lines.
//!
//! `main` hands the words after the program's name and the standard streams to `perform`, which does what the words
//! say and answers the exit status. What a session writes is the contract of `serve_lines::serve`.
#![tactic(auto)]

mod kept;
mod onlooker;
mod perform;
mod programs;
mod progress_line;
mod reasons;
mod sealing;
mod serving;

use file_programs::{Fault, complain};
use onlooker::Watch;
use perform::perform;
use progress_line::ProgressLine;
use std::alloc::Global;
use std::io::{ErrorKind, Write};
use std::process::ExitCode;
use std::{env, io};

fn main(rt: HostRuntime) -> ExitCode {
    let alloc = rt.alloc();
    let mut reader = rt.stdin();
    let mut writer = io::writer(&rt);
    let mut errors = rt.stderr();
    let args = match arguments(&rt) {
        Ok(args) => args,
        Err(error) => return refuse(&error, &mut errors),
    };
    let words = match words_after_the_name(alloc, &args) {
        Ok(words) => words,
        Err(error) => return refuse(&error, &mut errors),
    };
    let status = perform(
        &rt,
        alloc,
        words.as_slice(),
        &mut reader,
        &mut writer,
        &mut errors,
        &mut Watch::new(alloc, ProgressLine::new(&rt, rt.stderr())),
    );
    ExitCode::from(status)
}

fn arguments(rt: &HostRuntime) -> io::Result<Vec<String>> {
    Ok(env::args(rt)?.collect(rt.alloc())?)
}

// The words after the program's own name.
fn words_after_the_name<'a>(alloc: Global, args: &'a [String]) -> io::Result<Vec<&'a str>> {
    let mut words = Vec::new(alloc);
    for word in args.iter().skip(1) {
        words.push(word.as_str())?;
    }
    Ok(words)
}

// There was no memory for the words, or one of them is no text.
fn refuse<E: Write>(error: &io::Error, errors: &mut E) -> ExitCode {
    if error.kind() == ErrorKind::OutOfMemory {
        let _ = complain(errors, Fault::Memory);
        return ExitCode::from(1);
    }
    let _ = writeln!(errors, "jpstore: arguments");
    ExitCode::from(2)
}
