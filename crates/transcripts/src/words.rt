//! The words for the device and the session. Each but `beginnings`, `behind`, `fail`, `fuse`, `pump`, `state`, `times`,
//! `together` and `upgrade` takes the disk from the store, so that the next command line opens it again.
//!
//!     !format N          another disk of N sectors, formatted
//!     !format N 3        the same in format 3
//!     !format            formats the disk as it is; says `refused NUMBER` if it is refused
//!     !blank N           another disk of N sectors, of zeros
//!     !copy N            copies the store, which is open, to a disk of N sectors of zeros, and goes on with that disk; says
//!                        how many bytes it uses there, or `refused NUMBER`
//!     !copy N 3          the same in format 3
//!     !fuse N            from the next opening, formatting or copying on N calls of the device pass, and no later one
//!     !fail N 0          the Nth call from there on fails, and no other; after `1` it has its effect
//!     !behind N          from here on sessions make a step of N sectors after a change, if one is wanted
//!     !together N        from here on sessions make up to N successive changes as one batch
//!     !open              opens the disk; says `refused NUMBER` if it is refused
//!     !pump N            a step of a copied snapshot, of N sectors at most; says how many were written, and whether the
//!                        copy is running, switched or dropped, or `refused NUMBER`
//!     !upgrade N         brings the store to format 3, or for any other number to format 2; says `from` and the number of the
//!                        format that it was in, or `refused NUMBER`
//!     !state             says the status and each document after its revision and schema, or `closed` if the disk
//!                        isn't open
//!     !crash PICK ..     the power fails: sector i keeps its content after the last sync for pick 0, else the one that
//!                        was written that many writes later; a sector without a pick takes 0
//!     !torn B PICK ..    the power fails: the sectors of the aligned block B, which are 8 from sector 8 x B on, keep what the
//!                        pick says, or are damaged for 9, if something was written to the block since the last sync; a
//!                        block that isn't named takes 0
//!     !calls N           says the calls of the device from the Nth on, counted from 0
//!     !sector S FROM TO  says the bytes of a sector
//!     !write S FROM B .. writes bytes into a sector
//!     !text S FROM TEXT  writes the bytes of a text into a sector
//!     !turn S AT         turns the lowest bit of a byte of a sector
//!     !beginnings LINE   sends each proper beginning of the line, without a line feed after it, as a session of its
//!                        own, and says each reply that isn't the one before
//!     !times N LINE      sends the line N times, with 1, 2, .. for each #, and says the last reply

use crate::bench::Bench;
use crate::fault::Fault;
use crate::torn::crash_blocks;
use doc_store::Format;
use sector_device::{DeviceCall, MemDisk, SectorDevice};
use std::alloc::Global;

/// Does what a word says, and adds what there is to say.
pub fn act(alloc: Global, bench: &mut Bench, word: &str, said: &mut String) -> Result<(), Fault> {
    let (name, rest) = word.split_once(' ').unwrap_or((word, ""));
    match name {
        "times" => return times(alloc, bench, rest, said),
        "beginnings" => return beginnings(alloc, bench, rest, said),
        "text" => return write_text(alloc, bench, rest, said),
        _ => {}
    }
    let numbers = numbers_of(alloc, rest)?;
    act_by(bench, name, &numbers, said)
}

/// The words that take numbers alone.
fn act_by(bench: &mut Bench, name: &str, numbers: &[u64], said: &mut String) -> Result<(), Fault> {
    match name {
        "format" if numbers.is_empty() => bench.format(said),
        "format" if numbers.len() == 2 => bench.renew_in_3(at(numbers, 0)?),
        "format" => bench.renew(at(numbers, 0)?, true),
        "copy" if numbers.len() == 2 => bench.copy(at(numbers, 0)?, Format::Three, said),
        "copy" => bench.copy(at(numbers, 0)?, Format::Two, said),
        "blank" => bench.renew(at(numbers, 0)?, false),
        "fuse" => {
            bench.passing = at(numbers, 0)?;
            Ok(())
        }
        "fail" => {
            bench.failing = (at(numbers, 0)?, at(numbers, 1)? == 1);
            Ok(())
        }
        "behind" => {
            bench.behind = at(numbers, 0)?;
            Ok(())
        }
        "together" => {
            bench.together = at(numbers, 0)?;
            Ok(())
        }
        "open" => bench.open(said),
        "pump" => bench.pump(at(numbers, 0)?, said),
        "state" => bench.state(said),
        "upgrade" => bench.upgrade(at(numbers, 0)?, said),
        _ => act_on_disk(bench, name, numbers, said),
    }
}

/// The words that look at the disk or change it.
fn act_on_disk(
    bench: &mut Bench,
    name: &str,
    numbers: &[u64],
    said: &mut String,
) -> Result<(), Fault> {
    let Some(mut disk) = bench.disk() else {
        return Err(Fault::Script);
    };
    if name == "crash" {
        bench.put_back(disk.crash(numbers));
        return Ok(());
    }
    if name == "torn" {
        bench.put_back(crash_blocks(bench.alloc(), disk, numbers)?);
        return Ok(());
    }
    let ended = act_on(&mut disk, name, numbers, said);
    bench.put_back(disk);
    ended
}

/// The words that leave the disk as it is.
fn act_on(disk: &mut MemDisk, name: &str, numbers: &[u64], said: &mut String) -> Result<(), Fault> {
    match name {
        "calls" => say_calls(disk, at(numbers, 0)?, said),
        "sector" => {
            let sector = read(disk, at(numbers, 0)?)?;
            say_bytes(&sector, at(numbers, 1)?, at(numbers, 2)?, said)
        }
        "write" => write_bytes(disk, numbers),
        "turn" => turn_bit(disk, at(numbers, 0)?, at(numbers, 1)?),
        _ => Err(Fault::Script),
    }
}

/// The numbers of a word.
fn numbers_of(alloc: Global, text: &str) -> Result<Vec<u64>, Fault> {
    let mut numbers = Vec::new(alloc);
    for word in text.split(' ') {
        if !word.is_empty() {
            match word.parse::<u64>() {
                Ok(number) => numbers.push(number)?,
                Err(_) => return Err(Fault::Script),
            }
        }
    }
    Ok(numbers)
}

fn at(numbers: &[u64], index: usize) -> Result<u64, Fault> {
    match numbers.get(index) {
        Some(number) => Ok(*number),
        None => Err(Fault::Script),
    }
}

fn say_calls(disk: &MemDisk, from: u64, said: &mut String) -> Result<(), Fault> {
    for (i, call) in disk.calls().iter().skip(from as usize).enumerate() {
        said.push_str(if i == 0 { "" } else { " " })?;
        match call {
            DeviceCall::Read(at) => write!(said, "read {at}")?,
            DeviceCall::Write(at) => write!(said, "write {at}")?,
            DeviceCall::Sync => said.push_str("sync")?,
        }
    }
    said.push('\n')?;
    Ok(())
}

fn read(disk: &mut MemDisk, at: u64) -> Result<[u8; 512], Fault> {
    let mut sector = [0; 512];
    if at >= disk.sectors() || disk.read(at, &mut sector).is_err() {
        return Err(Fault::Script);
    }
    Ok(sector)
}

fn say_bytes(sector: &[u8; 512], from: u64, to: u64, said: &mut String) -> Result<(), Fault> {
    for (i, byte) in sector.iter().enumerate() {
        if from <= i as u64 && (i as u64) < to {
            write!(said, "{byte:02x}")?;
        }
    }
    said.push('\n')?;
    Ok(())
}

/// Writes the bytes after the first two numbers into a sector, from some byte on.
fn write_bytes(disk: &mut MemDisk, numbers: &[u64]) -> Result<(), Fault> {
    let place = at(numbers, 0)?;
    let from = at(numbers, 1)?;
    let mut sector = read(disk, place)?;
    for (i, byte) in sector.iter_mut().enumerate() {
        if let Some(behind) = (i as u64).checked_sub(from)
            && let Some(number) = numbers.get((behind as usize).saturating_add(2))
            && let Ok(other) = u8::try_from(*number)
        {
            *byte = other;
        }
    }
    write(disk, place, &sector)
}

/// Writes the bytes of a text into a sector, from some byte on.
fn write_text(
    alloc: Global,
    bench: &mut Bench,
    rest: &str,
    said: &mut String,
) -> Result<(), Fault> {
    let Some((place, rest)) = rest.split_once(' ') else {
        return Err(Fault::Script);
    };
    let Some((from, text)) = rest.split_once(' ') else {
        return Err(Fault::Script);
    };
    let mut numbers = numbers_of(alloc, place)?;
    numbers.push(at(&numbers_of(alloc, from)?, 0)?)?;
    for byte in text.as_bytes() {
        numbers.push(*byte as u64)?;
    }
    act_on_disk(bench, "write", &numbers, said)
}

/// Turns the lowest bit of a byte of a sector.
fn turn_bit(disk: &mut MemDisk, place: u64, turned: u64) -> Result<(), Fault> {
    let mut sector = read(disk, place)?;
    for (i, byte) in sector.iter_mut().enumerate() {
        if i as u64 == turned {
            *byte ^= 1;
        }
    }
    write(disk, place, &sector)
}

fn write(disk: &mut MemDisk, at: u64, sector: &[u8; 512]) -> Result<(), Fault> {
    if at >= disk.sectors() || disk.write(at, sector).is_err() {
        return Err(Fault::Script);
    }
    Ok(())
}

/// Sends each proper beginning of a line, and says each reply that isn't the one before.
fn beginnings(
    alloc: Global,
    bench: &mut Bench,
    line: &str,
    said: &mut String,
) -> Result<(), Fault> {
    let mut before = String::new(alloc);
    for (end, _) in line.char_indices().skip(1) {
        let mut reply = String::new(alloc);
        bench.serve(line.get(..end).unwrap_or(""), &mut reply)?;
        if reply.as_str() != before.as_str() {
            said.push_str(reply.as_str())?;
            before = reply;
        }
    }
    Ok(())
}

/// Sends a line that many times, and says the last reply.
fn times(alloc: Global, bench: &mut Bench, rest: &str, said: &mut String) -> Result<(), Fault> {
    let Some((count, line)) = rest.split_once(' ') else {
        return Err(Fault::Script);
    };
    let Ok(count) = count.parse::<u64>() else {
        return Err(Fault::Script);
    };
    let mut input = String::new(alloc);
    for number in 1..=count {
        let number = number.to_string(alloc)?;
        input.push_str(line.replace(alloc, "#", number.as_str())?.as_str())?;
        input.push('\n')?;
    }
    let mut replies = String::new(alloc);
    bench.serve(input.as_str(), &mut replies)?;
    let (_, last) = replies
        .trim_end()
        .rsplit_once('\n')
        .unwrap_or(("", replies.trim_end()));
    said.push_str(last)?;
    said.push('\n')?;
    Ok(())
}
