//! The identity of a store that is made in format 3.

ghost use Rattle.std.specs.Prelude.{IfOk};
ghost use Rattle.file_programs.specs.Identity.{IsChosen};

use crate::fault::Fault;
use std::fs::File;
use std::io::Read;
use std::rt::Files;

/// The file that gives the system's random bytes.
const RANDOM: &str = "/dev/urandom";

/// The identity of a store that is made in format 3 if `rides` is set: the one that was asked for, or 16 random bytes of
/// the system, which are read from `/dev/urandom`. Format 2 needs none, and nothing is read then. `Identity`: the system
/// gave none.
pub fn identity_for<R: Files<File = File>>(
    rt: &R,
    rides: bool,
    asked: Option<u128>,
) -> Result<u128, Fault>
    ensures { IfOk result (IsChosen asked) }
{
    match asked {
        Some(identity) => Ok(identity),
        None if rides => drawn(rt),
        None => Ok(0),
    }
}

// 16 random bytes of the system, as a number.
fn drawn<R: Files<File = File>>(rt: &R) -> Result<u128, Fault> {
    let mut bytes = [0; 16];
    match read_random(rt, &mut bytes) {
        Ok(()) => Ok(u128::from_be_bytes(bytes)),
        Err(_) => Err(Fault::Identity),
    }
}

// Fills the bytes with random ones of the system.
fn read_random<R: Files<File = File>>(rt: &R, bytes: &mut [u8; 16]) -> std::io::Result<()> {
    let mut random = File::open(rt, RANDOM)?;
    random.read_exact(bytes)
}
