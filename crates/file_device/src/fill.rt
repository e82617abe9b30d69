//! A new file, written full of zeros.
use std::fs::File;
use std::io;
use std::os::unix::fs::FileExt;

/// The bytes of one write of zeros.
const PIECE: usize = 65_536;

/// Whether the blocks of a new file are allocated on the disk before it is used.
#[derive(Clone, Copy, Debug, PartialEq, Eq)]
pub enum Blocks {
    /// The whole file is written with zeros. Later writes find their room, and a sync settles no new blocks.
    Allocated,
    /// A block is allocated at the first write to it, which may find the disk full.
    Sparse,
}

/// Looks on while a new file is written.
pub trait Progress {
    /// `written` bytes of `length` are written. It is called after each piece of 65,536 bytes, and after the last one.
    fn reached(&mut self, written: u64, length: u64);
}

/// Nobody looks on.
impl Progress for () {
    fn reached(&mut self, _written: u64, _length: u64) {}
}

/// Writes zeros over the first `length` bytes of a file, a piece at a time.
pub(crate) fn fill<P: Progress>(file: &File, length: u64, progress: &mut P) -> io::Result<()> {
    let zeros = [0; PIECE];
    let mut written = 0;
    while written < length {
        let piece = (length - written).min(PIECE as u64);
        file.write_all_at(&zeros[..piece as usize], written)?;
        written += piece;
        progress.reached(written, length);
    }
    Ok(())
}
