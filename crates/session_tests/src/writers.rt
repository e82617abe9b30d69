//! Writers: how a session ends by what its writer does.
use crate::support::{LISTED, TURNS, assert_ended, new_recorded_store, served};
use serve_lines::{ServeFault, Served};
use std::alloc::Global;
use std::io::{self, Write};
use std::process::Abort;

/// A writer that takes at most `most` bytes a call, counts its calls, and fails at the call `failing`, at none for 0.
#[derive(Drop)]
struct Slow {
    taken: Vec<u8>,
    most: usize,
    calls: u64,
    failing: u64,
}

impl Write for Slow {
    fn write(&mut self, buf: &[u8]) -> io::Result<usize> {
        self.calls = self.calls.saturating_add(1);
        if self.calls == self.failing {
            return Err(io::Error::from(io::ErrorKind::Other));
        }
        let taken = buf.len().min(self.most);
        self.taken.extend_from_slice(&buf[..taken])?;
        Ok(taken)
    }

    fn flush(&mut self) -> io::Result<()> {
        Ok(())
    }
}

/// A writer that keeps what it takes until it is flushed, which it may refuse.
#[derive(Drop)]
struct Buffered {
    kept: Vec<u8>,
    flushed: Vec<u8>,
    refuses: bool,
}

impl Write for Buffered {
    fn write(&mut self, buf: &[u8]) -> io::Result<usize> {
        self.kept.extend_from_slice(buf)?;
        Ok(buf.len())
    }

    fn flush(&mut self) -> io::Result<()> {
        if self.refuses {
            return Err(io::Error::from(io::ErrorKind::Other));
        }
        self.flushed.extend_from_slice(&self.kept)?;
        self.kept.clear();
        Ok(())
    }
}

/// How a session that asks for the names ends with such a writer after `turns` reads, and which bytes were flushed.
fn assert_flushes(
    rt: &impl Abort,
    alloc: Global,
    turns: u64,
    refuses: bool,
    wanted: Result<Served, ServeFault>,
    flushed: &str,
) {
    let mut writer = Buffered {
        kept: Vec::new(alloc),
        flushed: Vec::new(alloc),
        refuses,
    };
    let mut reader = b"{\"cmd\":\"list\"}\n".as_slice();
    let mut store = new_recorded_store(rt, alloc);
    let end = served(alloc, &mut store, &mut reader, &mut writer, turns);
    assert_ended(rt, end, &writer.flushed, wanted, flushed);
}

#[test]
fn replies_are_flushed_before_each_read_and_at_the_end(rt: HostRuntime) {
    let done = Served {
        lines: 1,
        broken: false,
    };
    let turns = Err(ServeFault::Turns);
    assert_flushes(&rt, rt.alloc(), TURNS, false, Ok(done), LISTED);
    assert_flushes(&rt, rt.alloc(), 1, false, turns, LISTED);
    assert_flushes(&rt, rt.alloc(), TURNS, true, Err(ServeFault::Writer), "");
}

/// How a session that asks for the names ends with such a writer, and which bytes were taken.
fn assert_ends(
    rt: &impl Abort,
    alloc: Global,
    most: usize,
    failing: u64,
    wanted: Result<Served, ServeFault>,
    taken: &str,
) {
    let mut writer = Slow {
        taken: Vec::new(alloc),
        most,
        calls: 0,
        failing,
    };
    let mut reader = b"{\"cmd\":\"list\"}\n".as_slice();
    let mut store = new_recorded_store(rt, alloc);
    let end = served(alloc, &mut store, &mut reader, &mut writer, TURNS);
    assert_ended(rt, end, &writer.taken, wanted, taken);
}

#[test]
fn a_slow_writer_is_given_all_bytes_and_a_failing_one_ends_the_session(rt: HostRuntime) {
    let done = Served {
        lines: 1,
        broken: false,
    };
    assert_ends(&rt, rt.alloc(), 1, 0, Ok(done), LISTED);
    assert_ends(&rt, rt.alloc(), 0, 0, Err(ServeFault::Writer), "");
    for (before, _) in LISTED.char_indices() {
        let taken = LISTED.get(..before).unwrap_or("");
        let failing = (before as u64).saturating_add(1);
        assert_ends(&rt, rt.alloc(), 1, failing, Err(ServeFault::Writer), taken);
    }
}
