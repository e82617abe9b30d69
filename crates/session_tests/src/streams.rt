//! The lines of a stream that have a reply, and how a session ends if its reader fails, or the turns run out.
use crate::support::{LISTED, TURNS, assert_says, assert_session};
use serve_lines::{ServeFault, Served};
use std::alloc::Global;
use std::io::{self, Read};
use std::process::Abort;

/// The reply line to a line that is no JSON text.
const NOT_JSON: &str = "{\"error\":\"not-json\",\"number\":11,\"ok\":false}\n";

/// The replies to two lines that ask for the names.
const TWO_LISTED: &str = "{\"names\":[],\"ok\":true}\n{\"names\":[],\"ok\":true}\n";

/// Two lines of 15 bytes each.
const TWO_LINES: &[u8] = b"{\"cmd\":\"list\"}\n{\"cmd\":\"list\"}\n";

/// A reader that gives a byte a call, counts its calls, and fails at one of them, 0 for none.
#[derive(Drop)]
struct Counted {
    left: &'static [u8],
    calls: u64,
    failing: u64,
}

impl Read for Counted {
    fn read(&mut self, buf: &mut [u8]) -> io::Result<usize> {
        self.calls = self.calls.saturating_add(1);
        if self.calls == self.failing {
            return Err(io::Error::from(io::ErrorKind::Other));
        }
        let Some((first, rest)) = self.left.split_first() else {
            return Ok(0);
        };
        if buf.is_empty() {
            return Ok(0);
        }
        buf[0] = *first;
        self.left = rest;
        Ok(1)
    }
}

/// How a session over two lines ends after `turns` turns, what it replies, and how often it reads.
fn assert_ends(
    rt: &impl Abort,
    alloc: Global,
    turns: u64,
    wanted: Result<Served, ServeFault>,
    replies: &str,
) {
    let mut reader = Counted {
        left: TWO_LINES,
        calls: 0,
        failing: 0,
    };
    assert_session(rt, alloc, &mut reader, turns, wanted, replies);
    assert_eq!(rt; reader.calls, turns);
}

#[test]
fn a_turn_is_a_call_of_the_reader(rt: HostRuntime) {
    let alloc = rt.alloc();
    let done = Served {
        lines: 2,
        broken: false,
    };
    assert_ends(&rt, alloc, 0, Err(ServeFault::Turns), "");
    assert_ends(&rt, alloc, 14, Err(ServeFault::Turns), "");
    assert_ends(&rt, alloc, 15, Err(ServeFault::Turns), LISTED);
    assert_ends(&rt, alloc, 29, Err(ServeFault::Turns), LISTED);
    assert_ends(&rt, alloc, 30, Err(ServeFault::Turns), TWO_LISTED);
    assert_ends(&rt, alloc, 31, Ok(done), TWO_LISTED);
}

/// A session whose reader fails at that call has given these replies.
fn assert_fails(rt: &impl Abort, alloc: Global, failing: u64, replies: &str) {
    let mut reader = Counted {
        left: TWO_LINES,
        calls: 0,
        failing,
    };
    let end = Err(ServeFault::Reader);
    assert_session(rt, alloc, &mut reader, TURNS, end, replies);
}

#[test]
fn a_failing_reader_leaves_the_lines_before_answered(rt: HostRuntime) {
    for failing in 1..=15 {
        assert_fails(&rt, rt.alloc(), failing, "");
    }
    for failing in 16..=30 {
        assert_fails(&rt, rt.alloc(), failing, LISTED);
    }
    assert_fails(&rt, rt.alloc(), 31, TWO_LISTED);
}

/// A reader that gives `x` for ever.
#[derive(Drop)]
struct Endless;

impl Read for Endless {
    fn read(&mut self, buf: &mut [u8]) -> io::Result<usize> {
        buf.fill(b'x');
        Ok(buf.len())
    }
}

#[test]
fn a_line_without_end_has_no_reply(rt: HostRuntime) {
    let end = Err(ServeFault::Turns);
    assert_session(&rt, rt.alloc(), &mut Endless, 1_000, end, "");
}

#[test]
fn blank_lines_have_no_reply_and_a_last_line_has_one(rt: HostRuntime) {
    assert_says(&rt, rt.alloc(), b"", "", 0);
    assert_says(&rt, rt.alloc(), b"\n \t\r\n\n  ", "", 0);
    assert_says(&rt, rt.alloc(), b"{\"cmd\":\"list\"}\r\n", LISTED, 1);
    assert_says(&rt, rt.alloc(), b"\n{\"cmd\":\"list\"}", LISTED, 1);
    assert_says(&rt, rt.alloc(), b"\"\xff\"", NOT_JSON, 1);
    assert_says(&rt, rt.alloc(), b"\xff\n", NOT_JSON, 1);
}
