//! A session without streams, as an application has it that embeds the store.
use crate::support::{TURNS, new_recorded_store, session, text_of};
use recorded_store::RecordedStore;
use sector_device::MemDisk;
use serve_lines::{Options, Reply, ReplyRoom, Session};
use std::alloc::Global;
use std::process::Abort;

/// The lines of replies.
#[derive(Drop)]
struct Told {
    room: ReplyRoom,
    lines: Vec<u8>,
}

impl Told {
    fn new(rt: &impl Abort, alloc: Global) -> Told {
        Told {
            room: ReplyRoom::new(alloc).expect(rt, "memory"),
            lines: Vec::new(alloc),
        }
    }

    /// Adds the line of a reply.
    fn add(&mut self, rt: &impl Abort, reply: &Reply) {
        let line = self.room.line(reply);
        self.lines.extend_from_slice(line).expect(rt, "memory");
    }
}

/// A session in which `batch` changes make a batch full.
fn session_by(rt: &impl Abort, alloc: Global, batch: u64) -> Session {
    let options = Options {
        batch,
        pump: 0,
        turns: TURNS,
    };
    Session::new(alloc, &options).expect(rt, "memory")
}

/// Gives a session a piece of its input, and adds what is replied.
fn tell(
    rt: &impl Abort,
    alloc: Global,
    session: &mut Session,
    store: &mut RecordedStore<MemDisk>,
    piece: &[u8],
    told: &mut Told,
) {
    let mut rest = piece;
    for _ in 0..1_000 {
        match session.next_reply(alloc, store, rest) {
            Some((reply, behind)) => {
                told.add(rt, &reply);
                rest = behind;
            }
            None => break,
        }
    }
}

/// Adds the replies that are ready.
fn take_ready(rt: &impl Abort, session: &mut Session, told: &mut Told) {
    for _ in 0..1_000 {
        match session.ready_reply() {
            Some(reply) => told.add(rt, &reply),
            None => break,
        }
    }
}

/// The replies to an input that comes in pieces of one size, if `batch` changes make a batch full.
fn told_in_pieces(
    rt: &impl Abort,
    alloc: Global,
    input: &[u8],
    size: usize,
    batch: u64,
) -> Vec<u8> {
    let mut told = Told::new(rt, alloc);
    let mut store = new_recorded_store(rt, alloc);
    let mut session = session_by(rt, alloc, batch);
    for piece in input.chunks(size.max(1)) {
        tell(rt, alloc, &mut session, &mut store, piece, &mut told);
    }
    session.finish(alloc, &mut store);
    take_ready(rt, &mut session, &mut told);
    told.lines
}

#[test]
fn pieces_of_any_size_are_told_the_same(rt: HostRuntime) {
    let alloc = rt.alloc();
    let input =
        b"{\"cmd\":\"create\",\"doc\":{\"a\":[1,2]},\"name\":\"d\",\"schema\":true}\n \n{\"cmd\":\"delete\",\"name\":\"z\"}\n{\"cmd\":\"query\",\"name\":\"d\",\"path\":\"$..*\"}\nx\n\n{\"cmd\":\"snapshot\"}\n{\"cmd\":\"list\"}";
    let mut reader = input.as_slice();
    let (_, wanted) = session(&rt, alloc, &mut reader, TURNS);
    for size in [1, 2, 7, 64, 1_000] {
        for batch in [0, 1, 2, 9] {
            let said = told_in_pieces(&rt, alloc, input, size, batch);
            assert_eq!(&rt; text_of(&said), text_of(&wanted));
        }
    }
}
