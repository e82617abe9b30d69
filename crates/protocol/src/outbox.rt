//! Reply lines that wait to be written.
ghost use Rattle.std.specs.Prelude.{◌≡◌, ◌≤◌, ◌+◌, ◌++◌, [], length, decimal, IsTrue, ◌↔◌, IfOk};
ghost use Rattle.std.specs.Vec.{vec_len, vec_capacity};
ghost use Rattle.protocol.specs.Reply.{change_reply, copy_word, line_of, pump_reply, refusal_reply, revision_reply, sealed_reply, snapshot_reply};
ghost use Rattle.protocol.specs.Written.{number_text, opening};
ghost use Rattle.protocol.specs.declared.outbox.TheConstants.{ROOM};

use doc_machine::Refusal;
use itoa::Buffer;
use std::alloc::{AllocError, Global};
use store_commits::{CopyState, Pump};

/// Bytes for which an outbox has room.
const ROOM: usize = 16_384;

/// Bytes of a reply line that takes no memory at most.
const SHORT_REPLY: usize = 160;

/// Bytes of the decimal text of a number at most.
const NUMBER: usize = 20;

/// Bytes of a member that only some replies have at most.
const MEMBER: usize = 27;

/// Bytes before the number of such a member at most.
const MEMBER_BEGUN: usize = 7;

/// Bytes that a refusal begins with at most.
const OPENING: usize = 31;

/// Reply lines that wait to be written. Its memory is taken once.
#[derive(Drop)]
pub struct Outbox {
    bytes: Vec<u8>,
    ghost room: { ROOM ≤ vec_capacity bytes },
}

impl Outbox {
    pub fn new(alloc: Global) -> Result<Outbox, AllocError>
        ensures { IfOk result (λ outbox. outbox.bytes.items ≡ []) }
    {
        Ok(Outbox {
            bytes: Vec::with_capacity(alloc, ROOM)?,
        })
    }

    /// Whether there is room for a reply that takes no memory.
    pub fn has_room(&self) -> bool
        ensures { IsTrue result ↔ (vec_len self.now.bytes + SHORT_REPLY ≤ ROOM) }
    {
        self.bytes.len() <= ROOM - SHORT_REPLY
    }

    pub fn as_slice(&self) -> &[u8]
        ensures { result.now ≡ self.now.bytes.items }
    {
        self.bytes.as_slice()
    }

    pub fn clear(&mut self)
        ensures { self.new.bytes.items ≡ [] }
    {
        self.bytes.clear();
    }

    /// The reply to an accepted change, without memory.
    pub fn put_change(&mut self, seq: u64)
        requires { vec_len self.old.bytes + SHORT_REPLY ≤ ROOM }
        ensures { self.new.bytes.items ≡ self.old.bytes.items ++ line_of (change_reply seq) }
    {
        self.put(b"{\"ok\":true,\"seq\":");
        self.put_number(seq);
        self.put(b"}\n");
    }

    /// The reply to a snapshot that was made, without memory.
    pub fn put_snapshot(&mut self, used: u64)
        requires { vec_len self.old.bytes + SHORT_REPLY ≤ ROOM }
        ensures { self.new.bytes.items ≡ self.old.bytes.items ++ line_of (snapshot_reply used) }
    {
        self.put(b"{\"ok\":true,\"used\":");
        self.put_number(used);
        self.put(b"}\n");
    }

    /// The reply to a step of a copy, without memory.
    pub fn put_pump(&mut self, pump: Pump)
        requires { vec_len self.old.bytes + SHORT_REPLY ≤ ROOM }
        ensures { self.new.bytes.items ≡ self.old.bytes.items ++ line_of (pump_reply pump) }
    {
        self.put(b"{\"copy\":\"");
        self.put(copy_word(pump.copy).as_bytes());
        self.put(b"\",\"ok\":true,\"written\":");
        self.put_number(pump.written);
        self.put(b"}\n");
    }

    /// The reply to a seal, without memory.
    pub fn put_sealed(&mut self)
        requires { vec_len self.old.bytes + SHORT_REPLY ≤ ROOM }
        ensures { self.new.bytes.items ≡ self.old.bytes.items ++ line_of sealed_reply }
    {
        self.put(b"{\"ok\":true}\n");
    }

    /// The reply that shows a revision, without memory.
    pub fn put_revision(&mut self, revision: u64)
        requires { vec_len self.old.bytes + SHORT_REPLY ≤ ROOM }
        ensures { self.new.bytes.items ≡ self.old.bytes.items ++ line_of (revision_reply revision) }
    {
        self.put(b"{\"ok\":true,\"rev\":");
        self.put_number(revision);
        self.put(b"}\n");
    }

    /// The reply to what was refused, without memory.
    pub fn put_refusal(&mut self, refusal: Refusal)
        requires { vec_len self.old.bytes + SHORT_REPLY ≤ ROOM }
        ensures { self.new.bytes.items ≡ self.old.bytes.items ++ line_of (refusal_reply refusal) }
    {
        self.open_refusal(refusal.change);
        self.put(b"\"error\":\"");
        self.put(refusal.name().as_bytes());
        self.put(b"\",\"number\":");
        self.put_number(u64::from(refusal.number));
        self.put(b",\"ok\":false");
        self.put_member(b",\"op\":", refusal.op);
        self.put_member(b",\"rev\":", refusal.rev);
        self.put(b"}\n");
    }

    // What a refusal begins with: the change of a transaction that was refused, if it is one.
    fn open_refusal(&mut self, change: Option<u64>)
        requires room { vec_len self.old.bytes + OPENING ≤ ROOM }
        ensures text { self.new.bytes.items ≡ self.old.bytes.items ++ opening change }
        ensures few { vec_len self.new.bytes ≤ vec_len self.old.bytes + OPENING }
    {
        self.put(b"{");
        if let Some(change) = change {
            self.put(b"\"change\":");
            self.put_number(change);
            self.put(b",");
        }
    }

    // A member that only some replies have, after other members: the text before its number, and the number.
    fn put_member(&mut self, begun: &[u8], number: Option<u64>)
        requires short { length begun.now ≤ MEMBER_BEGUN }
        requires room { vec_len self.old.bytes + MEMBER ≤ ROOM }
        ensures text { self.new.bytes.items ≡ self.old.bytes.items ++ number_text begun.now number }
        ensures few { vec_len self.new.bytes ≤ vec_len self.old.bytes + MEMBER }
    {
        if let Some(number) = number {
            self.put(begun);
            self.put_number(number);
        }
    }

    fn put_number(&mut self, number: u64)
        requires { vec_len self.old.bytes + NUMBER ≤ ROOM }
        ensures text { self.new.bytes.items ≡ self.old.bytes.items ++ decimal number }
        ensures few { vec_len self.new.bytes ≤ vec_len self.old.bytes + NUMBER }
    {
        let mut digits = Buffer::new();
        self.put(digits.format(number).as_bytes());
    }

    fn put(&mut self, bytes: &[u8])
        requires { vec_len self.old.bytes + length bytes.now ≤ ROOM }
        ensures text { self.new.bytes.items ≡ self.old.bytes.items ++ bytes.now }
        ensures few { vec_len self.new.bytes ≡ vec_len self.old.bytes + length bytes.now }
    {
        self.bytes.extend_from_slice(bytes).unwrap();
    }
}

// What became of a copy, in a word.
fn copy_word(copy: CopyState) -> &'static str
    ensures word { result.now ≡ copy_word copy }
    ensures short { length result.now ≤ 8 }
{
    match copy {
        CopyState::Running => "running",
        CopyState::Switched => "switched",
        CopyState::Dropped => "dropped",
    }
}
