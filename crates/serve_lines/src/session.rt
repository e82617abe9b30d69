//! A session over pieces of input: each line is answered when it has ended, or with its batch.
ghost use Rattle.std.specs.Prelude.{◌≡◌, ◌≤◌, ◌<◌, ◌+◌, ◌++◌, ◌∷◌, [], List, ℕ, IfOk, MatchOption, Ok, ⊤};
ghost use Rattle.std.specs.Vec.{vec_capacity, vec_len};
ghost use Rattle.std.specs.VecDeque.{deque_capacity};
ghost use Rattle.doc_machine.specs.Transaction.{transaction_of};
ghost use Rattle.protocol.specs.LineBuffer.{Holds};
ghost use Rattle.protocol.specs.Lines.{line_feed, HasNoBreak};
ghost use Rattle.protocol.specs.Read.{asked_by, IsNoChange, ReadsRequest};
ghost use Rattle.protocol.specs.Request.{Asks, change};
ghost use Rattle.serve_lines.specs.LineReplies.{IsWithinIfMemory};
ghost use Rattle.serve_lines.specs.Session.{most_of};

use crate::answer::answer;
use crate::batch::{commit, hold, is_full};
use crate::options::Options;
use crate::replies::push;
use doc_machine::{Refusal, Transaction};
use protocol::{Line, Reply, Request, cut_at_feed, read_request};
use recorded_store::RecordedStore;
use refusals::numbers::LINE_TOO_LONG;
use sector_device::SectorDevice;
use std::alloc::{AllocError, Global};
use std::collections::VecDeque;

/// A session over the lines of its input, which comes in pieces of any size. Successive transactions wait for one
/// another, as many as a batch takes (`Options::batch`), and are made together; a line that is none makes those that
/// wait before it is done. After a batch of which one was done a step of a copy is made before its replies are given,
/// if its options ask for one (`Options::pump`).
#[derive(Drop)]
pub struct Session {
    /// The line that is being read.
    line: Line,
    options: Options,
    /// The transactions that wait for others.
    waiting: Vec<Transaction>,
    /// The replies to lines that are done, the first of them first.
    ready: VecDeque<Reply>,
    ghost places: { most_of options ≤ vec_capacity waiting },
    ghost fewer: { vec_len waiting < most_of options },
    ghost room: { most_of options ≤ deque_capacity ready },
}

impl Session {
    ghost use Rattle.serve_lines.specs.Progress.{LineEndsFor, LineEnds, GivesReady, ReadsMore, ReadsToAReply, EndsInput, KeepsInput, held_in};

    /// A session that has read nothing. All its memory is taken here, but for what a request or a batch itself takes.
    pub fn new(alloc: Global, options: &Options) -> Result<Session, AllocError>
        ensures begun { IfOk result (λ session. Holds session.line []) }
        ensures options { IfOk result (λ session. session.options ≡ options.now) }
        ensures waiting { IfOk result (λ session. session.waiting.items ≡ []) }
        ensures ready { IfOk result (λ session. session.ready.items ≡ []) }
    {
        let most = options.batch.max(1) as usize;
        Ok(Session {
            line: Line::new(alloc)?,
            options: *options,
            waiting: Vec::with_capacity(alloc, most)?,
            ready: VecDeque::with_capacity(alloc, most)?,
        })
    }

    /// The next reply that is ready, if there is one; else it reads on in `input` until one is. The reply, and the
    /// input after what was read. `None` if no reply is ready in all of `input`, which is read then: each line that
    /// ended in it is answered, but for the transactions that wait.
    ///
    /// What a reply says is so when it is given: an accepted change is on the device.
    pub fn next_reply<'a, D: SectorDevice>(
        &mut self,
        alloc: Global,
        store: &mut RecordedStore<D>,
        input: &'a [u8],
    ) -> Option<(Reply, &'a [u8])>
        ensures heard { MatchOption result (ReadsMore D.disk input.now store.old self.old store.new self.new)
            (λ found. ReadsToAReply D.disk input.now store.old self.old found.0 found.1.now store.new self.new) }
        ensures none { MatchOption result (self.new.ready.items ≡ []) (λ _. ⊤) }
    {
        if let Some(reply) = self.ready_reply() {
            return Some((reply, input));
        }
        let mut rest = input;
        'lines: while let Some((end, behind)) = cut_at_feed(rest) {
            self.take_line(alloc, store, end);
            if let Some(reply) = self.ready_reply() {
                return Some((reply, behind));
            }
            rest = behind;
        }
        self.line.extend(rest);
        None
    }

    /// The next of the replies that are ready, if there is one.
    pub fn ready_reply(&mut self) -> Option<Reply>
        ensures { GivesReady self.old result self.new }
    {
        self.ready.pop_front()
    }

    /// Ends the input: its last line, which no line feed has ended, is answered, and the transactions that wait are made. Their
    /// replies are ready then (`ready_reply`), and the session has read nothing again. While replies are ready it does
    /// nothing: they are to be taken before.
    pub fn finish<D: SectorDevice>(&mut self, alloc: Global, store: &mut RecordedStore<D>)
        ensures ended { EndsInput D.disk store.old self.old store.new self.new }
        ensures clear { self.old.ready.items ≡ [] → Holds self.new.line [] × (self.new.waiting.items ≡ []) }
        ensures options { self.new.options ≡ self.old.options }
        ensures busy { (self.old.ready.items ≡ [] → ⊥) → (self.new ≡ self.old) × (store.new ≡ store.old) }
    {
        if self.ready.is_empty() {
            self.end_line(alloc, store);
            commit(
                alloc,
                store,
                &self.options,
                &mut self.waiting,
                &mut self.ready,
            );
        }
    }

    // Takes the last bytes of a line, and does what it asks for, unless it is blank.
    fn take_line<D: SectorDevice>(
        &mut self,
        alloc: Global,
        store: &mut RecordedStore<D>,
        end: &[u8],
    )
        requires whole { HasNoBreak end.now }
        requires taken { self.old.ready.items ≡ [] }
        ensures heard { ReadsMore D.disk (end.now ++ line_feed ∷ []) store.old self.old store.new self.new }
        ensures held { held_in self.new ≤ held_in self.old + 1 }
    {
        self.line.extend(end);
        self.end_line(alloc, store);
    }

    // Does what the line asks for that has ended, unless it is blank, and begins the next.
    fn end_line<D: SectorDevice>(&mut self, alloc: Global, store: &mut RecordedStore<D>)
        requires taken { self.old.ready.items ≡ [] }
        ensures ends { LineEndsFor D.disk store.old self.old store.new self.new }
        ensures clear { Holds self.new.line [] }
        ensures options { self.new.options ≡ self.old.options }
        ensures held { held_in self.new ≤ held_in self.old + 1 }
    {
        if self.line.is_blank() {
            self.line.clear();
        } else {
            self.do_line(alloc, store);
            self.line.clear();
        }
    }

    // Does what the line asks for that has ended, or lets its transaction wait.
    fn do_line<D: SectorDevice>(&mut self, alloc: Global, store: &mut RecordedStore<D>)
        requires taken { self.old.ready.items ≡ [] }
        ensures ends { (line : List ℕ) → Holds self.old.line line → LineEnds D.disk line store.old self.old store.new self.new }
        ensures same { KeepsInput self.old self.new }
        ensures held { held_in self.new ≤ held_in self.old + 1 }
    {
        match read_line(alloc, &self.line) {
            Ok(Request::Change(transaction)) => self.wait(alloc, store, transaction),
            asked => self.end_batch(alloc, store, asked),
        }
    }

    // Lets a transaction wait for others. A batch that is full then is made.
    fn wait<D: SectorDevice>(
        &mut self,
        alloc: Global,
        store: &mut RecordedStore<D>,
        transaction: Transaction,
    )
        requires taken { self.old.ready.items ≡ [] }
        ensures ends { (line : List ℕ) → Asks line (Ok (change (transaction_of transaction))) → LineEnds D.disk line store.old self.old store.new self.new }
        ensures same { KeepsInput self.old self.new }
        ensures held { held_in self.new ≤ held_in self.old + 1 }
    {
        hold(&mut self.waiting, transaction);
        if is_full(&self.options, self.waiting.len()) {
            commit(
                alloc,
                store,
                &self.options,
                &mut self.waiting,
                &mut self.ready,
            );
        }
    }

    // Makes the transactions that wait, and then answers a line that is none, or asks for nothing.
    fn end_batch<D: SectorDevice>(
        &mut self,
        alloc: Global,
        store: &mut RecordedStore<D>,
        asked: Result<Request, Refusal>,
    )
        requires taken { self.old.ready.items ≡ [] }
        requires other { IfOk asked (λ request. IsNoChange (asked_by request)) }
        ensures ends { (line : List ℕ) → ReadsRequest line asked → IsWithinIfMemory line asked → LineEnds D.disk line store.old self.old store.new self.new }
        ensures same { KeepsInput self.old self.new }
        ensures held { held_in self.new ≤ held_in self.old + 1 }
    {
        commit(
            alloc,
            store,
            &self.options,
            &mut self.waiting,
            &mut self.ready,
        );
        let reply = answer(alloc, store, asked);
        push(&mut self.ready, reply);
    }
}

// What the line asks for that has ended. One that is too long takes no memory. Whether another is a document, and a
// request's, only its tree shows, and that takes memory: so `MEMORY` may come in place of these refusals.
fn read_line(alloc: Global, line: &Line) -> Result<Request, Refusal>
    ensures reads { (so_far : List ℕ) → Holds line.now so_far → ReadsRequest so_far result }
    ensures within { (so_far : List ℕ) → Holds line.now so_far → IsWithinIfMemory so_far result }
{
    match line.text() {
        Some(text) => read_request(alloc, text),
        None => Err(Refusal::plain(LINE_TOO_LONG)),
    }
}
