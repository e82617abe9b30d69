//! The progress of serving between two reads.
ghost use Rattle.std.specs.Prelude.{◌≡◌, [], OnOk, OnErr, IfOk};
ghost use Rattle.protocol.specs.LineBuffer.{Holds};

use crate::options::Options;
use crate::session::Session;
use crate::writing::{Unwritten, make_room, put, send};
use protocol::{Outbox, Reply};
use recorded_store::RecordedStore;
use sector_device::SectorDevice;
use std::alloc::{AllocError, Global};
use std::io::Write;

/// A session, the reply lines that wait, and the number of replies until now, which stops at 2^64 - 1.
#[derive(Drop)]
pub(crate) struct Progress {
    session: Session,
    outbox: Outbox,
    answered: u64,
}

impl Progress {
    ghost use Rattle.serve_lines.specs.Progress.{ComesFurther, BreaksOffIn, KeepsReplied, TellsReply, TellsRest, Finishes, BreaksOffAtEnd};

    pub(crate) fn new(alloc: Global, options: &Options) -> Result<Progress, AllocError>
        ensures line { IfOk result (λ progress. Holds progress.session.line []) }
        ensures options { IfOk result (λ progress. progress.session.options ≡ options.now) }
        ensures none { IfOk result (λ progress. progress.answered ≡ 0) }
        ensures empty { IfOk result (λ progress. progress.outbox.bytes.items ≡ []) }
        ensures waiting { IfOk result (λ progress. progress.session.waiting.items ≡ []) }
        ensures taken { IfOk result (λ progress. progress.session.ready.items ≡ []) }
    {
        Ok(Progress {
            session: Session::new(alloc, options)?,
            outbox: Outbox::new(alloc)?,
            answered: 0,
        })
    }

    /// Answers each line that ends in the next bytes of the input. All replies are written.
    pub(crate) fn turn<D: SectorDevice, W: Write>(
        &mut self,
        alloc: Global,
        store: &mut RecordedStore<D>,
        writer: &mut W,
        piece: &[u8],
    ) -> Result<(), Unwritten>
        ensures ok { OnOk result (ComesFurther D.disk piece.now store.old self.old (W.contents writer.old) store.new self.new (W.contents writer.new)) }
        ensures empty { OnOk result (self.new.outbox.bytes.items ≡ []) }
        ensures taken { OnOk result (self.new.session.ready.items ≡ []) }
        ensures err { OnErr result (BreaksOffIn D.disk piece.now store.old self.old (W.contents writer.old) store.new) }
    {
        self.take(alloc, store, writer, piece)?;
        self.deliver(writer)
    }

    // Answers each line that ends in the next bytes of the input.
    fn take<D: SectorDevice, W: Write>(
        &mut self,
        alloc: Global,
        store: &mut RecordedStore<D>,
        writer: &mut W,
        piece: &[u8],
    ) -> Result<(), Unwritten>
        ensures ok { OnOk result (ComesFurther D.disk piece.now store.old self.old (W.contents writer.old) store.new self.new (W.contents writer.new)) }
        ensures taken { OnOk result (self.new.session.ready.items ≡ []) }
        ensures err { OnErr result (BreaksOffIn D.disk piece.now store.old self.old (W.contents writer.old) store.new) }
    {
        let mut rest = piece;
        'lines: while let Some((reply, behind)) = self.session.next_reply(alloc, store, rest) {
            self.tell(reply, writer)?;
            rest = behind;
        }
        Ok(())
    }

    // Lets a reply wait, or writes it after what waits, and counts it.
    fn tell<W: Write>(&mut self, reply: Reply, writer: &mut W) -> Result<(), Unwritten>
        ensures told { OnOk result (TellsReply reply self.old (W.contents writer.old) self.new (W.contents writer.new)) }
        ensures session { OnOk result (self.new.session ≡ self.old.session) }
    {
        make_room(&mut self.outbox, writer)?;
        put(&mut self.outbox, reply, writer)?;
        self.answered = self.answered.saturating_add(1);
        Ok(())
    }

    // Writes what waits.
    fn deliver<W: Write>(&mut self, writer: &mut W) -> Result<(), Unwritten>
        ensures ok { OnOk result (KeepsReplied self.old (W.contents writer.old) self.new (W.contents writer.new)) }
        ensures session { OnOk result (self.new.session ≡ self.old.session) }
        ensures empty { OnOk result (self.new.outbox.bytes.items ≡ []) }
    {
        send(&mut self.outbox, writer)?;
        match writer.flush() {
            Ok(()) => Ok(()),
            Err(_) => Err(Unwritten),
        }
    }

    /// Answers the last line, which no line feed has ended, and the changes that wait, and writes all. The number of all
    /// replies.
    pub(crate) fn finish<D: SectorDevice, W: Write>(
        &mut self,
        alloc: Global,
        store: &mut RecordedStore<D>,
        writer: &mut W,
    ) -> Result<u64, Unwritten>
        requires taken { self.old.session.ready.items ≡ [] }
        ensures ok { IfOk result (Finishes D.disk store.old self.old (W.contents writer.old) store.new (W.contents writer.new)) }
        ensures err { OnErr result (BreaksOffAtEnd D.disk store.old self.old (W.contents writer.old) store.new) }
    {
        self.session.finish(alloc, store);
        self.tell_rest(writer)?;
        self.deliver(writer)?;
        Ok(self.answered)
    }

    // Gives the replies that are ready.
    fn tell_rest<W: Write>(&mut self, writer: &mut W) -> Result<(), Unwritten>
        ensures told { OnOk result (TellsRest self.old (W.contents writer.old) self.new (W.contents writer.new)) }
    {
        'replies: while let Some(reply) = self.session.ready_reply() {
            self.tell(reply, writer)?;
        }
        Ok(())
    }
}
