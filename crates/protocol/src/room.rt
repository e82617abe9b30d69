//! The bytes of a reply.
ghost use Rattle.std.specs.Prelude.{◌≡◌};
ghost use Rattle.doc_tree.specs.Doc.{Doc};
ghost use Rattle.protocol.specs.Reply.{line_of};
ghost use Rattle.protocol.specs.Says.{Says};

use crate::outbox::Outbox;
use crate::reply::Reply;
use std::alloc::{AllocError, Global};

/// Room for the lines of short replies. Its memory is taken once.
#[derive(Drop)]
pub struct ReplyRoom {
    short: Outbox,
}

impl ReplyRoom {
    pub fn new(alloc: Global) -> Result<ReplyRoom, AllocError> {
        Ok(ReplyRoom {
            short: Outbox::new(alloc)?,
        })
    }

    /// The line of a reply with its line feed, without memory.
    pub fn line<'a>(&'a mut self, reply: &'a Reply) -> &'a [u8]
        ensures { (said : Doc) → Says reply.now said → result.now ≡ line_of said }
    {
        self.short.clear();
        match reply {
            Reply::Changed(seq) => self.short.put_change(*seq),
            Reply::Snapshot(used) => self.short.put_snapshot(*used),
            Reply::Pumped(pump) => self.short.put_pump(*pump),
            Reply::Sealed => self.short.put_sealed(),
            Reply::Revision(revision) => self.short.put_revision(*revision),
            Reply::Refused(refusal) => self.short.put_refusal(*refusal),
            Reply::Line(line) => return line.as_slice(),
        }
        self.short.as_slice()
    }
}
