//! `ReportLines`, the lines of a report that are kept as its entries come, with no more of an image than they show.
ghost use Rattle.std.specs.Prelude.{◌≡◌, ◌≤◌, ◌<◌, ◌+◌, ◌∷◌, [], ℕ, flat_map, IfOk, OnOk, vec_len, vec_capacity};
ghost use Rattle.std.specs.Io.KnownBytes.{Appends};
ghost use Rattle.bp_trail.specs.declared.entries.Call.TheVariants.{Read};
ghost use Rattle.bp_trail.specs.declared.entries.Reply.TheVariants.{Content};
ghost use Rattle.bp_trail.specs.Event.{page_of};
ghost use Rattle.bp_trail.specs.Trail.{Trail};
ghost use Rattle.bp_trace.specs.Lines.{line_of};
ghost use Rattle.bp_trace.specs.KeptLines.{HasLines, HasNoLine, text_if, text_of};

use super::front::Front;
use super::steps_of;
use crate::lines::{page_of, write_read};
use bp_page::{Image, PageNo};
use bp_trail::{Call, Reply};
use std::alloc::{AllocError, Global};
use std::io;
use std::io::Write;

/// What a line of a report says.
#[derive(Clone, Copy)]
pub enum ReportLine {
    Evict { time: u64, page: u64 },
    Discard { time: u64, page: u64 },
    Out { time: u64, page: u64 },
    Read { client: u8, page: u64, front: Front },
}

/// The lines of the entries so far, and the time after them. It is right as long as it is less than 2^64.
#[derive(Drop)]
pub struct ReportLines {
    time: u64,
    lines: Vec<ReportLine>,
}

impl ReportLine {
    /// Returns the line of a reply at this time, or `None` where it has none.
    fn of(time: u64, client: u8, call: &Call, reply: &Reply) -> Option<ReportLine>
        ensures { text_if result ≡ line_of time client (page_of call.now) reply.now }
    {
        let page = page_of(call);
        match reply {
            Reply::Load {
                evicted: Some(victim),
                ..
            } => Some(ReportLine::Evict {
                time,
                page: victim.number(),
            }),
            Reply::Discarded => Some(ReportLine::Discard { time, page }),
            Reply::Cleaned | Reply::StillDirty => Some(ReportLine::Out { time, page }),
            Reply::Content(image) => Some(ReportLine::Read {
                client,
                page,
                front: Front::of(image.bytes()),
            }),
            _ => None,
        }
    }

    fn write<W: Write>(&self, writer: &mut W) -> io::Result<()>
        ensures { OnOk result (Appends (W.contents writer.old) (W.contents writer.new)
            (text_of self.now)) }
    {
        match self {
            ReportLine::Evict { time, page } => writeln!(writer, "evict {time} {page}"),
            ReportLine::Discard { time, page } => writeln!(writer, "discard {time} {page}"),
            ReportLine::Out { time, page } => writeln!(writer, "out {time} {page}"),
            ReportLine::Read {
                client,
                page,
                front,
            } => write_read(*client, *page, front.bytes(), writer),
        }
    }
}

impl ReportLines {
    /// Makes an empty list with room for so many lines. It fails by want of memory alone.
    pub fn with_capacity(alloc: Global, room: usize) -> Result<ReportLines, AllocError>
        ensures none { IfOk result (HasLines []) }
        ensures room { IfOk result (λ made. (vec_len made.lines ≡ 0)
            × (vec_capacity made.lines ≡ room)) }
    {
        Ok(ReportLines {
            time: 1,
            lines: Vec::with_capacity(alloc, room)?,
        })
    }

    /// Adds the line of the next entry, if it has one. It takes no memory.
    pub fn add(&mut self, client: u8, call: &Call, reply: &Reply)
        requires { vec_len self.old.lines < vec_capacity self.old.lines }
        ensures adds { (past : Trail) → HasLines past self.old →
            HasLines (record { client = client; call = call.now; reply = reply.now } ∷ past)
            self.new }
        ensures count { vec_len self.new.lines ≤ vec_len self.old.lines + 1 }
        ensures room { vec_capacity self.new.lines ≡ vec_capacity self.old.lines }
    {
        if let Some(line) = ReportLine::of(self.time, client, call, reply) {
            self.lines.push_reserved(line);
        }
        self.time = self.time.saturating_add(steps_of(call));
    }

    /// Lets the time of the next entry pass, which has no line.
    pub fn skip(&mut self, call: &Call)
        ensures adds { (past : Trail) (client : ℕ) (reply : Reply) → HasNoLine reply →
            HasLines past self.old →
            HasLines (record { client = client; call = call.now; reply = reply } ∷ past)
            self.new }
        ensures same { self.new.lines ≡ self.old.lines }
    {
        self.time = self.time.saturating_add(steps_of(call));
    }

    /// Adds the line of the next entry, a read by a pass of this client. It takes no memory.
    pub fn add_read(&mut self, client: u8, page: PageNo, image: &Image)
        requires { vec_len self.old.lines < vec_capacity self.old.lines }
        ensures adds { (past : Trail) (pass : ℕ) → HasLines past self.old →
            HasLines (record { client = client; call = Read pass page; reply = Content image.now }
            ∷ past) self.new }
        ensures count { vec_len self.new.lines ≡ vec_len self.old.lines + 1 }
        ensures room { vec_capacity self.new.lines ≡ vec_capacity self.old.lines }
    {
        self.lines.push_reserved(ReportLine::Read {
            client,
            page: page.number(),
            front: Front::of(image.bytes()),
        });
    }

    /// Writes the lines. A fault of the writer is passed on; the writer may then hold any part of them.
    pub fn write<W: Write>(&self, writer: &mut W) -> io::Result<()>
        ensures { OnOk result (Appends (W.contents writer.old) (W.contents writer.new)
            (flat_map text_of self.now.lines.items)) }
    {
        for line in &self.lines {
            line.write(writer)?;
        }
        Ok(())
    }
}
