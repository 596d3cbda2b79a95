//! Times each call of a core, over many pages in turn.
ghost use Rattle.std.specs.Prelude.{◌≡◌, ◌+◌, ◌<◌, ◌≤◌, length};

use crate::tell;
use bp_core::{Core, EndRefusal, Entry, Fix, Flush, Pass, PassNote, ReadTicket, Settings};
use bp_page::{Bytes, Geometry, Image, Lsn, PageNo, Refusal};
use std::alloc::Global;
use std::mem;
use std::rt::Runtime;
use std::time::CpuClock;

const SIZE: usize = 1024;

const MAX_FRAMES: u64 = 65536;

const ROUNDS: u64 = 10;

#[derive(Clone, Copy)]
enum Call {
    Fix,
    Unfix,
    Tick,
    Read,
    ReadInto,
    Page,
    Write,
    WriteFrom,
    NextUnsaved,
    RedoFrom,
    Stats,
    Flush,
    Mark,
    Purge,
    Cut,
}

/// The calls of a round, in the order in which they are timed.
const CALLS: [(Call, &str); 17] = [
    (Call::Fix, "fix that loads, and read_end"),
    (Call::Unfix, "unfix"),
    (Call::Tick, "tick"),
    (Call::Fix, "fix of a page that is here"),
    (Call::Read, "read"),
    (Call::ReadInto, "read_into"),
    (Call::Page, "page"),
    (Call::Write, "write"),
    (Call::WriteFrom, "write_from"),
    (Call::NextUnsaved, "next_unsaved"),
    (Call::RedoFrom, "redo_from"),
    (Call::Stats, "stats"),
    (Call::Unfix, "unfix"),
    (Call::Flush, "flush that writes out, and write_end"),
    (Call::Mark, "mark"),
    (Call::Purge, "purge, for each page forgotten"),
    (Call::Cut, "cut"),
];

/// A core for one client, with the passes of the newest fixes and the piece of the trail that was cut last.
#[derive(Drop)]
struct Bench {
    alloc: Global,
    core: Core,
    pages: u64,
    bytes: Bytes,
    /// The bytes that were read last.
    into: [u8; 16],
    passes: Vec<PassNote>,
    spare: Vec<Entry>,
    ghost client: { 0 < core.parameters.clients },
    ghost pages_in: { core.parameters.pages ≡ pages },
    ghost fits: { 0 + length bytes ≤ core.parameters.size },
    ghost into_fits: { 0 + 16 ≤ core.parameters.size },
}

/// Makes a core with K 2 and no correlated period, which forgets what is older than a tick, and with twice as many
/// pages as frames.
fn new_bench(alloc: Global, frames: u64) -> Result<Bench, Refusal>
    requires { frames ≤ MAX_FRAMES }
{
    let pages = 2 * frames;
    let geometry = Geometry::new(pages, SIZE)?;
    let settings = Settings::new(2, 0, 1)?;
    let room = 16 * frames as usize;
    let bytes = Bytes::of(alloc, b"sixteen bytes ..".as_slice())?;
    Ok(Bench {
        alloc,
        core: Core::new(alloc, geometry, settings, frames as usize, 1, room)?,
        pages,
        bytes,
        into: [0; 16],
        passes: Vec::new(alloc),
        spare: Vec::new(alloc),
    })
}

impl Bench {
    /// Ends a read with zeros.
    fn end_read(&mut self, ticket: ReadTicket) {
        let Ok(image) = Image::blank(self.alloc, &self.core.geometry()) else {
            ticket.forfeit();
            return;
        };
        match self.core.read_end(ticket, Ok(image)) {
            Ok(pass) => {
                let _ = self.passes.push(pass.note());
            }
            Err(EndRefusal::Unknown(ticket, _)) => ticket.forfeit(),
            Err(EndRefusal::Failed(_)) => {}
        }
    }

    /// Fixes a page, and ends its read if there is one.
    fn fix(&mut self, page: u64) {
        if page >= self.pages {
            return;
        }
        match self.core.fix(0, PageNo::new(page)) {
            Ok(Fix::Hit(pass)) => {
                let _ = self.passes.push(pass.note());
            }
            Ok(Fix::Load(ticket, _)) => self.end_read(ticket),
            Ok(Fix::WriteFirst(ticket)) => ticket.forfeit(),
            Err(_) => {}
        }
    }

    /// Writes a page out if it is unsaved, to no device.
    fn flush(&mut self, page: u64) {
        if page >= self.pages {
            return;
        }
        match self.core.flush(0, PageNo::new(page)) {
            Ok(Flush::WriteFirst(ticket)) => match self.core.write_end(ticket, Ok(())) {
                Err(EndRefusal::Unknown(ticket, _)) => ticket.forfeit(),
                Err(EndRefusal::Failed(_)) => {}
                Ok(_) => {}
            },
            Ok(Flush::Clean) => {}
            Ok(Flush::Absent) => {}
            Err(_) => {}
        }
    }

    /// Looks at the first byte of a lent page.
    fn look(&mut self, pass: &Pass) {
        if let Some([first, ..]) = self.core.page(pass) {
            self.into[0] = *first;
        }
    }

    /// Reads the page of a pass, looks at it, writes to it, or gives the pass back.
    fn use_pass(&mut self, call: Call, place: usize) {
        let Some(note) = self.passes.get(place).copied() else {
            return;
        };
        let pass = note.pass();
        match call {
            Call::Read => {
                let _ = self.core.read(&pass);
            }
            Call::ReadInto => {
                let _ = self.core.read_into(&pass, 0, &mut self.into);
            }
            Call::Page => self.look(&pass),
            Call::Write => {
                let _ = self.core.write(&pass, 0, &self.bytes, Lsn::new(0));
            }
            Call::WriteFrom => {
                let bytes = self.bytes.bytes();
                let _ = self.core.write_from(&pass, 0, bytes, Lsn::new(0));
            }
            _ => {
                if let Err(pass) = self.core.unfix(pass) {
                    pass.note();
                }
                return;
            }
        }
        pass.note();
    }

    /// Cuts the trail, and leaves it the memory of the piece before.
    fn cut(&mut self) {
        let spare = mem::replace(&mut self.spare, Vec::new(self.alloc));
        if let Ok(piece) = self.core.cut_into(spare) {
            self.spare = piece;
        }
    }

    /// Makes one call, and keeps what it tells.
    fn make(&mut self, call: Call, page: u64, place: u64) {
        match call {
            Call::Fix => self.fix(page),
            Call::Flush => self.flush(page),
            Call::Tick => {
                let _ = self.core.tick(0, 1);
            }
            Call::NextUnsaved => {
                if let Some(found) = self.core.next_unsaved(page) {
                    self.into[0] = found.number().to_le_bytes()[0];
                }
            }
            Call::RedoFrom => {
                if let Some(lsn) = self.core.redo_from() {
                    self.into[0] = lsn.number().to_le_bytes()[0];
                }
            }
            Call::Stats => self.into[0] = self.core.stats().totals.hits.to_le_bytes()[0],
            Call::Mark => {
                let _ = self.core.mark(0, Lsn::new(place));
            }
            _ => self.use_pass(call, place as usize),
        }
    }

    /// Makes so many calls, with the pages from one on or the passes of the newest fixes. A purge or a cut is made
    /// once.
    fn make_all(&mut self, call: Call, from: u64, calls: u64) {
        match call {
            Call::Purge => {
                let _ = self.core.purge(0);
            }
            Call::Cut => self.cut(),
            _ => {
                if let Call::Fix = call {
                    self.passes.clear();
                }
                for place in 0..calls {
                    self.make(call, from.wrapping_add(place), place);
                }
            }
        }
    }
}

/// Times each call over the pages from one on.
fn time_round(
    rt: &(impl Runtime<A = Global> + CpuClock),
    bench: &mut Bench,
    from: u64,
    frames: u64,
) -> Result<(), anyhow::Error>
    requires { 0 < frames }
{
    // The pages of the round before may be evicted once the clock has moved.
    bench.make_all(Call::Tick, 0, 1);
    for (call, name) in &CALLS {
        let calls = if let Call::Cut = call { 1 } else { frames };
        let since = rt.thread_cpu_time()?;
        bench.make_all(*call, from, calls);
        tell(rt, name, since, calls)?;
    }
    Ok(())
}

/// Times rounds over the first and the second half of the pages in turn.
fn time_rounds(
    rt: &(impl Runtime<A = Global> + CpuClock),
    bench: &mut Bench,
    frames: u64,
) -> Result<(), anyhow::Error>
    requires some { 0 < frames }
    requires few { frames ≤ MAX_FRAMES }
{
    for round in 0..ROUNDS {
        time_round(rt, bench, round % 2 * frames, frames)?;
    }
    Ok(())
}

/// Times the calls of a core with so many frames, if that is within the limits.
pub(crate) fn time_calls(
    rt: &(impl Runtime<A = Global> + CpuClock),
    frames: u64,
) -> Result<(), anyhow::Error> {
    if frames == 0 || frames > MAX_FRAMES {
        return Ok(());
    }
    let mut bench = new_bench(rt.alloc(), frames)?;
    let timed = time_rounds(rt, &mut bench, frames);
    drop(bench);
    timed
}
