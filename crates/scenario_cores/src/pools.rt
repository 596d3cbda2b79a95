//! `Pool`, a core that is called by lines.
ghost use Rattle.std.specs.Prelude.{◌≡◌, ◌<◌, IfSome, IsTrue};

use crate::devices::{Device, device_for};
use crate::lists::{LOST, Lists, new_lists};
use crate::observing::digest_of;
use crate::outcomes::{discarded, done, flushed, forgot};
use bp_core::{Fix, Flush, Keeper, PoolCore, ReadTicket, Settings, WriteTicket};
use bp_device::{Port, drive_fix, drive_flush};
use bp_page::{Geometry, Image, Lsn, PageNo, Refusal};
use bp_trail::{Grant, Reply};
use scenario_words::{Answer, Said, Shape, Thing, Verb};
use std::alloc::Global;
use std::sync::Wait;

/// A core, its device if it has one, and what it gave. `lists` has those entries that were cut.
#[derive(Drop)]
pub struct Pool<K: Keeper> {
    pub(crate) alloc: Global,
    pub(crate) core: PoolCore<K>,
    pub(crate) device: Option<Device>,
    pub(crate) lists: Lists,
    /// The reads by sessions that failed only for want of memory, and were made again. Each left two entries, which are
    /// not counted.
    pub(crate) unread: u64,
}

/// Makes a core of this shape, with a device of its own if it is driven.
pub fn new_pool<K: Keeper>(alloc: Global, thing: Thing, shape: &Shape) -> Result<Pool<K>, Refusal> {
    let geometry = Geometry::new(shape.pages, shape.size)?;
    let settings = Settings::new(shape.k, shape.correlated, shape.retained)?;
    let (frames, clients, room) = (shape.frames, shape.clients, shape.room);
    let device = device_for(alloc, thing, geometry, shape)?;
    let Some(lists) = new_lists(alloc) else {
        return Err(Refusal::OutOfMemory);
    };
    match PoolCore::<K>::new(alloc, geometry, settings, frames, clients, room) {
        Ok(core) => Ok(Pool {
            alloc,
            core,
            device,
            lists,
            unread: 0,
        }),
        Err(refusal) => Err(refusal),
    }
}

/// Copies an image. Where memory is refused, it tries again.
fn copy_of(alloc: Global, image: &Image) -> Option<Image> {
    match Image::of(alloc, image.bytes()) {
        Ok(copy) => Some(copy),
        Err(_) => Image::of(alloc, image.bytes()).ok(),
    }
}

/// Takes over a core that sessions used, with their device and what they were given.
pub fn pool_of<K: Keeper>(
    alloc: Global,
    core: PoolCore<K>,
    device: Device,
    lists: Lists,
    unread: u64,
) -> Pool<K> {
    Pool {
        alloc,
        core,
        device: Some(device),
        lists,
        unread,
    }
}

impl<K: Keeper> Pool<K> {
    /// Returns the client of a number, or None where the core has none.
    fn client_of(&self, number: u64) -> Option<u8>
        ensures { IfSome result (λ client. client < self.now.core.parameters.clients) }
    {
        match u8::try_from(number) {
            Ok(client) if client < self.core.clients() => Some(client),
            _ => None,
        }
    }

    fn has_page(&self, page: PageNo) -> bool
        ensures { IsTrue result → page < self.now.core.parameters.pages }
    {
        page.number() < self.core.geometry().pages
    }

    fn keep_read(&mut self, ticket: ReadTicket, evicted: Option<PageNo>) -> Answer {
        let serial = ticket.serial();
        let is_kept = self.lists.keep_ticket(Grant {
            client: ticket.client(),
            page: ticket.page(),
            serial,
        });
        ticket.forfeit();
        if !is_kept {
            return LOST;
        }
        Answer::Reply(Reply::Load {
            ticket: serial,
            evicted,
        })
    }

    fn keep_write(&mut self, ticket: WriteTicket) -> Answer {
        let image = copy_of(self.alloc, ticket.image());
        let (page, serial, lsn) = (ticket.page(), ticket.serial(), ticket.lsn());
        let is_kept = self.lists.keep_ticket(Grant {
            client: ticket.client(),
            page,
            serial,
        });
        ticket.forfeit();
        match image {
            Some(image) if is_kept => {
                let reply = Reply::WriteFirst {
                    ticket: serial,
                    page,
                    image,
                };
                Answer::Out(reply, lsn)
            }
            _ => LOST,
        }
    }

    fn fix(&mut self, rt: &impl Wait, client: u8, page: PageNo) -> Answer
        requires client { client < self.old.core.parameters.clients }
        requires page { page < self.old.core.parameters.pages }
    {
        let size = self.core.geometry().size;
        let Some(device) = &mut self.device else {
            return match self.core.fix(client, page) {
                Ok(Fix::Hit(pass)) => self.lists.keep_given(pass),
                Ok(Fix::Load(ticket, evicted)) => self.keep_read(ticket, evicted),
                Ok(Fix::WriteFirst(ticket)) => self.keep_write(ticket),
                Err(refusal) => Answer::Refused(refusal),
            };
        };
        if device.port.geometry().size != size {
            return Answer::BadLine;
        }
        match drive_fix(rt, &mut self.core, &mut device.port, client, page) {
            Ok(pass) => self.lists.keep_given(pass),
            Err(refusal) => Answer::Refused(refusal),
        }
    }

    fn flush(&mut self, rt: &impl Wait, client: u8, page: PageNo) -> Answer
        requires client { client < self.old.core.parameters.clients }
        requires page { page < self.old.core.parameters.pages }
    {
        let Some(device) = &mut self.device else {
            return match self.core.flush(client, page) {
                Ok(Flush::WriteFirst(ticket)) => self.keep_write(ticket),
                Ok(Flush::Clean) => Answer::Reply(Reply::Clean),
                Ok(Flush::Absent) => Answer::Reply(Reply::Absent),
                Err(refusal) => Answer::Refused(refusal),
            };
        };
        flushed(drive_flush(rt, &mut self.core, &mut device.port, client, page))
    }

    /// Makes a call that has a client.
    fn by_client(&mut self, rt: &impl Wait, call: &Said) -> Answer {
        let [number, second, _] = call.numbers.list;
        let Some(client) = self.client_of(number) else {
            return Answer::BadLine;
        };
        let page = PageNo::new(second);
        match call.verb {
            Verb::Tick => done(self.core.tick(client, second)),
            Verb::Mark => done(self.core.mark(client, Lsn::new(second))),
            Verb::Purge => forgot(self.core.purge(client)),
            Verb::Fix if self.has_page(page) => self.fix(rt, client, page),
            Verb::Flush if self.has_page(page) => self.flush(rt, client, page),
            Verb::Discard if self.has_page(page) => discarded(self.core.discard(client, page)),
            Verb::New if self.has_page(page) => self.fix_new(rt, client, page),
            Verb::FlushAll => self.flush_all(rt, client),
            _ => Answer::BadLine,
        }
    }

    /// Returns the free room, with that of the reads that are not counted.
    pub fn free(&self) -> u64 {
        (self.core.free() as u64).saturating_add(self.unread.saturating_mul(2))
    }

    /// Answers what the core or its device tells without an entry.
    fn tell(&self, rt: &impl Wait, call: &Said) -> Answer {
        match (call.verb, &self.device) {
            (Verb::Clock, _) => Answer::Number(self.core.clock()),
            (Verb::Durable, _) => Answer::Number(self.core.durable().number()),
            (Verb::Free, _) => Answer::Number(self.free()),
            (_, Some(device)) => device.call(rt, call),
            _ => Answer::BadLine,
        }
    }

    /// Makes a call. A core with a device fixes and flushes by drivers.
    pub fn call(&mut self, rt: &impl Wait, call: &Said) -> Answer {
        match call.verb {
            Verb::Fix
            | Verb::New
            | Verb::Flush
            | Verb::FlushAll
            | Verb::Discard
            | Verb::Tick
            | Verb::Mark
            | Verb::Purge => self.by_client(rt, call),
            Verb::Read
            | Verb::Page
            | Verb::PageLsn
            | Verb::ReadInto
            | Verb::Write
            | Verb::WriteFrom
            | Verb::Unfix => self.by_pass(call),
            Verb::ReadEnd | Verb::ReadFails(_) | Verb::WriteEnd | Verb::WriteFails(_) => {
                self.by_ticket(call)
            }
            Verb::Next
            | Verb::Redo
            | Verb::NextVictim
            | Verb::First
            | Verb::TopLsn
            | Verb::Resident
            | Verb::Stats
            | Verb::Last
            | Verb::Stamp
            | Verb::Unsaved => self.observe(call),
            Verb::Sync => self.sync(rt),
            _ => self.tell(rt, call),
        }
    }

    /// Returns a hash of what the core tells: clock, mark, free room, and of the first pages their stamps, their newest
    /// references and whether they are unsaved.
    pub fn digest(&self) -> u64 {
        digest_of(&self.core)
    }
}
