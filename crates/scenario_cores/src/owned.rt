//! `Owned`, a pool with one owner that is called by lines.

use crate::buffers::{Span, bytes_read};
use crate::devices::{Device, call_device, new_device};
use crate::lists::{LOST, Lists, grant_of, new_lists, pass_of};
use crate::observing::{answer_of_page, digest_of};
use crate::outcomes::{discarded, done, flushed, flushed_all, forgot, lsn_or_none, stats_of, went};
use crate::pools::{Pool, pool_of};
use bp_core::{Keeper, PoolCore, Settings};
use bp_device::{MemDevice, MemPort, OwnedPool, Port};
use bp_page::{Geometry, Image, Lsn, PageNo, Refusal};
use bp_trail::{Grant, Reply};
use scenario_words::{Answer, Said, Shape, Verb, named};
use std::alloc::Global;
use std::sync::Wait;
use test_ports::FusePort;

/// A pool with one owner, its device, and what it gave.
#[derive(Drop)]
pub struct Owned<K: Keeper> {
    alloc: Global,
    pool: OwnedPool<K, FusePort<MemPort>>,
    memory: MemDevice,
    lists: Lists,
    unread: u64,
}

/// Makes a pool with one owner of this shape, with a device of zeros. It is refused as `OwnedPool::over` is, and
/// `BadGeometry` where the pages are out of their limits.
pub fn new_owned<K: Keeper>(alloc: Global, shape: &Shape) -> Result<Owned<K>, Refusal> {
    let geometry = Geometry::new(shape.pages, shape.size)?;
    let settings = Settings::new(shape.k, shape.correlated, shape.retained)?;
    let device = new_device(alloc, geometry, shape.fuse, shape.spoils)?;
    let Some(lists) = new_lists(alloc) else {
        return Err(Refusal::OutOfMemory);
    };
    match OwnedPool::over(alloc, device.port, settings, shape.frames, shape.room) {
        Ok(pool) => Ok(Owned {
            alloc,
            pool,
            memory: device.memory,
            lists,
            unread: 0,
        }),
        Err(refusal) => Err(refusal),
    }
}

/// Returns the device for a core that gets an owner: a new one of so many pages of so many bytes where the line names
/// them, else its own, or a new one where it has none.
fn device_of(
    alloc: Global,
    core: Geometry,
    own: Option<Device>,
    call: &Said,
) -> Result<Device, Refusal> {
    let [pages, size, _] = call.numbers.list;
    match own {
        _ if call.numbers.count == 2 => {
            new_device(alloc, Geometry::new(pages, size as usize)?, 0, false)
        }
        Some(device) => Ok(device),
        None => new_device(alloc, core, 0, false),
    }
}

/// Makes a pool with one owner of a core, over its device or as the line says. What was given stays out. It is refused
/// as `OwnedPool::new` is.
pub fn owned_of<K: Keeper>(core: Pool<K>, call: &Said) -> Result<Owned<K>, Refusal> {
    let Pool {
        alloc,
        core,
        device,
        lists,
        unread,
    } = core;
    match device_of(alloc, core.geometry(), device, call) {
        Ok(device) => owned_over(alloc, core, device, lists, unread),
        // Dropped by a call, since a drop at the end of the scope is proved in this function, field by field.
        Err(refusal) => {
            drop(core);
            Err(refusal)
        }
    }
}

/// Makes a pool with one owner of a core over this device. What was given stays out.
fn owned_over<K: Keeper>(
    alloc: Global,
    core: PoolCore<K>,
    device: Device,
    lists: Lists,
    unread: u64,
) -> Result<Owned<K>, Refusal> {
    match OwnedPool::new(alloc, core, device.port) {
        Ok(pool) => Ok(Owned {
            alloc,
            pool,
            memory: device.memory,
            lists,
            unread,
        }),
        Err(refusal) => Err(refusal),
    }
}

impl<K: Keeper> Owned<K> {
    /// Takes it apart into its core, with its device and what it gave.
    pub fn into_pool(self) -> Pool<K> {
        let (core, port) = self.pool.into_parts();
        let device = Device {
            alloc: self.alloc,
            memory: self.memory,
            port,
        };
        pool_of(self.alloc, core, device, self.lists, self.unread)
    }

    fn fix(&mut self, rt: &impl Wait, verb: Verb, page: PageNo) -> Answer {
        let fixed = match verb {
            Verb::New => self.pool.fix_new(rt, page),
            _ => self.pool.fix(rt, page),
        };
        match fixed {
            Ok(pass) => self.lists.keep_given(pass),
            Err(refusal) => Answer::Refused(refusal),
        }
    }

    /// Answers the bytes of a page. Its pass has the next number, and has gone back.
    fn look(&mut self, rt: &impl Wait, page: PageNo) -> Answer {
        let (alloc, serial) = (self.alloc, self.lists.passes.len() as u64);
        let shown = match self
            .pool
            .with_page(rt, page, |bytes| Image::of(alloc, bytes))
        {
            Ok(shown) => shown,
            Err(refusal) => return Answer::Refused(refusal),
        };
        let is_kept = self.lists.keep_pass(Grant {
            client: 0,
            page,
            serial,
        });
        match shown {
            Ok(image) if is_kept => Answer::Reply(Reply::Content(image)),
            _ => LOST,
        }
    }

    /// Makes a call of the owner, who is client 0.
    fn by_owner(&mut self, rt: &impl Wait, call: &Said) -> Answer {
        let [client, number, _] = call.numbers.list;
        let page = PageNo::new(number);
        match call.verb {
            _ if client != 0 => Answer::BadLine,
            Verb::Fix | Verb::New => self.fix(rt, call.verb, page),
            Verb::Look => self.look(rt, page),
            Verb::Flush => flushed(self.pool.flush(rt, page)),
            Verb::FlushAll => flushed_all(self.pool.flush_all(rt)),
            Verb::Discard => discarded(self.pool.discard(page)),
            Verb::Tick => done(self.pool.tick(number)),
            Verb::Mark => done(self.pool.mark(Lsn::new(number))),
            Verb::Purge => forgot(self.pool.purge()),
            _ => Answer::BadLine,
        }
    }

    fn page(&self, grant: Grant) -> Answer {
        let pass = pass_of(grant);
        let answer = match self.pool.page(&pass) {
            Some(bytes) => match Image::of(self.alloc, bytes) {
                Ok(image) => Answer::Reply(Reply::Content(image)),
                Err(_) => Answer::BadLine,
            },
            None => Answer::Word("none"),
        };
        pass.note();
        answer
    }

    /// Reads so many bytes, which need not lie within the page.
    fn read_into(&mut self, grant: Grant, offset: u32, count: u64) -> Answer {
        let Ok(mut into) = vec![in self.alloc; 255; count as usize] else {
            return Answer::BadLine;
        };
        let pass = pass_of(grant);
        let read = self.pool.read_into(&pass, offset, &mut into);
        pass.note();
        bytes_read(read, Span { offset, into })
    }

    /// Writes bytes, which need not lie within the page.
    fn write_from(&mut self, grant: Grant, offset: u32, bytes: &[u8], lsn: Lsn) -> Answer {
        let pass = pass_of(grant);
        let written = self.pool.write_from(&pass, offset, bytes, lsn);
        pass.note();
        done(written)
    }

    fn unfix(&mut self, grant: Grant) -> Answer {
        match self.pool.unfix(pass_of(grant)) {
            Ok(()) => Answer::Reply(Reply::Done),
            Err(pass) => Answer::Back(Refusal::UnknownPass, grant_of(pass), None),
        }
    }

    /// Makes a call with a pass.
    fn by_pass(&mut self, call: &Said) -> Answer {
        let [offset, number, _] = call.numbers.list;
        let named = named(&self.lists.passes, &call.name);
        let (Some(pass), Ok(offset)) = (named, u32::try_from(offset)) else {
            return Answer::BadLine;
        };
        match (call.verb, &call.bytes) {
            (Verb::Page, _) => self.page(pass),
            (Verb::ReadInto, _) => self.read_into(pass, offset, number),
            (Verb::WriteFrom, Some(bytes)) => {
                self.write_from(pass, offset, bytes.bytes(), Lsn::new(number))
            }
            (Verb::Unfix, _) => self.unfix(pass),
            _ => Answer::BadLine,
        }
    }

    /// Answers what the pool, its core, its port or its device tells without an entry.
    fn tell(&self, rt: &impl Wait, call: &Said) -> Answer {
        let core = self.pool.core();
        match call.verb {
            Verb::Durable => Answer::Number(self.pool.durable().number()),
            Verb::Failures => Answer::Number(self.pool.port().failures()),
            Verb::Clock => Answer::Number(core.clock()),
            Verb::Free => Answer::Number(core.free() as u64),
            Verb::Stats => stats_of(self.alloc, &core.stats(), self.unread),
            Verb::Put | Verb::Device => call_device(self.alloc, rt, &self.memory, call),
            _ => answer_of_page(core, call),
        }
    }

    fn set_ticking(&mut self, is_ticking: bool) -> Answer {
        self.pool.set_ticking(is_ticking);
        done(Ok(()))
    }

    /// Makes a call.
    pub fn call(&mut self, rt: &impl Wait, call: &Said) -> Answer {
        match call.verb {
            Verb::Fix
            | Verb::New
            | Verb::Look
            | Verb::Flush
            | Verb::FlushAll
            | Verb::Discard
            | Verb::Tick
            | Verb::Mark
            | Verb::Purge => self.by_owner(rt, call),
            Verb::Page | Verb::ReadInto | Verb::WriteFrom | Verb::Unfix => self.by_pass(call),
            Verb::Redo => lsn_or_none(self.pool.redo_from()),
            Verb::Sync => went(self.pool.sync(rt)),
            Verb::Ticking(is_ticking) => self.set_ticking(is_ticking),
            _ => self.tell(rt, call),
        }
    }

    /// Returns a hash of what its core tells.
    pub fn digest(&self) -> u64 {
        digest_of(self.pool.core())
    }
}
