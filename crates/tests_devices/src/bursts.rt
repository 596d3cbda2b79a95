//! Random references in bursts of every length, compared with a plain list: the victim of each load is the page that
//! the list has first. Between two loads the order of the frames may so be behind by any number of pages.
use bp_core::{Settings, SilentKeeper};
use bp_device::{MemDevice, MemPort, OwnedPool};
use bp_page::{Geometry, PageNo, Refusal};
use std::process::Abort;
use std::rt::HostRuntime;
use std::sync::Wait;

const CALLS: u64 = 10000;

/// A page in the list: the times of its two newest references, or 0, and whether it is in a frame.
#[derive(Clone, Copy, Drop)]
struct Known {
    second: u64,
    newest: u64,
    is_here: bool,
}

#[derive(Drop)]
struct List {
    pages: Vec<Known>,
    now: u64,
    random: u64,
}

impl List {
    /// Returns a random number below this one.
    fn draw(&mut self, below: u64) -> u64 {
        self.random = self
            .random
            .wrapping_mul(6364136223846793005)
            .wrapping_add(1442695040888963407);
        (self.random >> 33) % below.max(1)
    }

    /// Returns the number of hits until the next load: few, or up to three for each frame.
    fn draw_burst(&mut self, frames: u64) -> u64 {
        let most = if self.draw(2) == 0 {
            9
        } else {
            frames.saturating_mul(3)
        };
        self.draw(most)
    }

    /// Returns a page that is in a frame, or one that is not: the first from a random one on.
    fn draw_page(&mut self, is_here: bool) -> u64 {
        let count = self.pages.len() as u64;
        let begin = self.draw(count);
        for step in 0..count {
            let page = begin.wrapping_add(step) % count;
            if self
                .pages
                .get(page as usize)
                .is_some_and(|known| known.is_here == is_here)
            {
                return page;
            }
        }
        begin
    }

    /// Returns the page in a frame whose second newest reference is the oldest, then whose newest is, then the first.
    fn first(&self) -> u64 {
        let (mut first, mut least) = (0, None);
        for page in 0..self.pages.len() {
            let Some(known) = self.pages.get(page) else {
                continue;
            };
            let comes_first = match least {
                None => true,
                Some((second, newest)) => {
                    known.second < second || (known.second == second && known.newest < newest)
                }
            };
            if known.is_here && comes_first {
                first = page as u64;
                least = Some((known.second, known.newest));
            }
        }
        first
    }

    /// Notes that a page left.
    fn leave(&mut self, page: u64) {
        if let Some(known) = self.pages.get_mut(page as usize) {
            known.is_here = false;
        }
    }

    fn refer(&mut self, page: u64) {
        self.now = self.now.wrapping_add(1);
        let now = self.now;
        if let Some(known) = self.pages.get_mut(page as usize) {
            *known = Known {
                second: known.newest,
                newest: now,
                is_here: true,
            };
        }
    }
}

/// References pages in a pool of so many frames, over a file of twice as many pages and one. It returns the first load
/// that evicted another page than the list's first, if there is one, and how many pages left.
fn compare<R: Abort + Wait>(
    rt: &R,
    pool: &mut OwnedPool<SilentKeeper, MemPort>,
    list: &mut List,
    frames: u64,
) -> Result<(Option<u64>, u64), Refusal> {
    let (mut calls, mut left) = (0, 0u64);
    for _ in 0..CALLS {
        if calls >= CALLS {
            break;
        }
        let is_full = pool.core().stats().resident as u64 == frames;
        let burst = if is_full { list.draw_burst(frames) } else { 0 };
        for _ in 0..burst {
            let page = list.draw_page(true);
            pool.with_page(rt, PageNo::new(page), |_| ())?;
            list.refer(page);
        }
        calls = burst.saturating_add(calls).saturating_add(1);
        let page = list.draw_page(false);
        let leaves = is_full.then(|| list.first());
        pool.with_page(rt, PageNo::new(page), |_| ())?;
        list.refer(page);
        if let Some(leaves) = leaves {
            if pool.core().is_resident(PageNo::new(leaves)) {
                return Ok((Some(calls), left));
            }
            list.leave(leaves);
            left = left.saturating_add(1);
        }
    }
    Ok((None, left))
}

/// Makes a pool of so many frames over a file of so many pages.
fn new_pool<R: Abort + AllocGlobal>(
    rt: &R,
    frames: usize,
    pages: usize,
) -> OwnedPool<SilentKeeper, MemPort> {
    let geometry = Geometry::new(pages as u64, 16).expect(rt, "the geometry");
    let device = MemDevice::new(rt.alloc(), geometry).expect(rt, "the device");
    let port = device.port().expect(rt, "the port");
    let settings = Settings::new(2, 0, 1 << 62).expect(rt, "the settings");
    OwnedPool::over(rt.alloc(), port, settings, frames, 1 << 40).expect(rt, "the pool")
}

/// Makes a list of so many pages, none of which is in a frame.
fn new_list<R: Abort + AllocGlobal>(rt: &R, frames: usize, pages: usize) -> List {
    let unknown = Known {
        second: 0,
        newest: 0,
        is_here: false,
    };
    List {
        pages: vec![in rt.alloc(); unknown; pages].expect(rt, "the list"),
        now: 0,
        random: frames as u64,
    }
}

/// Asserts that no load evicted another page than the list's first, and that some pages left.
fn expect_alike<R: Abort>(rt: &R, frames: usize, outcome: Result<(Option<u64>, u64), Refusal>) {
    let (differs, left) = outcome.expect(rt, "the calls");
    assert_eq!(rt; (frames, differs), (frames, None));
    assert!(rt; left >= 10);
}

/// Compares a new pool of so many frames with the list.
fn try_with<R: Abort + AllocGlobal + Wait>(rt: &R, frames: usize) {
    let pages = frames.saturating_mul(2).saturating_add(1);
    let mut pool = new_pool(rt, frames, pages);
    let mut list = new_list(rt, frames, pages);
    let outcome = compare(rt, &mut pool, &mut list, frames as u64);
    drop(pool);
    drop(list);
    expect_alike(rt, frames, outcome);
}

#[test]
fn few_frames(rt: HostRuntime) {
    for frames in 1..20usize {
        try_with(&rt, frames);
    }
}

#[test]
fn as_many_frames_as_a_word_has_bits(rt: HostRuntime) {
    for frames in 63..67usize {
        try_with(&rt, frames);
    }
}

#[test]
fn many_frames(rt: HostRuntime) {
    for frames in [128usize, 129, 200, 299, 300] {
        try_with(&rt, frames);
    }
}
