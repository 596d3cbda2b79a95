//! `Geometry`: the number of pages of a file and their size, within limits.
ghost use Rattle.std.specs.Prelude.{◌≡◌, ◌+◌, ◌<◌, ◌≤◌, ◌↔◌, IsTrue, IsOk, IsSome, IfOk, IfSome, OnErr};
ghost use Rattle.bp_page.specs.Limits.{IsGeometry};

use crate::numbers::PageNo;
use crate::refusals::Refusal;

/// The most pages of a file.
pub const MAX_PAGES: u64 = 1048576;

/// The size in bytes of the smallest page, of which every page size is a multiple.
pub const MIN_PAGE_SIZE: usize = 16;

/// The size in bytes of the largest page.
pub const MAX_PAGE_SIZE: usize = 65536;

/// The number of pages of a file, and the size of each in bytes.
#[derive(Clone, Copy, Debug)]
pub struct Geometry {
    /// From 1 to 1,048,576.
    pub pages: u64,
    /// In bytes: from 16 to 65,536, and a multiple of 16.
    pub size: usize,
    /// Both are within these limits.
    pub ghost in_limits: { IsGeometry pages size },
}

impl Geometry {
    /// Makes the geometry of a file of 1 to 1,048,576 pages of 16 to 65,536 bytes, a multiple of 16. Anything else is
    /// `BadGeometry`.
    pub fn new(pages: u64, size: usize) -> Result<Geometry, Refusal>
        ensures accepted { IsOk result ↔ IsGeometry pages size }
        ensures refused { OnErr result (result ≡ Err Refusal.BadGeometry) }
        ensures pages { IfOk result (λ geometry. geometry.pages ≡ pages) }
        ensures size { IfOk result (λ geometry. geometry.size ≡ size) }
    {
        if pages < 1
            || pages > MAX_PAGES
            || size < MIN_PAGE_SIZE
            || size > MAX_PAGE_SIZE
            || size % MIN_PAGE_SIZE != 0
        {
            return Err(Refusal::BadGeometry);
        }
        Ok(Geometry { pages, size })
    }

    /// Returns the page with this number, or `None` where the file has no such page.
    pub fn page(&self, number: u64) -> Option<PageNo>
        ensures in_range { IsSome result ↔ (number < self.now.pages) }
        ensures same { IfSome result (λ page. page ≡ number) }
    {
        if number < self.pages {
            Some(PageNo::new(number))
        } else {
            None
        }
    }

    /// Returns true if `len` bytes from the offset on lie within a page.
    pub fn fits(&self, offset: usize, len: usize) -> bool
        ensures { IsTrue result ↔ (offset + len ≤ self.now.size) }
    {
        offset <= self.size && len <= self.size - offset
    }
}
