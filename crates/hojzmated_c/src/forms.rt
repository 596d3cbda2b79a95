//! The plain structs that cross to C. `include/hojzmated.h` has the same ones, field by field.
ghost use Rattle.std.specs.Prelude.{◌≡◌};
ghost use Rattle.bp_trail.specs.Event.{grant};
ghost use Rattle.hojzmated_c.specs.Forms.{grant_of, pass_of, shown, shown_grant, shown_refusal, shown_stats};

use bp_core::{Pass, PassNote, Stats};
use bp_page::{PageNo, Refusal};
use bp_trail::Grant;

/// The settings of a core. Both periods, `correlated` and `retained`, are in ticks.
#[repr(C)]
#[derive(Clone, Copy)]
pub struct HzConfig {
    pub pages: u64,
    pub page_size: usize,
    pub frames: usize,
    pub room: usize,
    pub correlated: u64,
    pub retained: u64,
    pub k: u8,
    pub clients: u8,
}

/// A pass or a ticket as plain numbers, which C may copy.
#[repr(C)]
#[derive(Clone, Copy)]
pub struct HzGrant {
    pub page: u64,
    pub serial: u64,
    pub client: u8,
}

/// The answer to a fix or a flush. `lsn` is the page LSN of an image to write, or the LSN up to which the log must be
/// durable first; `evicted` is the page that left its frame, where `has_evicted` is 1.
#[repr(C)]
#[derive(Clone, Copy)]
pub struct HzFixed {
    pub grant: HzGrant,
    pub lsn: u64,
    pub evicted: u64,
    pub kind: u8,
    pub has_evicted: u8,
}

/// An unsaved page: its page LSN, and the least LSN of its unsaved writes. All fields are 0 where there is none.
#[repr(C)]
#[derive(Clone, Copy, Drop)]
pub struct HzUnsaved {
    pub page: u64,
    pub lsn: u64,
    pub first_lsn: u64,
    pub has_page: u8,
}

/// The counts since the core was made, and the present numbers of pages of each kind.
#[repr(C)]
#[derive(Clone, Copy, Drop)]
pub struct HzStats {
    pub hits: u64,
    pub faults: u64,
    pub evictions: u64,
    pub writes: u64,
    pub failed: u64,
    pub refused: u64,
    pub resident: usize,
    pub pinned: usize,
    pub unsaved: usize,
    pub loading: usize,
    pub writing: usize,
    pub discards: u64,
}

/// The page is resident: the grant is a pass.
pub const HIT: u8 = 1;

/// The page is to be read: the grant is a ticket to read it.
pub const LOAD: u8 = 2;

/// A page is to be written out first: the grant is a ticket to write it.
pub const WRITE_FIRST: u8 = 3;

/// A flush found nothing to write.
pub const CLEAN: u8 = 4;

/// A flush found the page in no frame.
pub const ABSENT: u8 = 5;

// The sizes that the header's structs have.
const _: () = prove!(size_of::<HzConfig>() == 56);

const _: () = prove!(size_of::<HzGrant>() == 24);

const _: () = prove!(size_of::<HzFixed>() == 48);

const _: () = prove!(size_of::<HzUnsaved>() == 32);

const _: () = prove!(size_of::<HzStats>() == 96);

impl HzGrant {
    pub(crate) fn grant(&self) -> Grant
        ensures { result ≡ grant_of self.now }
    {
        Grant {
            client: self.client,
            page: PageNo::new(self.page),
            serial: self.serial,
        }
    }

    pub(crate) fn pass(&self) -> Pass
        ensures { result ≡ pass_of self.now }
    {
        PassNote::of(self.client, PageNo::new(self.page), self.serial).pass()
    }

    pub(crate) fn of(note: PassNote) -> HzGrant
        ensures { result ≡ shown_grant note }
    {
        HzGrant {
            page: note.page().number(),
            serial: note.serial(),
            client: note.client(),
        }
    }
}

impl HzFixed {
    /// Returns an answer of this kind with this grant, where no page is evicted or written out.
    pub(crate) fn of(kind: u8, client: u8, page: PageNo, serial: u64) -> HzFixed
        ensures { result ≡ shown kind (grant client page serial) }
    {
        HzFixed {
            grant: HzGrant {
                page: page.number(),
                serial,
                client,
            },
            lsn: 0,
            evicted: 0,
            kind,
            has_evicted: 0,
        }
    }

    /// Returns the answer of a refusal: kind 0, the client and the page, and for `NeedLog` the LSN that the log needs.
    pub(crate) fn refused(client: u8, page: u64, why: &Refusal) -> HzFixed
        ensures { result ≡ shown_refusal client page why.now }
    {
        let bare = HzFixed::of(0, client, PageNo::new(page), 0);
        match why {
            Refusal::NeedLog(lsn) => HzFixed {
                lsn: lsn.number(),
                ..bare
            },
            _ => bare,
        }
    }
}

impl HzStats {
    pub(crate) fn of(stats: &Stats) -> HzStats
        ensures { result ≡ shown_stats stats.now }
    {
        HzStats {
            hits: stats.totals.hits,
            faults: stats.totals.faults,
            evictions: stats.totals.evictions,
            writes: stats.totals.writes,
            failed: stats.totals.failed,
            refused: stats.totals.refused,
            resident: stats.resident,
            pinned: stats.pinned,
            unsaved: stats.unsaved,
            loading: stats.loading,
            writing: stats.writing,
            discards: stats.totals.discards,
        }
    }
}
