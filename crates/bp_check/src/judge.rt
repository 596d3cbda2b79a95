//! `Judge`: judges a trail piece by piece.
ghost use Rattle.std.specs.Prelude.{◌≡◌, [], IfOk};
ghost use Rattle.bp_check.specs.Setups.{parameters_of};

mod calls;
mod choice;
mod going_on;
mod next;
mod replies;

use crate::grants::Grants;
use crate::pages::{PageState, blank_pages};
use crate::residents::Residents;
use crate::setup::Setup;
use crate::spans::{Span, no_references};
use crate::told::Told;
use bp_page::{Image, Lsn, PageNo};
use std::alloc::{AllocError, Global};
use std::marker::Model;

/// The judge of one pool's trail, which is told it piece by piece from the first entry of the pool on. Contracts see it
/// as the parameters of the pool, whose room they give as 0, and the entries so far, which are legal.
///
/// It keeps what the entries so far come to, and none of them. So its memory is that of the file's pages, of what is
/// out, and of the references that no purge and no discard forgot.
#[derive(Drop)]
pub struct Judge {
    setup: Setup,
    /// The entries so far, which are legal. They stand in proofs alone.
    told: Told,
    /// The number of entries so far.
    count: u64,
    clock: u64,
    durable: Lsn,
    /// The number of passes given, which is the next serial number.
    passes: u64,
    /// The number of tickets of both kinds given, which is the next serial number.
    tickets: u64,
    passes_out: Grants,
    reads_out: Grants,
    writes_out: Grants,
    residents: Residents,
    /// For each page, what is asked of it.
    pages: Vec<PageState>,
    /// For each page, the spans of the bursts of its references.
    spans: Vec<Vec<Span>>,
}

impl Model for Judge {
    ghost use Rattle.bp_check.specs.Setups.{parameters_of};
    ghost use Rattle.bp_check.specs.Seen.{Seen, Keeps};

    ghost Value = { Seen };

    ghost view = { λ j. record {
      parameters = parameters_of j.setup 0;
      past = j.told.past;
    } };

    ghost invariant = { λ j. Keeps (parameters_of j.setup 0) j.told.past j.count
        j.clock j.durable j.passes j.tickets j.passes_out j.reads_out j.writes_out j.residents
        j.pages.items j.spans.items };
}

impl Judge {
    ghost use Rattle.std.specs.Prelude.{ℕ, true, length};
    ghost use Rattle.bp_trail.specs.Passes as passes;
    ghost use Rattle.bp_trail.specs.Places as places;
    ghost use Rattle.bp_trail.specs.Saved as saved;
    ghost use Rattle.bp_trail.specs.Images as images;
    ghost use Rattle.bp_trail.specs.Event.{grant};
    ghost use Rattle.bp_trail.specs.Legal.{is_out, Legal};
    ghost use Rattle.bp_check.specs.Setups.{with_room};

    /// Makes the judge of a new pool, with no entries. It takes memory for an empty list of each page of the file, and
    /// fails by want of memory alone.
    pub fn new(alloc: Global, setup: &Setup) -> Result<Judge, AllocError>
        ensures { IfOk result (λ judge. judge ≡
            record { parameters = parameters_of setup.now 0; past = [] }) }
    {
        let pages = blank_pages(alloc, setup.geometry.pages as usize)?;
        let spans = no_references(alloc, setup.geometry.pages as usize)?;
        Ok(Judge {
            setup: *setup,
            told: Told::nothing(),
            count: 0,
            clock: 1,
            durable: Lsn::new(0),
            passes: 0,
            tickets: 0,
            passes_out: Grants::new(alloc),
            reads_out: Grants::new(alloc),
            writes_out: Grants::new(alloc),
            residents: Residents::new(alloc),
            pages,
            spans,
        })
    }

    /// What a judge was told is legal, for a pool of each room. It does nothing when it runs.
    pub fn keeps_the_rules(&self)
        ensures { (room : ℕ) → Legal (with_room self.now.parameters room) self.now.past }
    {
        let _ = &self.setup;
    }

    /// Returns the number of entries so far.
    pub fn count(&self) -> u64
        ensures { result ≡ length self.now.past }
    {
        self.count
    }

    /// The number of tickets of both kinds given, which is the next serial number.
    fn tickets(&self) -> u64
        ensures { result ≡ passes.tickets self.now.past }
    {
        self.tickets
    }

    /// Returns true if a read of the page is under way.
    fn loading(&self, page: PageNo) -> bool
        ensures { result ≡ places.loading self.now.past page }
    {
        self.reads_out.has_of(page)
    }

    /// Returns true if a write-out of the page is under way.
    fn writing(&self, page: PageNo) -> bool
        ensures { result ≡ places.writing self.now.past page }
    {
        self.writes_out.has_of(page)
    }

    /// Returns true if the page's read ended well and no later entry evicts it.
    fn resident(&self, page: PageNo) -> bool
        ensures { result ≡ places.resident self.now.past page }
    {
        self.residents.has(page)
    }

    /// The number of passes of the page that are out.
    fn pins(&self, page: PageNo) -> usize
        ensures { result ≡ passes.pins self.now.past page }
    {
        self.passes_out.count_of(page)
    }

    /// Returns true if some write of the page has no good write-out of it that began after it.
    fn unsaved(&self, page: PageNo) -> bool
        ensures { result ≡ saved.unsaved self.now.past page }
    {
        match self.pages.get(page.number() as usize) {
            Some(state) => state.is_unsaved,
            None => false,
        }
    }

    /// Returns true if a write of the page stands after the begin of the write-out with this ticket, which is out. So no
    /// write-out of the page began later.
    fn written_since(&self, _client: u8, _ticket: u64, page: PageNo) -> bool
        requires { is_out (grant _client page _ticket) (passes.writes_out self.now.past) ≡ true }
        ensures { result ≡ saved.written_since self.now.past _ticket page }
    {
        match self.pages.get(page.number() as usize) {
            Some(state) => state.is_rewritten,
            None => false,
        }
    }

    /// The greatest LSN of the writes of the page since it was loaded.
    fn page_lsn(&self, page: PageNo) -> Lsn
        ensures { result ≡ saved.page_lsn self.now.past page }
    {
        match self.pages.get(page.number() as usize) {
            Some(state) => state.page_lsn,
            None => Lsn::new(0),
        }
    }

    /// The image of the page that was loaded, with the writes since.
    fn held(&self, alloc: Global, page: PageNo) -> Result<Image, AllocError>
        ensures { IfOk result (λ image. image ≡ images.held self.now.past page) }
    {
        match self.pages.get(page.number() as usize) {
            Some(state) => Image::of(alloc, &state.image),
            None => Image::of(alloc, &[]),
        }
    }
}
