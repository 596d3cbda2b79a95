//! `PageState`: what is asked of one page, updated at each entry.
ghost use Rattle.std.specs.Prelude.{◌≡◌, ◌<◌, ◌≢◌, ℕ, true, length, max, unwrap_or, IfOk, OnOk, vec_len};
ghost use Rattle.bp_check.specs.Pages as of;
ghost use Rattle.bp_check.specs.Pages.{seen_after, seen_at, touches};

use crate::events::{begins_of, begun, discards, loads, lsn_written, page_of, saves, writes};
use crate::images::{read_into, write_into};
use bp_page::{Lsn, PageNo};
use bp_trail::Entry;
use std::alloc::{AllocError, Global};
use std::marker::Model;

/// What is asked of one page.
#[derive(Drop)]
pub(crate) struct PageState {
    /// The image that was loaded, with the writes since.
    pub(crate) image: Vec<u8>,
    /// The greatest LSN of the writes since the page was loaded, or 0.
    pub(crate) page_lsn: Lsn,
    /// True if some write has no good write-out that began after it, and no discard after it.
    pub(crate) is_unsaved: bool,
    /// True if some write stands after the newest begin of a write-out, and after the newest discard.
    pub(crate) is_rewritten: bool,
}

impl Model for PageState {
    ghost use Rattle.bp_check.specs.Pages.{PageSeen};

    ghost Value = { PageSeen };

    ghost view = { λ s. record {
      image = s.image.items;
      page_lsn = s.page_lsn;
      is_unsaved = s.is_unsaved;
      is_rewritten = s.is_rewritten;
    } };
}

/// The greater of the two, or `reached` where there is no `lsn`.
pub(crate) fn at_least(lsn: Option<Lsn>, reached: Lsn) -> Lsn
    ensures { result ≡ max (unwrap_or lsn 0) reached }
{
    match lsn {
        Some(lsn) => { if reached < lsn { lsn } else { reached } }
        None => reached,
    }
}

impl PageState {
    ghost use Rattle.bp_check.specs.Pages as of;
    ghost use Rattle.bp_check.specs.Pages.{seen_after};

    fn blank(alloc: Global) -> PageState
        ensures { result ≡ of.blank }
    {
        PageState {
            image: Vec::new(alloc),
            page_lsn: Lsn::new(0),
            is_unsaved: false,
            is_rewritten: false,
        }
    }

    /// Notes what an entry does to the page's image and page LSN. It fails by want of memory alone.
    fn note_content(&mut self, page: PageNo, e: &Entry) -> Result<(), AllocError>
        ensures { OnOk result (self.new ≡ of.content_after page e.now self.old) }
    {
        if loads(page, e) {
            read_into(&mut self.image, &e.call)?;
            self.page_lsn = Lsn::new(0);
        } else {
            write_into(&mut self.image, page, e)?;
            self.page_lsn = at_least(lsn_written(page, e), self.page_lsn);
        }
        Ok(())
    }

    /// Notes what an entry does to the page. It fails by want of memory alone.
    fn note(&mut self, page: PageNo, e: &Entry) -> Result<(), AllocError>
        ensures { OnOk result (self.new ≡ seen_after page e.now self.old) }
    {
        self.note_content(page, e)?;
        let (is_written, is_dropped) = (writes(page, e), discards(page, e));
        self.is_unsaved = if saves(page, &e.call) {
            self.is_rewritten
        } else {
            is_written || (!is_dropped && self.is_unsaved)
        };
        let settles = is_dropped || begins_of(page, &e.reply);
        self.is_rewritten = is_written || (!settles && self.is_rewritten);
        Ok(())
    }
}

/// Returns a blank state for each of so many pages. It fails by want of memory alone.
pub(crate) fn blank_pages(alloc: Global, pages: usize) -> Result<Vec<PageState>, AllocError>
    ensures count { IfOk result (λ made. vec_len made ≡ pages) }
    ensures blank { IfOk result (λ made. (p : ℕ) → seen_at made.items p ≡ of.blank) }
{
    let mut made = Vec::with_capacity(alloc, pages)?;
    for _ in 0..pages {
        made.push_reserved(PageState::blank(alloc));
    }
    Ok(made)
}

/// Notes what an entry does to the page with this number, if there is such a page.
fn note_page(pages: &mut [PageState], page: PageNo, e: &Entry) -> Result<(), AllocError>
    requires there { touches page e.now ≡ true → page < length pages.old }
    ensures count { length pages.new ≡ length pages.old }
    ensures own { OnOk result (seen_at pages.new page ≡
        seen_after page e.now (seen_at pages.old page)) }
    ensures others { (q : ℕ) → q ≢ page → seen_at pages.new q ≡ seen_at pages.old q }
{
    let at = page.number();
    if at < pages.len() as u64 {
        pages[at as usize].note(page, e)?;
    }
    Ok(())
}

/// Notes what an entry does to each page. It fails by want of memory alone.
pub(crate) fn note_pages(pages: &mut [PageState], e: &Entry) -> Result<(), AllocError>
    requires there { (p : ℕ) → touches p e.now ≡ true → p < length pages.old }
    ensures count { length pages.new ≡ length pages.old }
    ensures each { OnOk result ((p : ℕ) →
        seen_at pages.new p ≡ seen_after p e.now (seen_at pages.old p)) }
{
    let page = page_of(&e.call);
    note_page(pages, page, e)?;
    match begun(&e.reply) {
        Some(written_out) => {
            if written_out != page {
                note_page(pages, written_out, e)?;
            }
        }
        None => {}
    }
    Ok(())
}
