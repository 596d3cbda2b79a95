//! `Residents`: the resident pages.
ghost use Rattle.std.specs.Prelude.{◌≡◌, ℕ, ◌<◌, ◌==◌, [], length, slice_index_or, OnOk};
ghost use Rattle.bp_trail.specs.Lists.{some, and_given, without};

use bp_page::PageNo;
use std::alloc::{AllocError, Global};
use std::marker::Model;

/// The resident pages, the last loaded last.
#[derive(Drop)]
pub(crate) struct Residents {
    pages: Vec<PageNo>,
}

impl Model for Residents {
    ghost use Rattle.std.specs.Prelude.{List, ℕ, reverse};

    ghost Value = { List ℕ };

    ghost view = { λ r. reverse r.pages.items };
}

impl Residents {
    pub(crate) fn new(alloc: Global) -> Residents
        ensures { result ≡ [] }
    {
        Residents {
            pages: Vec::new(alloc),
        }
    }

    pub(crate) fn len(&self) -> usize
        ensures { result ≡ length self.now }
    {
        self.pages.len()
    }

    /// The page at a place, where the last loaded has place 0.
    pub(crate) fn at(&self, place: usize) -> PageNo
        requires { place < length self.now }
        ensures { result ≡ slice_index_or self.now place 0 }
    {
        self.pages[self.pages.len() - 1 - place]
    }

    pub(crate) fn has(&self, page: PageNo) -> bool
        ensures { result ≡ some (λ q. q == page) self.now }
    {
        for resident in &self.pages {
            if *resident == page {
                return true;
            }
        }
        false
    }

    /// Removes the page that leaves, and then adds the one that is loaded, each where it is there. It fails by want of
    /// memory alone.
    pub(crate) fn pass_on(
        &mut self,
        leaves: Option<PageNo>,
        loaded: Option<PageNo>,
    ) -> Result<(), AllocError>
        ensures { OnOk result (self.new ≡
            and_given loaded (without (λ (q : ℕ). q) leaves self.old)) }
    {
        if let Some(page) = leaves {
            self.pages.retain(|resident| *resident != page);
        }
        if let Some(page) = loaded {
            self.pages.push(page)?;
        }
        Ok(())
    }
}
