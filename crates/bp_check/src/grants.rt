//! `Grants`: the passes, or the tickets of one kind, that are out.
ghost use Rattle.std.specs.Prelude.{◌≡◌, [], length, OnOk};
ghost use Rattle.bp_trail.specs.Event as event;
ghost use Rattle.bp_trail.specs.Event.{grant};
ghost use Rattle.bp_trail.specs.Lists.{some, count};
ghost use Rattle.bp_trail.specs.Legal.{is_out};
ghost use Rattle.bp_trail.specs.Passes.{is_of};
ghost use Rattle.bp_check.specs.Seen.{passed_on};

use bp_page::PageNo;
use bp_trail::Grant;
use std::alloc::{AllocError, Global};
use std::marker::Model;

/// The grants of one kind that are out, the newest last.
#[derive(Drop)]
pub(crate) struct Grants {
    out: Vec<Grant>,
}

impl Model for Grants {
    ghost use Rattle.std.specs.Prelude.{List, reverse};
    ghost use Rattle.bp_trail.specs.Event.{Grant as AGrant};

    ghost Value = { List AGrant };

    ghost view = { λ g. reverse g.out.items };
}

/// Returns true if both are the same: by client, page and serial number.
fn same_grant(a: &Grant, b: &Grant) -> bool
    ensures { result ≡ event.same_grant a.now b.now }
{
    a.client == b.client && a.page == b.page && a.serial == b.serial
}

impl Grants {
    pub(crate) fn new(alloc: Global) -> Grants
        ensures { result ≡ [] }
    {
        Grants {
            out: Vec::new(alloc),
        }
    }

    pub(crate) fn len(&self) -> usize
        ensures { result ≡ length self.now }
    {
        self.out.len()
    }

    pub(crate) fn has(&self, client: u8, page: PageNo, serial: u64) -> bool
        ensures { result ≡ is_out (grant client page serial) self.now }
    {
        let wanted = Grant {
            client,
            page,
            serial,
        };
        for given in &self.out {
            if same_grant(&wanted, given) {
                return true;
            }
        }
        false
    }

    /// Returns true if some grant of the page is out.
    pub(crate) fn has_of(&self, page: PageNo) -> bool
        ensures { result ≡ some (is_of page) self.now }
    {
        for given in &self.out {
            if given.page == page {
                return true;
            }
        }
        false
    }

    /// Returns the number of grants of the page that are out.
    pub(crate) fn count_of(&self, page: PageNo) -> usize
        ensures { result ≡ count (is_of page) self.now }
    {
        let mut count = 0;
        for given in &self.out {
            if given.page == page {
                count += 1;
            }
        }
        count
    }

    /// Removes the grant with the number `ends`, and then adds the grant `gives`, each where it is there. It fails by
    /// want of memory alone.
    pub(crate) fn pass_on(
        &mut self,
        ends: Option<u64>,
        gives: Option<Grant>,
    ) -> Result<(), AllocError>
        ensures { OnOk result (self.new ≡ passed_on gives ends self.old) }
    {
        if let Some(serial) = ends {
            self.out.retain(|given| given.serial != serial);
        }
        if let Some(given) = gives {
            self.out.push(given)?;
        }
        Ok(())
    }
}
