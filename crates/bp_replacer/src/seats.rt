//! `Candidates`: the pages that may be replaced, each at the seat of its frame, and the victim among them.
ghost use Rattle.std.specs.Prelude.{◌≡◌, ℕ, ◌<◌, IsFalse, Some, None, IfOk, IfSome, IfNone, length, replicate};
ghost use Rattle.bp_references.specs.Candidates.{is_eligible, IsVictim, NoPageTwice};
ghost use Rattle.bp_replacer.specs.Seats.{entered, seat_of, with_seat, seated_in};

use crate::lagging_tree::LaggingTree;
use crate::settings::Settings;
use bp_page::PageNo;
use std::alloc::{AllocError, Global};
use std::marker::Model;

/// The pages that may be replaced, each at a seat of its own, with its K-th stamp and the time of its newest reference.
///
/// A tree of winners stands over the seats, and may lag behind any of them. A page that enters again, and comes later
/// in the order than the one that the tree knows there, stays where it was: so a page that is hit leaves and enters in
/// O(1), with no walk up the tree. `victim` puts such a page in its place where it would come first otherwise, by a
/// walk, or by a pass that does so at all seats at once. So a page takes one walk at most for all its hits since the
/// walk or the pass before.
///
/// Any other page that enters waits in a queue by the time of its newest reference, so that no page that is too young
/// hides the others. `victim` takes out who came of age, each in O(log frames): the first four of them are kept beside
/// the tree, and the others come into it, by a walk each. Where more come of age than 64 and one in 128 of the seats, a
/// pass takes in the rest.
///
/// A walk looks at 16 seats at most, and goes up from there as far as that changes what the tree knows, O(log frames) at
/// most. `leave` takes none, nor does `enter` while the queue has room, but for a page whose newest reference is at the
/// time 0. A pass copies each seat, and computes one node for 16 of them, O(frames). For the seats that the tree lags
/// behind `victim` takes 16 walks and a pass at most where these are one in 16, and else a walk for each. It looks again
/// after each. The root knows the first, where its own page is old enough; else a look goes to O(log frames) nodes and
/// 16 seats for each page in the tree that is too young, and never to a seat or a node twice. The memory is taken once,
/// by `new`: 76 bytes a seat.
#[derive(Drop)]
pub struct Candidates {
    correlated: u64,
    tree: LaggingTree,
}

impl Model for Candidates {
    ghost use Rattle.bp_replacer.specs.Seats.{Seated};

    ghost Value = { Seated };

    ghost view = { λ c. record { correlated = c.correlated; seats = c.tree } };
}

impl Candidates {
    /// Makes as many empty seats as there are frames. It fails by want of memory alone; no other call takes any.
    pub fn new(alloc: Global, frames: usize, settings: Settings) -> Result<Candidates, AllocError>
        ensures { IfOk result (λ c. c ≡ record {
          correlated = settings.correlated;
          seats = replicate
              frames None;
        }) }
    {
        let tree = LaggingTree::new(alloc, frames)?;
        Ok(Candidates {
            correlated: settings.correlated,
            tree,
        })
    }

    /// Enters a page at a seat, with its K-th stamp and the time of its newest reference. Who stood there has left.
    pub fn enter(&mut self, seat: usize, page: PageNo, hist_k: u64, last: u64)
        requires { seat < length self.old.seats }
        ensures { self.new ≡ with_seat self.old seat (Some (hist_k, last, page)) }
    {
        self.tree.put(seat, Some((hist_k, last, page)));
    }

    /// Empties a seat, which may be empty already.
    pub fn leave(&mut self, seat: usize)
        requires { seat < length self.old.seats }
        ensures { self.new ≡ with_seat self.old seat None }
    {
        self.tree.put(seat, None);
    }

    /// Returns the victim at the time `t`: of the pages last referenced more than the correlated period before, the
    /// first by K-th stamp, then by last time, then by page number. `None` where no page was last referenced so long
    /// ago.
    pub fn victim(&mut self, t: u64) -> Option<PageNo>
        requires { NoPageTwice (seated_in self.old.seats) }
        ensures same { self.new ≡ self.old }
        ensures found { IfSome result (λ page. IsVictim (entered self.old) t page) }
        ensures none { IfNone result ((page : ℕ) → IsFalse
            (is_eligible (entered self.old) t page)) }
    {
        let first = self.tree.first_before(t.saturating_sub(self.correlated))?;
        Some(first.2)
    }
}
