//! `go_on`: judges the entries that come next.
ghost use Rattle.std.specs.Prelude.{◌≡◌, ◌↔◌, ◌+◌, ◌^◌, ◌<◌, ◌++◌, ℕ, None, length, take, reverse, unwrap_or, IfOk, IfSome};
ghost use Rattle.bp_trail.specs.Legal.{Legal};
ghost use Rattle.bp_check.specs.Setups.{with_room};
ghost use Rattle.bp_check.specs.Verdict.{IsFirstUnlawfulAfter};

use crate::judge::Judge;
use bp_trail::Entry;
use std::alloc::{AllocError, Global};

impl Judge {
    /// Judges the entries that come next, oldest first. Returns the place of the first one that is not lawful after
    /// those before it, or `None` where all are lawful, and the judge, which has been told those before that place, or
    /// all. The room of the pool doesn't matter.
    ///
    /// It fails by want of memory alone, and the judge is gone then. An entry takes time in proportion to the frames and
    /// to what is out, and a purge to the pages of the file besides.
    pub fn go_on(self, alloc: Global, piece: &[Entry]) -> Result<(Judge, Option<usize>), AllocError>
        requires few { length self.past + length piece.now < 2 ^ 64 }
        ensures parameters { IfOk result (λ r. r.0.parameters ≡ self.parameters) }
        ensures told { IfOk result (λ r. r.0.past ≡
            reverse (take (unwrap_or r.1 (length piece.now)) piece.now) ++ self.past) }
        ensures legal { IfOk result (λ r. (room : ℕ) → ((r.1 ≡ None) ↔
            Legal (with_room self.parameters room) (reverse piece.now ++ self.past))) }
        ensures first { IfOk result (λ r. (room : ℕ) → IfSome r.1
            (IsFirstUnlawfulAfter (with_room self.parameters room) self.past piece.now)) }
    {
        self.keeps_the_rules();
        let mut judge = self;
        for place in 0..piece.len() {
            let e = &piece[place];
            if !judge.is_lawful(alloc, e)? {
                return Ok((judge, Some(place)));
            }
            let Ok(next) = judge.with(e) else {
                return Err(AllocError);
            };
            judge = next;
        }
        Ok((judge, None))
    }
}
