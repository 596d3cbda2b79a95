//! `first_unlawful`: judges whether a list of entries is a legal trail.
ghost use Rattle.std.specs.Prelude.{◌≡◌, ◌↔◌, ℕ, None, reverse, IfOk, IfSome};
ghost use Rattle.bp_trail.specs.Legal.{Legal};
ghost use Rattle.bp_check.specs.Setups.{parameters_of};
ghost use Rattle.bp_check.specs.Verdict.{IsFirstUnlawful};

use crate::judge::Judge;
use crate::setup::Setup;
use bp_trail::Entry;
use std::alloc::{AllocError, Global};

/// Returns the place of the first entry that is not lawful after those before it, or `None` where the entries are a
/// legal trail. They are oldest first, from the first entry of a pool on. The room of that pool doesn't matter.
///
/// It fails by want of memory alone. Time and memory are those of a [`Judge`] that is told the list.
pub fn first_unlawful(
    alloc: Global,
    setup: &Setup,
    trail: &[Entry],
) -> Result<Option<usize>, AllocError>
    ensures legal { IfOk result (λ place. (room : ℕ) →
        ((place ≡ None) ↔ Legal (parameters_of setup.now room) (reverse trail.now))) }
    ensures first { IfOk result (λ place. (room : ℕ) →
        IfSome place (IsFirstUnlawful (parameters_of setup.now room) trail.now)) }
{
    let Ok(judge) = Judge::new(alloc, setup) else {
        return Err(AllocError);
    };
    match judge.go_on(alloc, trail) {
        Ok((judge, place)) => {
            drop(judge);
            Ok(place)
        }
        Err(AllocError) => Err(AllocError),
    }
}
