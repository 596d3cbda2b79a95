//! Laws of the definitions in `specs/`. Each function does nothing: its contract is the law.
ghost use Rattle.std.specs.Prelude.{◌≡◌, ℕ, ◌<◌, ◌≤◌, nat_lt, List, IsSome, None, length, Contains};
ghost use Rattle.bp_references.specs.Burst.{Reference, Burst, bursts};
ghost use Rattle.bp_references.specs.Cut.{IsCut};
ghost use Rattle.bp_references.specs.Distance.{backward_distance, is_farther};
ghost use Rattle.bp_references.specs.Candidates.{Candidate, find_entry, NoPageTwice};

/// The bursts are the references, cut before each reference that opens a burst and nowhere else: joined again they are
/// the references in their order, each of them begins with a reference that opens a burst and has no other, and there
/// is no other such cut.
pub fn bursts_are_the_cut()
    ensures cut { (correlated : ℕ) (references : List Reference) →
        IsCut correlated references (bursts correlated references) }
    ensures only { (correlated : ℕ) (references : List Reference) (pieces : List Burst) →
        IsCut correlated references pieces → pieces ≡ bursts correlated references }
{}

/// The order by K-th stamps is that by backward K-distances: what has the lesser stamp is farther back, and what has
/// none is farther than all others.
pub fn lesser_stamp_is_farther()
    ensures { (t a b : ℕ) → a ≤ t → b ≤ t → is_farther (backward_distance t a)
        (backward_distance t b) ≡ nat_lt a b }
{}

/// Where the candidates are all among some pages, and one of these pages is no candidate, there are fewer candidates
/// than pages. So a candidate index with a place for each frame has room for one more resident page.
pub fn one_more_has_room()
    ensures { (entries : List Candidate) (pages : List ℕ) (page : ℕ) → NoPageTwice entries →
        ((q : ℕ) → IsSome (find_entry entries q) → Contains pages q) → Contains pages page →
        find_entry entries page ≡ None → length entries < length pages }
{}
