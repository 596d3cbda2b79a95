//! Laws that follow from the clauses of a session's calls. The functions do nothing: their contracts are the laws.
ghost use Rattle.std.specs.Prelude.{◌≡◌, ℕ, ◌<◌, ◌++◌, true};
ghost use Rattle.bp_trail.specs.Event.{Grant};
ghost use Rattle.bp_trail.specs.Trail.{Trail};
ghost use Rattle.bp_trail.specs.Parameters.{Parameters};
ghost use Rattle.bp_trail.specs.Passes.{passes_out, pins};
ghost use Rattle.bp_trail.specs.Legal.{is_out, Legal};
ghost use Rattle.bp_session_log.specs.Books.{unfixes};
ghost use Rattle.bp_shared.specs.FlushAll.{FlushedAll, Pool, Reaches};
ghost use Rattle.bp_shared.specs.Posting.{held_by, IsUnfixedBy};
ghost use Rattle.bp_shared.specs.Sessions.{SessionValue};
ghost use Rattle.bp_shared.specs.Telling.{GoesOnFrom, IsListOf, IsToldBy};

/// A page whose pass a client holds is pinned in the trail that the lock has. A pass that the client's list was given
/// and did not give back is out there; so its page has a pin, and does not leave.
pub fn held_pages_are_pinned()
    ensures listed { (start past : Trail) (client : ℕ) (said : Trail)
        → IsListOf start past client said → IsToldBy start past client said
        × IsUnfixedBy start past client (unfixes said) }
    ensures out { (c : Parameters) (start past : Trail) (client : ℕ) (said : Trail) (g : Grant)
        → Legal c past → IsToldBy start past client said →
        IsUnfixedBy start past client (unfixes said) →
        is_out g (held_by said) ≡ true → is_out g (passes_out past) ≡ true }
    ensures pinned { (c : Parameters) (start past : Trail) (client : ℕ) (said : Trail) (g : Grant)
        → Legal c past → IsToldBy start past client said →
        IsUnfixedBy start past client (unfixes said) →
        is_out g (held_by said) ≡ true → 0 < pins past g.page }
{}

/// What a session had told when a trail was noted stands in each later one: all of its list, each unfix in its place, and
/// after it what the client did since. So a checkpoint by a session that saw a receipt is of a trail with all that any
/// session told before it showed itself and the receipt the trail.
pub fn receipts_have_what_was_told()
    ensures { (start noted seen : Trail) (client : ℕ) (said : Trail) →
        IsListOf start noted client said
        → GoesOnFrom noted seen → (later : Trail) × IsListOf start seen client (later ++ said) }
{}

/// A `flush_all` that ended well left out no page: the list has a flush of the page that was answered, or the call
/// looked at the trail, in which the page was not unsaved then.
///
/// What the session saw before the call does not count. Where it flushes nothing and sees nothing new, it reaches a page
/// only if all that it had told until then stood in what it saw.
pub fn flush_all_reaches_each_page()
    ensures each { (o : Pool) (old new : SessionValue) (page : ℕ) → FlushedAll o old new
        → page < o.parameters.pages → Reaches o page old new }
    ensures looks { (o : Pool) (old new : SessionValue) (page : ℕ) → Reaches o page old new
        → new.said ≡ old.said → new.seen ≡ old.seen
        → IsListOf o.start old.seen old.client old.said }
{}
