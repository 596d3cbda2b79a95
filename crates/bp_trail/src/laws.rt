//! Laws of the definitions in `specs/`. Each function does nothing: its contract is the law.
ghost use Rattle.std.specs.Prelude.{◌≡◌, ◌≢◌, ℕ, suc, ◌+◌, ◌<◌, ◌≤◌, ◌==◌, nat_lt, Bool, true, false, IsTrue, IsFalse, Decides, List, [], ◌∷◌, ◌++◌, length, reverse, filter_map, Contains, Option, Some, None, is_some, if◌then◌else◌};
ghost use Rattle.bp_references.specs.Burst.{Burst, last_time};
ghost use Rattle.bp_references.specs.Cut.{IsCut};
ghost use Rattle.bp_references.specs.Distance.{is_farther};
ghost use Rattle.bp_references.specs.Stamp.{burst_at, burst_stamp, IsTimed};
ghost use Rattle.bp_trail.specs.declared.entries.Entry.{Entry};
ghost use Rattle.bp_trail.specs.declared.entries.Call.TheVariants.{Fix, ReadEnd, WriteEnd, Discard};
ghost use Rattle.bp_trail.specs.declared.entries.Reply.TheVariants.{Load, WriteFirst, Fixed, Cleaned};
ghost use Rattle.bp_trail.specs.Parameters.{Parameters};
ghost use Rattle.bp_trail.specs.Lists.{greatest, some, count, after_last, since, EachEntry};
ghost use Rattle.bp_trail.specs.Event.{Grant, ticket_given, pass_back, read_ticket_back, write_ticket_back, ends_well, begins, begins_of, discards, loads, writes, lsn_written, marked};
ghost use Rattle.bp_trail.specs.Trail.{Trail};
ghost use Rattle.bp_trail.specs.Clock.{clock, durable};
ghost use Rattle.bp_trail.specs.Passes.{pass_of, read_ticket_of, write_ticket_of, passes, tickets, passes_out, reads_out, writes_out, is_of, pins};
ghost use Rattle.bp_trail.specs.Places.{residents, resident, loading, writing};
ghost use Rattle.bp_trail.specs.Saved.{settles, unsaved, written_since, page_lsn, first_lsn, IsRedoFrom};
ghost use Rattle.bp_trail.specs.Images.{held, written_into, plain_since, plain_map};
ghost use Rattle.bp_trail.specs.References.{references, forgets, last, hist};
ghost use Rattle.bp_trail.specs.Victim.{backward_distance, candidate, victim};
ghost use Rattle.bp_trail.specs.PageMap.{reply_of};
ghost use Rattle.bp_trail.specs.Legal.{is_out, Legal};
ghost use Rattle.bp_trail.specs.Device.{due, all_known, Honest, HonestOf};
ghost use Rattle.bp_trail.specs.Standing.{Standing, standing};
ghost use Rattle.bp_trail.specs.Cuts.{Precedes, AfterEach, Piece, Chained, joined, ReadsSince};
ghost use Rattle.bp_trail.specs.Clients.{of_client};
ghost use Rattle.bp_trail.specs.Totals.{both, totals_of};
ghost use Rattle.bp_trail.specs.Safety.{EvictsSafely, DiscardsSafely, WritesAreDurable, Safe};
ghost use Rattle.bp_trail.specs.Claims.{HeldIsPlain, ReadsAreKnown, FindsDue, AnswersPlain, SendsPlain};
ghost use Rattle.bp_trail.specs.Wording.{can_answer, FitsItsCall, SaysSo};
ghost use Rattle.bp_trail.specs.Sentences.{Lasts, AreAfterLast, IsGreatest, leaves, IsGivenSince, unended, IsUnended, HasUnended, pass_number, gives_pass, begins_operation, IsNext, IsNew, references_since, IsForgotten, IsCandidate, IsFirst, IsUnsaved, victim_begun, victim_saved};

/// In a legal trail each reply stands with its call: a hit and a load with a fix, a write-out's begin with a fix or
/// with a flush of that page; that a page was discarded, or is pinned, with a discard; a read end is answered with a
/// pass exactly where it brought an image, and else that the read failed or that it found another page; a write end is
/// good exactly where the write was. The table `can_answer` has all replies. So each definition on one entry says of its
/// call and its reply what its name says.
pub fn words_on_entries()
    ensures replies { (c : Parameters) (past : Trail) → Legal c past →
        EachEntry (λ before e. FitsItsCall e) past }
    ensures table { (c : Parameters) (past : Trail) → Legal c past →
        EachEntry (λ before e. IsTrue (can_answer e.call e.reply)) past }
    ensures words { (c : Parameters) (past : Trail) → Legal c past →
        EachEntry (λ before e. SaysSo e) past }
{}

/// The definitions that look back over a trail: `since` is that some entry passes one test and no later entry another;
/// `after_last` is all that came after the last entry that passes; `greatest` is the greatest of some numbers, or 0.
pub fn words_on_trails()
    ensures since { (start stop : Entry → Bool) (past : Trail) →
        Decides (since start stop past) (Lasts start stop past) }
    ensures after_last { (p : Entry → Bool) (past newest : Trail) → AreAfterLast p past newest →
        newest ≡ after_last p past }
    ensures some_after_last { (p : Entry → Bool) (past : Trail) →
        AreAfterLast p past (after_last p past) }
    ensures greatest { (numbers : List ℕ) → IsGreatest numbers (greatest numbers) }
{}

/// A pass or ticket is out in a legal trail exactly where it was given so, to this client and for this page, and no
/// entry of the trail gives it back: a pass by an unfix, a read ticket by a read end, a write ticket by a write end.
/// The pins of a page are the passes of it that are out; it is loading, or being written out, where such a ticket of
/// it is out.
pub fn out_is_given_and_not_ended()
    ensures passes { (c : Parameters) (past : Trail) (g : Grant) → Legal c past →
        Decides (is_out g (passes_out past)) (IsUnended pass_of (λ e. pass_back e.call) past g) }
    ensures reads { (c : Parameters) (past : Trail) (g : Grant) → Legal c past →
        Decides (is_out g (reads_out past)) (IsUnended read_ticket_of
        (λ e. read_ticket_back e.call) past g) }
    ensures writes { (c : Parameters) (past : Trail) (g : Grant) → Legal c past →
        Decides (is_out g (writes_out past)) (IsUnended write_ticket_of
        (λ e. write_ticket_back e.call) past g) }
    ensures list { (c : Parameters) (past : Trail) → Legal c past →
        passes_out past ≡ unended pass_of (λ e. pass_back e.call) past }
    ensures pins { (c : Parameters) (past : Trail) (p : ℕ) → Legal c past →
        pins past p ≡ count (is_of p) (unended pass_of (λ e. pass_back e.call) past) }
    ensures loading { (c : Parameters) (past : Trail) (p : ℕ) → Legal c past →
        Decides (loading past p) (HasUnended read_ticket_of (λ e. read_ticket_back e.call) past p) }
    ensures writing { (c : Parameters) (past : Trail) (p : ℕ) → Legal c past →
        Decides (writing past p) (HasUnended write_ticket_of
        (λ e. write_ticket_back e.call) past p) }
{}

/// After any entries, legal or not, a pass or ticket is out exactly where some entry gives it, to this client and for
/// this page, and no later entry gives it back.
pub fn out_is_given_and_not_ended_since()
    ensures passes { (past : Trail) (g : Grant) → Decides (is_out g (passes_out past))
        (IsGivenSince pass_of (λ e. pass_back e.call) past g) }
    ensures reads { (past : Trail) (g : Grant) → Decides (is_out g (reads_out past))
        (IsGivenSince read_ticket_of (λ e. read_ticket_back e.call) past g) }
    ensures writes { (past : Trail) (g : Grant) → Decides (is_out g (writes_out past))
        (IsGivenSince write_ticket_of (λ e. write_ticket_back e.call) past g) }
{}

/// A page is resident exactly where a read of it ended well and it left its frame by no later entry: none evicts it or
/// discards it.
pub fn resident_was_read_and_did_not_leave()
    ensures { (past : Trail) (p : ℕ) → Decides (resident past p) (Lasts (loads p) (leaves p) past) }
{}

/// `passes` and `tickets` count the replies that give one, over any entries. In a legal trail they are the next serial
/// numbers, so that none is given twice.
pub fn serials_count_the_replies()
    ensures passes { (past : Trail) → passes past ≡ count gives_pass past }
    ensures tickets { (past : Trail) → tickets past ≡ count (λ e. begins_operation e.reply) past }
    ensures next_pass { (c : Parameters) (past : Trail) → Legal c past →
        EachEntry (IsNext (λ e. pass_number e.reply) passes) past }
    ensures next_ticket { (c : Parameters) (past : Trail) → Legal c past →
        EachEntry (IsNext (λ e. ticket_given e.reply) tickets) past }
    ensures new_pass { (c : Parameters) (past : Trail) → Legal c past →
        EachEntry (IsNew (λ e. pass_number e.reply)) past }
    ensures new_ticket { (c : Parameters) (past : Trail) → Legal c past →
        EachEntry (IsNew (λ e. ticket_given e.reply)) past }
{}

/// The references of a page are its hits and good read ends, each with the clock at it, after the page was last
/// forgotten: by a discard of it, which was answered that it left its frame or is in none, or by a purge. A resident
/// page has some, and only pages in range have any. A purge forgets a page exactly where it has references, is neither
/// resident nor loading, and its LAST lies more than the retained period back. Their times never fall and never pass the
/// clock.
pub fn references_since_the_last_forgetting()
    ensures references { (c : Parameters) (past : Trail) (p : ℕ) → Legal c past →
        references c past p ≡ references_since c past p }
    ensures known { (c : Parameters) (past : Trail) (p : ℕ) → Legal c past →
        resident past p ≡ true → references c past p ≢ [] }
    ensures in_range { (c : Parameters) (past : Trail) (p : ℕ) → Legal c past →
        references c past p ≢ [] → p < c.pages }
    ensures forgets { (c : Parameters) (past : Trail) (p : ℕ) →
        Decides (forgets c past p (references c past p)) (IsForgotten c past p) }
    ensures timed { (c : Parameters) (past : Trail) (p : ℕ) → IsTimed (references c past p) }
    ensures by_now { (c : Parameters) (past : Trail) (p : ℕ) → last c past p ≤ clock past }
{}

/// The stamps and LAST of a page are those of its references, however these are cut into bursts (by the law of
/// `bp_references`, there is one such cut).
pub fn stamps_are_of_the_bursts()
    ensures stamps { (c : Parameters) (past : Trail) (p place : ℕ) (pieces : List Burst) →
        IsCut c.correlated (references c past p) pieces →
        hist c past p (suc place) ≡ (if nat_lt place c.k then burst_stamp pieces place else 0) }
    ensures last { (c : Parameters) (past : Trail) (p : ℕ) (pieces : List Burst) →
        IsCut c.correlated (references c past p) pieces →
        last c past p ≡ last_time (burst_at pieces 0) }
{}

/// The victim is the candidate that comes before every other one by (HIST(K), LAST, page), so that no candidate is
/// farther by its backward K-distance; there is none only where there is no candidate. A candidate is resident, has
/// no pins, is not being written out, and its LAST lies more than the correlated period back.
pub fn victim_is_the_first_candidate()
    ensures candidate { (c : Parameters) (past : Trail) (p : ℕ) →
        Decides (candidate c past p) (IsCandidate c past p) }
    ensures found { (c : Parameters) (past : Trail) (v : ℕ) → victim c past ≡ Some v →
        IsFirst c past v }
    ensures only { (c : Parameters) (past : Trail) (v : ℕ) → IsFirst c past v →
        victim c past ≡ Some v }
    ensures none_farther { (c : Parameters) (past : Trail) (v q : ℕ) → victim c past ≡ Some v →
        IsCandidate c past q → is_farther (backward_distance c past q)
        (backward_distance c past v) ≡ false }
    ensures none { (c : Parameters) (past : Trail) (q : ℕ) → victim c past ≡ None →
        IsCandidate c past q → ⊥ }
    ensures no_candidate { (c : Parameters) (past : Trail) → ((q : ℕ) → IsCandidate c past q → ⊥) →
        victim c past ≡ None }
{}

/// Where a fix has its victim written out and nobody else acts, a good end is answered with `Cleaned`, and the same fix
/// made again with a load into the victim's frame.
pub fn saved_victim_leaves_at_the_next_fix()
    ensures ends { (c : Parameters) (past : Trail) (client t p v : ℕ) (image : List ℕ) →
        reply_of c (victim_begun client p t v image past) (WriteEnd t v true) ≡ Cleaned }
    ensures loads { (c : Parameters) (past : Trail) (client t p v : ℕ) (image : List ℕ) →
        Legal c past → WriteFirst t v image ≡ reply_of c past (Fix p) →
        let saved = victim_saved client p t v image past in
        reply_of c saved (Fix p) ≡ Load (tickets saved) (Some v) }
{}

/// A page is unsaved exactly where some write of it has no good write-out of it that began after it, and no discard of
/// it after it. Its page LSN is the greatest LSN of its writes after its last good read end, or 0; the durable mark the
/// greatest LSN marked, or 0. It was written since a write-out began where some write of it came after that.
pub fn unsaved_since_the_last_good_write_out()
    ensures unsaved { (past : Trail) (p : ℕ) → Decides (unsaved past p) (IsUnsaved past p) }
    ensures page_lsn { (past newest : Trail) (p : ℕ) → AreAfterLast (loads p) past newest →
        IsGreatest (filter_map (lsn_written p) newest) (page_lsn past p) }
    ensures written_since { (past newest : Trail) (t p : ℕ) →
        AreAfterLast (λ e. begins t e.reply) past newest →
        written_since past t p ≡ some (writes p) newest }
    ensures durable { (past : Trail) → IsGreatest (filter_map (λ e. marked e.call) past)
        (durable past) }
{}

/// Redo has to begin where the least LSN of the unsaved writes is: no page has one where each is saved, no unsaved
/// write has a lesser one, and neither the good end of a write-out nor a discard lowers it.
pub fn redo_begins_at_the_least_unsaved_lsn()
    ensures unsaved { (past : Trail) (p : ℕ) → is_some (first_lsn past p) ≡ unsaved past p }
    ensures none { (past : Trail) → ((p : ℕ) → IsFalse (unsaved past p)) → IsRedoFrom past None }
    ensures covers { (past later earlier : Trail) (e : Entry) (p n lsn : ℕ) →
        past ≡ later ++ e ∷ earlier → lsn_written p e ≡ Some n →
        IsFalse (some (settles past p) later) → IsRedoFrom past (Some lsn) → lsn ≤ n }
    ensures rises { (c : Parameters) (past : Trail) (e : Entry) (t p a b : ℕ) →
        Legal c (e ∷ past) → e.call ≡ WriteEnd t p true → IsRedoFrom past (Some a) →
        IsRedoFrom (e ∷ past) (Some b) → a ≤ b }
    ensures rises_by_discard { (c : Parameters) (past : Trail) (e : Entry) (p a b : ℕ) →
        Legal c (e ∷ past) → e.call ≡ Discard p → IsRedoFrom past (Some a) →
        IsRedoFrom (e ∷ past) (Some b) → a ≤ b }
{}

/// A page's held image is that of its last good read end, with the page's later writes applied in order. A resident
/// page has such a read end, and an image of the page size.
pub fn held_is_the_last_read_with_later_writes()
    ensures there { (past : Trail) (p : ℕ) → resident past p ≡ true →
        Lasts (loads p) (loads p) past }
    ensures size { (c : Parameters) (past : Trail) (p : ℕ) → Legal c past → resident past p ≡ true →
        length (held past p) ≡ c.size }
    ensures image { (later earlier : Trail) (e : Entry) (t p n : ℕ) (image : List ℕ) →
        e.call ≡ ReadEnd t p (Some image) → e.reply ≡ Fixed n → IsFalse (some (loads p) later) →
        held (later ++ e ∷ earlier) p ≡ written_into (λ q. image) later p }
{}

/// What a read is due to give: the opening image where no write-out of the page has begun; else the image of the last
/// one begun, which is known once that one has ended well.
pub fn due_is_the_last_write_out()
    ensures opening { (m : ℕ → List ℕ) (past : Trail) (p : ℕ) →
        IsFalse (some (λ e. begins_of p e.reply) past) → due m past p ≡ Some (m p) }
    ensures begun { (m : ℕ → List ℕ) (past later earlier : Trail) (e : Entry) (t p : ℕ)
        (image : List ℕ) → past ≡ later ++ e ∷ earlier → e.reply ≡ WriteFirst t p image →
        IsFalse (some (λ d. begins_of p d.reply) later) →
        due m past p ≡ (if some (λ d. ends_well t d.call) past then Some image else None) }
{}

/// After every legal trail a page stands at most once among the residents, and one that is loading is not among them;
/// a pinned page and an unsaved page are resident; pages resident and loading are in range, and at most as many as
/// frames.
pub fn pages_have_one_place()
    ensures once { (c : Parameters) (past : Trail) (p : ℕ) → Legal c past →
        count (λ q. q == p) (residents past) ≤ 1 }
    ensures loading_is_away { (c : Parameters) (past : Trail) (p : ℕ) → Legal c past →
        loading past p ≡ true → resident past p ≡ false }
    ensures pinned_is_here { (c : Parameters) (past : Trail) (p : ℕ) → Legal c past →
        0 < pins past p → resident past p ≡ true }
    ensures unsaved_is_here { (c : Parameters) (past : Trail) (p : ℕ) → Legal c past →
        unsaved past p ≡ true → resident past p ≡ true }
    ensures resident_in_range { (c : Parameters) (past : Trail) (p : ℕ) → Legal c past →
        resident past p ≡ true → p < c.pages }
    ensures loading_in_range { (c : Parameters) (past : Trail) (p : ℕ) → Legal c past →
        loading past p ≡ true → p < c.pages }
    ensures within_frames { (c : Parameters) (past : Trail) → Legal c past →
        length (residents past) + length (reads_out past) ≤ c.frames }
{}

/// After every legal trail a page has at most one operation on the device out, a read or a write; what is being written
/// out is unsaved.
pub fn one_device_operation_a_page()
    ensures one { (c : Parameters) (past : Trail) (p : ℕ) → Legal c past →
        count (is_of p) (reads_out past) + count (is_of p) (writes_out past) ≤ 1 }
    ensures writing_is_unsaved { (c : Parameters) (past : Trail) (p : ℕ) → Legal c past →
        writing past p ≡ true → unsaved past p ≡ true }
{}

/// After every legal trail the passes and tickets that are out have serial numbers below the next ones, and each number
/// is out at most once.
pub fn serials_out_were_given()
    ensures passes { (c : Parameters) (past : Trail) (g : Grant) → Legal c past →
        Contains (passes_out past) g → g.serial < passes past }
    ensures reads { (c : Parameters) (past : Trail) (g : Grant) → Legal c past →
        Contains (reads_out past) g → g.serial < tickets past }
    ensures writes { (c : Parameters) (past : Trail) (g : Grant) → Legal c past →
        Contains (writes_out past) g → g.serial < tickets past }
    ensures passes_once { (c : Parameters) (past : Trail) (n : ℕ) → Legal c past →
        count (λ g. g.serial == n) (passes_out past) ≤ 1 }
    ensures reads_once { (c : Parameters) (past : Trail) (n : ℕ) → Legal c past →
        count (λ g. g.serial == n) (reads_out past) ≤ 1 }
    ensures writes_once { (c : Parameters) (past : Trail) (n : ℕ) → Legal c past →
        count (λ g. g.serial == n) (writes_out past) ≤ 1 }
{}

/// In every legal trail the image that the device is due to give is known at each read end, and so it is for each read
/// that is out, but of a page that was discarded since its last write-out began: that write-out may have failed.
pub fn read_ends_find_what_is_due()
    ensures each { (c : Parameters) (past : Trail) → Legal c past → EachEntry FindsDue past }
    ensures out { (c : Parameters) (past : Trail) → Legal c past → ReadsAreKnown past }
{}

/// The plain map of a page that was never discarded is its opening image with its writes. At a discard it goes back to
/// what the device is due to give, where that is known. So what was written since the page last went out is lost, and
/// nothing else is.
pub fn plain_map_has_the_writes_since_a_discard()
    ensures writes { (c : Parameters) (m : ℕ → List ℕ) (past : Trail) (p : ℕ) → Legal c past →
        IsFalse (some (discards p) past) → plain_map m past p ≡ written_into m past p }
    ensures discarded { (m : ℕ → List ℕ) (past : Trail) (e : Entry) (p : ℕ) (image : List ℕ) →
        IsTrue (discards p e) → due m past p ≡ Some image → plain_map m (e ∷ past) p ≡ image }
    ensures since { (c : Parameters) (m : ℕ → List ℕ) (later earlier : Trail) (e : Entry) (p : ℕ)
        (image : List ℕ) → Legal c (later ++ e ∷ earlier) → IsTrue (discards p e) →
        IsFalse (some (discards p) later) → due m earlier p ≡ Some image →
        plain_map m (later ++ e ∷ earlier) p ≡ written_into (λ q. image) later p }
{}

/// If the device gave back what was written to a page, whatever was in it at the opening: after every legal trail the
/// page, if it is resident, holds the image of the plain map, and each content of it that was answered and each image
/// of it that went out is the plain map's at that place. What the device gave of other pages is no matter. A device
/// that gave back what was written did so of each page.
pub fn pages_hold_the_plain_map()
    ensures held { (c : Parameters) (past : Trail) → Legal c past → HeldIsPlain past }
    ensures content { (c : Parameters) (past : Trail) → Legal c past → EachEntry AnswersPlain past }
    ensures sent { (c : Parameters) (past : Trail) → Legal c past → EachEntry SendsPlain past }
    ensures each_page { (m : ℕ → List ℕ) (p : ℕ) (past : Trail) → Honest m past →
        HonestOf m p past }
{}

/// At each eviction of a legal trail the page is the victim, a candidate that comes before every other and that none
/// is farther than by its backward K-distance; it has no pins and is not unsaved. A page that is written out first
/// for a fix is the victim too.
pub fn evictions_are_safe()
    ensures safe { (c : Parameters) (past : Trail) → Legal c past →
        EachEntry (EvictsSafely c) past }
    ensures first { (c : Parameters) (past : Trail) → Legal c past →
        EachEntry (λ before e. (t v : ℕ) → e.reply ≡ Load t (Some v) → IsFirst c before v) past }
    ensures farthest { (c : Parameters) (past : Trail) → Legal c past →
        EachEntry (λ before e. (t v q : ℕ) → e.reply ≡ Load t (Some v) → IsCandidate c before q →
        is_farther (backward_distance c before q) (backward_distance c before v) ≡ false) past }
    ensures written_first { (c : Parameters) (past : Trail) → Legal c past →
        EachEntry (λ before e. (t v p : ℕ) (image : List ℕ) → e.call ≡ Fix p →
        e.reply ≡ WriteFirst t v image → IsFirst c before v) past }
{}

/// A page that is discarded in a legal trail has no passes out, is not loading and is not being written out.
pub fn discards_are_safe()
    ensures { (c : Parameters) (past : Trail) → Legal c past → EachEntry DiscardsSafely past }
{}

/// At each begin of a write-out in a legal trail every earlier write of that page since its last discard has an LSN of
/// at most the durable mark.
pub fn write_outs_stay_behind_the_log()
    ensures { (c : Parameters) (past : Trail) → Legal c past → EachEntry WritesAreDurable past }
{}

/// Every legal trail is safe: at each eviction, at each discard and at each begin of a write-out, as the three laws
/// above say.
pub fn legal_trails_are_safe()
    ensures { (c : Parameters) (past : Trail) → Legal c past → Safe c past }
{}

/// A standing decides what may come. Trails that may follow one history may follow each legal one of the same standing,
/// and lead to the same standing. A legal trail has the standing of no entries where its clock is 1, nothing is
/// durable, and no pass or ticket was given.
pub fn standings_decide_what_may_come()
    ensures follows { (c : Parameters) (trail h k : Trail) → Legal c (trail ++ h) → Legal c k →
        standing c h ≡ standing c k → Precedes c (standing c (trail ++ h)) (trail ++ k) }
    ensures nowhere { (c : Parameters) (past : Trail) → Legal c past → clock past ≡ 1 →
        durable past ≡ 0 → passes past ≡ 0 → tickets past ≡ 0 → standing c past ≡ standing c [] }
{}

/// Pieces of a trail, each of which opens where the one before it led, are one legal trail when they are joined. Over
/// a device that was honest of a page since, the reads of it in a piece answer by each plain map that begins with the
/// image held at its opening. Of a page that was not discarded in the piece, that is this image with its writes since.
pub fn pieces_are_one_legal_trail()
    ensures joined { (c : Parameters) (pieces : List Piece) (next : Standing) →
        Chained c pieces next → Precedes c next (joined pieces) }
    ensures reads { (c : Parameters) (opening : Standing) (trail : Trail) →
        AfterEach c opening trail (Legal c) → ReadsSince c opening trail }
    ensures writes { (c : Parameters) (m : ℕ → List ℕ) (trail h : Trail) (p : ℕ) →
        Legal c (trail ++ h) → IsFalse (some (discards p) trail) →
        plain_since m (all_known m) trail p ≡ written_into m trail p }
{}

/// The entries of one client in a reversed list are the reverse of those in the list.
pub fn one_client_in_either_order()
    ensures { (client : ℕ) (entries : List Entry) → of_client client (reverse entries) ≡ reverse
        (of_client client entries) }
{}

/// The totals of two lists, one after the other, are those of each together: so the pieces of a trail that was cut have
/// the totals of the whole.
pub fn pieces_add_up()
    ensures { (first later : List Entry) → totals_of (first ++ later) ≡ both (totals_of first)
        (totals_of later) }
{}
