//! Laws of a crash: what redo makes of the images that the device then has. Each function does nothing: its contract is
//! the law.
ghost use Rattle.std.specs.Prelude.{◌≡◌, ◌≤◌, ◌+◌, max, ◌↔◌, ℕ, Bool, true, List, ◌++◌, length, Contains, Option, IsTrue, IsFalse, nat_lt, nat_le};
ghost use Rattle.bp_trail.specs.declared.entries.Entry.{Entry};
ghost use Rattle.bp_trail.specs.declared.records.LogRecord.{LogRecord};
ghost use Rattle.bp_trail.specs.Lists.{some, every};
ghost use Rattle.bp_trail.specs.Parameters.{Parameters};
ghost use Rattle.bp_trail.specs.Trail.{Trail};
ghost use Rattle.bp_trail.specs.Event.{discards, lsn_of};
ghost use Rattle.bp_trail.specs.Clock.{durable};
ghost use Rattle.bp_trail.specs.Places.{resident};
ghost use Rattle.bp_trail.specs.Saved.{IsRedoFrom};
ghost use Rattle.bp_trail.specs.Images.{held, written_into, plain_map};
ghost use Rattle.bp_trail.specs.Legal.{Legal};
ghost use Rattle.bp_trail.specs.Device.{HonestOf};
ghost use Rattle.bp_trail.specs.Standing.{Content};
ghost use Rattle.bp_trail.specs.Recovery.{NeverFall, Rise, AllFit, HasFullImage, MayHave, MayHaveStamped, UsedAgain, GaveBack, ReadBeyond, TellsNew, Stopped, IsRedoPoint, WritesFrom, records, records_from, within, patch, put, redo, redo_by_lsn, AppliesAlike, apply_all, MakesAnew, PutsIn, redo_with_full_images, Recovers, LogHas, redo_point};

/// Wherever a pool is stopped, redo recovers each page. Take whichever image of the page the device then has, of those
/// that went out whole or the first one, and put the records of the log into it in order, from the redo point on. The
/// page is then what the whole log makes of the image that it had at first. That is the writes within the log, put into
/// that image, and after these any records whose write never came to be. So what the log has is there, and nothing else.
/// It is the plain map, where each write is within the log.
///
/// A page that was discarded is recovered once it is used again: from the first write after it that gives all of its
/// bytes.
///
/// The LSNs of the page's records may not fall. Redo of the whole log, from 0 on, takes them in any order, and whatever
/// was synced. The log may be redone piece by piece, the oldest first.
pub fn redo_recovers_each_page()
    ensures recovered { (c : Parameters) (first : ℕ → List ℕ) (synced past : Trail)
        (log : List LogRecord) (start from end p : ℕ) (image : List ℕ) →
        Stopped c first synced past log start from end p → NeverFall (records_from start log p) →
        MayHave first synced past p image → redo from log p image ≡ redo start log p (first p) }
    ensures plain { (c : Parameters) (first : ℕ → List ℕ) (synced past : Trail)
        (log : List LogRecord) (start from end p : ℕ) (image : List ℕ)
        (s : Stopped c first synced past log start from end p) →
        NeverFall (records_from start log p) → MayHave first synced past p image →
        redo from log p image ≡ put s.has.unwritten (written_into first (within end past) p) }
    ensures whole { (c : Parameters) (first : ℕ → List ℕ) (synced past : Trail)
        (log : List LogRecord)
        (end p : ℕ) (image : List ℕ) → Legal c past → GaveBack c.size first end past p → durable past ≤ end →
        records_from 0 log p ≡ records p (within end past) → MayHave first synced past p image →
        redo 0 log p image ≡ written_into first (within end past) p }
    ensures in_pieces { (newer older : List LogRecord) (from p : ℕ) (image : List ℕ) →
        redo from (newer ++ older) p image ≡ redo from newer p (redo from older p image) }
    ensures plain_map { (c : Parameters) (first : ℕ → List ℕ) (past : Trail) (end p : ℕ) →
        Legal c past → GaveBack c.size first end past p →
        plain_map first past p ≡ written_into first past p }
    ensures within { (end : ℕ) (past : Trail) (e : Entry) →
        Contains (within end past) e ↔ (Contains past e × (lsn_of e.call ≤ end)) }
{}

/// A page may be used again though the device still has old bytes of it, under an old LSN, and though no read brought
/// these: the pool was told that it has zeros. If its first record then has all of its bytes, and the log reaches that
/// record, redo recovers the page from whatever image the device has. Only the reads of that page since then have to
/// bring what was written. While it is resident it holds the plain map's image.
///
/// If the log does not reach that record, redo recovers the page as it was before it was used again, unless it was
/// discarded before that: of it nothing went out since.
pub fn redo_recovers_pages_used_again()
    ensures recovered { (c : Parameters) (first : ℕ → List ℕ) (synced past : Trail)
        (log : List LogRecord) (start from end p : ℕ) (image : List ℕ) → Legal c past →
        UsedAgain c.size first end past p → durable past ≤ end →
        (h : LogHas log start from end past p) → start ≤ from → IsRedoPoint from synced past p →
        NeverFall (records_from start log p) → MayHave first synced past p image →
        redo from log p image ≡ put h.unwritten (written_into first (within end past) p) }
    ensures unlogged { (c : Parameters) (first : ℕ → List ℕ) (synced past : Trail)
        (log : List LogRecord) (start from end p : ℕ) (image : List ℕ) → Legal c past →
        durable past ≤ end → (r : ReadBeyond end past p) → GaveBack c.size first end r.earlier p →
        (h : LogHas log start from end past p) → start ≤ from → IsRedoPoint from synced past p →
        NeverFall (records_from start log p) → MayHave first synced past p image →
        redo from log p image ≡ put h.unwritten (written_into first (within end past) p) }
    ensures held { (c : Parameters) (first : ℕ → List ℕ) (past : Trail) (end p : ℕ) → Legal c past →
        UsedAgain c.size first end past p → resident past p ≡ true →
        held past p ≡ plain_map first past p }
{}

/// A second pool begins with what the device has after a crash, and a client writes to it the records that redo wants
/// of a page, which it does not discard. Once the page is resident it has what the writes within the log of the first
/// run made of it, and what was written since.
pub fn redone_pages_hold_the_plain_map()
    ensures { (c d : Parameters) (first second : ℕ → List ℕ) (synced past again : Trail)
        (log newer : List LogRecord) (start from end p : ℕ)
        (s : Stopped c first synced past log start from end p) →
        NeverFall (records_from start log p) → MayHave first synced past p (second p) →
        Legal d again → HonestOf second p again → IsFalse (some (discards p) again) →
        records p again ≡ newer ++ records_from from log p → resident again p ≡ true →
        held again p ≡ put newer (put s.has.unwritten (written_into first (within end past) p)) }
{}

/// Redo by page LSN recovers each page too. It applies a record only if its LSN is above the page LSN that the device
/// has with the image: the one at the begin of the write-out. The LSNs of the page's records rise, and are above the
/// page LSN at first. A record may tell in any way what its write did, as by what it added, since it is applied to the
/// page as its write found it. The first record of a page that is used again says that the page is new. Records that
/// tell bytes need not say so (clause `bytes`). With them this is redo from the LSN after that of the page, or from the
/// redo point if that is later.
///
/// The page LSN is that of the image: of an image that went out whole, or the first one. A page that may be torn wants
/// `full_images_recover_torn_pages`.
pub fn redo_by_page_lsn_recovers_each_page()
    ensures recovered { (apply : LogRecord → List ℕ → List ℕ) (c : Parameters) (first : ℕ → Content)
        (synced past : Trail) (log : List LogRecord) (start from end p : ℕ) (x : Content)
        (s : Stopped c (λ q. (first q).image) synced past log start from end p) →
        Rise (records_from start log p) → IsTrue (every (λ r. nat_lt (first p).page_lsn r.lsn)
        (records_from start log p)) → AppliesAlike apply (records_from start log p) (first p).image →
        TellsNew apply s.gave_back → MayHaveStamped first synced past p x →
        (redo_by_lsn apply from log p x).image ≡ redo start log p (first p).image }
    ensures bytes { (c : Parameters) (first : ℕ → Content) (synced past : Trail)
        (log : List LogRecord) (start from end p : ℕ) (x : Content) →
        Stopped c (λ q. (first q).image) synced past log start from end p →
        Rise (records_from start log p) → IsTrue (every (λ r. nat_lt (first p).page_lsn r.lsn)
        (records_from start log p)) → MayHaveStamped first synced past p x →
        (redo_by_lsn patch from log p x).image ≡ redo start log p (first p).image }
    ensures from_there { (log : List LogRecord) (from p : ℕ) (x : Content) →
        Rise (records_from from log p) →
        (redo_by_lsn patch from log p x).image ≡ redo (max from (x.page_lsn + 1)) log p x.image }
{}

/// A checkpoint gives a redo point: the lesser of the LSN that came next when it began, and of the least LSN of the
/// writes that had not gone out when the sync of the device began. Redo may begin there after a crash at any later
/// time, even if the device has no more than what had ended well before that sync. It makes of the page what the writes
/// within the log made of its first image.
///
/// That least LSN may be asked for before the sync begins: the device has no other images by a newer sync than it may
/// have by an older one. From the next LSN on come the later writes of this page. Other pages may have others.
pub fn checkpoint_gives_a_redo_point()
    ensures point { (synced late : Trail) (least : Option ℕ) (next p : ℕ) →
        IsRedoFrom synced least →
        WritesFrom next p late → IsRedoPoint (redo_point least next) synced (late ++ synced) p }
    ensures recovered { (c : Parameters) (first : ℕ → List ℕ) (synced late : Trail)
        (log : List LogRecord) (least : Option ℕ) (start next end p : ℕ) (image : List ℕ) →
        Legal c (late ++ synced) → GaveBack c.size first end (late ++ synced) p →
        durable (late ++ synced) ≤ end →
        (h : LogHas log start (redo_point least next) end (late ++ synced) p) → start ≤ redo_point least next →
        NeverFall (records_from start log p) → IsRedoFrom synced least → WritesFrom next p late →
        MayHave first synced (late ++ synced) p image → redo (redo_point least next) log p image ≡ put
        h.unwritten (written_into first (within end (late ++ synced)) p) }
    ensures asked_before { (first : ℕ → List ℕ) (newer synced past : Trail) (p : ℕ)
        (image : List ℕ) →
        MayHave first (newer ++ synced) past p image → MayHave first synced past p image }
    ensures asked_before_stamped { (first : ℕ → Content) (newer synced past : Trail) (p : ℕ)
        (x : Content) → MayHaveStamped first (newer ++ synced) past p x →
        MayHaveStamped first synced past p x }
{}

/// Redo may be interrupted by a crash, and begun again. If it stopped halfway through an image, redo of the whole makes
/// what it would have made of the image before, and so it is by page LSN, if the image has that of the last record that
/// was acted on. If it wrote the records to a second pool, and that was stopped at any
/// time, redo from a redo point of the second run makes what the whole log makes of the image that the page had before
/// the first run, with the records that were added since. So it is after any number of crashes.
pub fn redo_may_be_interrupted()
    ensures begun_again { (newer older : List LogRecord) (from p : ℕ) (image : List ℕ) →
        AllFit (length image) (records_from from older p) →
        redo from (newer ++ older) p (redo from older p image) ≡ redo from (newer ++ older) p image }
    ensures begun_again_by_page_lsn { (apply : LogRecord → List ℕ → List ℕ)
        (newer older : List LogRecord) (from p : ℕ) (x : Content) →
        redo_by_lsn apply from (newer ++ older) p (redo_by_lsn apply from older p x) ≡
        redo_by_lsn apply from (newer ++ older) p x }
    ensures stopped_again { (c : Parameters) (second : ℕ → List ℕ) (synced past : Trail)
        (log added : List LogRecord) (start from later end p : ℕ) (first image : List ℕ) →
        Recovers log start from p first (second p) → IsTrue (every (λ r. nat_le from r.lsn) added) →
        Stopped c second synced past (added ++ log) from later end p →
        NeverFall (records_from from (added ++ log) p) → MayHave second synced past p image →
        Recovers (added ++ log) start later p first image }
{}

/// A full image in the log recovers a torn page: if one of a page's records from the redo point on has all of its
/// bytes, and those before it lie within the page, redo recovers the page whatever bytes the device has of it, as many
/// as before. Redo from the log alone asks nothing of device and pool: records may tell in any way what their writes
/// did, if one of them makes the page anew.
///
/// The page LSN of a torn page may be newer than its bytes. Redo by page LSN recovers it if it puts a full image in
/// whatever the page LSN is, and goes on from the LSN of that record.
pub fn full_images_recover_torn_pages()
    ensures any { (log : List LogRecord) (from p : ℕ) (a b : List ℕ) →
        HasFullImage (length a) (records_from from log p) → length b ≡ length a →
        redo from log p a ≡ redo from log p b }
    ensures torn { (c : Parameters) (first : ℕ → List ℕ) (synced past : Trail)
        (log : List LogRecord)
        (start from end p : ℕ) (torn : List ℕ) →
        Stopped c first synced past log start from end p → NeverFall (records_from start log p) →
        HasFullImage (length torn) (records_from from log p) → length torn ≡ length (first p) →
        redo from log p torn ≡ redo start log p (first p) }
    ensures alone { (apply : LogRecord → List ℕ → List ℕ) (first : ℕ → List ℕ) (past : Trail)
        (log : List LogRecord) (start from end p : ℕ) (image : List ℕ)
        (h : LogHas log start from end past p) → AppliesAlike apply (records_from start log p) (first p) →
        MakesAnew apply log start from p (first p) image → apply_all apply (records_from from log p) image ≡ put
        h.unwritten (written_into first (within end past) p) }
    ensures by_page_lsn { (is_full : LogRecord → Bool) (apply : LogRecord → List ℕ → List ℕ)
        (first : ℕ → List ℕ) (past : Trail) (log : List LogRecord) (start from end p : ℕ) (x : Content)
        (h : LogHas log start from end past p) → start ≤ from → Rise (records_from start log p) →
        AppliesAlike apply (records_from start log p) (first p) →
        (w : HasFullImage (length (first p)) (records_from start log p)) → from ≤ w.full.lsn →
        IsTrue (is_full w.full) → PutsIn apply (length (first p)) w.full →
        length x.image ≡ length (first p) →
        (redo_with_full_images is_full apply from log p x).image ≡
        put h.unwritten (written_into first (within end past) p) }
    ensures bytes_are_put_in { (size : ℕ) (full : LogRecord) → full.offset ≡ 0 →
        length full.bytes ≡ size → PutsIn patch size full }
{}
