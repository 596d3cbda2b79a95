//! Why a table recovers: the laws of a crash at any moment. A call that is a law does nothing: its contract is the law.
ghost use Rattle.std.specs.Prelude.{◌≡◌, ◌⊎◌, ◌+◌, ◌<◌, ℕ, Bool, true, false, List, [], ◌++◌, length, reverse};
ghost use Rattle.bp_page.specs.declared.limits.Geometry.{Geometry};
ghost use Rattle.bp_trail.specs.declared.records.LogRecord.{LogRecord as Record};
ghost use Rattle.bp_trail.specs.Parameters.{Parameters};
ghost use Rattle.bp_trail.specs.Trail.{Trail};
ghost use Rattle.bp_trail.specs.Recovery.{redo};
ghost use Rattle.bp_trail.specs.Saved.{unsaved};
ghost use Rattle.example_log.specs.Commits.{Kept, changes_of, log_of};
ghost use Rattle.example_log.specs.Disk.{DeviceCall, Honest, MayBring, MayLeave};
ghost use Rattle.example_log.specs.Files.{FileCall, FileLeaves, IsSettled, SettledLeaves, failed, synced as synced_bytes, written as written_bytes};
ghost use Rattle.example_log.specs.Lives.{LogLife, Reopened, TellsTrue};
ghost use Rattle.example_log.specs.LogFiles.{Wipes, wiped_by};
ghost use Rattle.example_log.specs.Moments.{AtEach, Step, log_in, pages_in, spare_in};
ghost use Rattle.example_log.specs.Promise.{MayBeRedone, Recovers};
ghost use Rattle.example_table.specs.Checkpoints.{IsMoving};
ghost use Rattle.example_table.specs.Opening.{AreWithin, Beginning, BeginsBefore, FindsLog, IsNewer, IsOpening, IsWiped, MayBeOpened, again_of};
ghost use Rattle.example_table.specs.Tables.{Cut, Stands, TableRan};

/// Stop a table that ran so at any moment of its device since its log was begun, by a loss of power or by the end of its process
/// alone, and openings after it at any moment before they redo a page. What is found of its log, whatever the other file
/// has from before, are then the first commits, each whole, and no fewer than were synced; and whatever the device has may
/// be redone, to what all commits before that log, and these, make of the first images. A log is found (`found`). It does
/// nothing: its contract is the law.
pub fn a_crash_is_mended()
    ensures mended { (c : Parameters) (tears : Bool) (first left : ℕ → List ℕ)
        (table file bytes other : List ℕ) (cut : Cut) (start : ℕ) (alive : Bool)
        (past synced : Trail)
        (calls later so_far : List DeviceCall) (log_calls opening_calls : List FileCall)
        (commits : List (List Record)) (kept : List (List ℕ)) (durable n found last : ℕ)
        (changes pending : List Record) →
        TableRan c table cut file start alive past synced calls log_calls commits durable pending →
        Reopened file start log_calls (log_of table commits) durable opening_calls kept n →
        Honest tears first calls → ((p : ℕ) → length (first p) ≡ c.size) →
        calls ≡ later ++ (so_far ++ cut.calls) →
        FileLeaves file opening_calls bytes → TellsTrue start (synced_bytes file opening_calls)
        (written_bytes file opening_calls) bytes →
        BeginsBefore start other →
        ((p : ℕ) → MayLeave tears first (so_far ++ cut.calls) p (left p)) →
        FindsLog table bytes other found last changes →
        Kept start durable commits found last changes × MayBeRedone tears c.size 0 (reverse changes)
        (λ p. redo 0 (reverse (changes_of cut.commits ++ changes)) p (first p)) left }
    ensures found { (c : Parameters) (table file bytes other : List ℕ) (cut : Cut) (start : ℕ)
        (alive : Bool) (past synced : Trail) (calls : List DeviceCall)
        (log_calls opening_calls : List FileCall) (commits : List (List Record))
        (kept : List (List ℕ)) (durable n : ℕ) (pending : List Record) →
        TableRan c table cut file start alive past synced calls log_calls commits durable pending →
        Reopened file start log_calls (log_of table commits) durable opening_calls kept n →
        FileLeaves file opening_calls bytes → TellsTrue start (synced_bytes file opening_calls)
        (written_bytes file opening_calls) bytes →
        BeginsBefore start other → (found last : ℕ) × (changes : List Record)
        × FindsLog table bytes other found last changes }
{}

/// Stop a call of a table at any moment, also between its calls of the device and of the log, by a loss of power. `steps`
/// are these calls as `commit`, `make_durable` and the fixes tell them, in the order in which they were made, and `so_far`
/// those until then. What is found of the log are then the first of the commits that the call leaves, each whole, and no
/// fewer than were synced when it came; and whatever the device has may be redone, to what these make. A log is found
/// (`found`). `other` is what the other file has. It does nothing: its contract is the law.
pub fn a_call_may_be_stopped()
    ensures mended { (c : Parameters) (tears : Bool) (first left : ℕ → List ℕ)
        (table file bytes other : List ℕ) (cut : Cut) (start records found last : ℕ)
        (calls : List DeviceCall) (log_calls : List FileCall) (commits after : List (List Record))
        (changes : List Record) (steps later so_far : List Step) →
        AtEach (λ made. Stands c table cut file start (pages_in made ++ calls)
        (log_in made ++ log_calls) commits after records) steps → steps ≡ later ++ so_far →
        Honest tears first (pages_in so_far ++ calls) → ((p : ℕ) → length (first p) ≡ c.size) →
        FileLeaves file (log_in so_far ++ log_calls) bytes →
        TellsTrue start (synced_bytes file (log_in so_far ++ log_calls))
        (written_bytes file (log_in so_far ++ log_calls)) bytes →
        BeginsBefore start other →
        ((p : ℕ) → MayLeave tears first (pages_in so_far ++ calls) p (left p)) →
        FindsLog table bytes other found last changes →
        Kept start records after found last changes × MayBeRedone tears c.size 0 (reverse changes)
        (λ p. redo 0 (reverse (changes_of cut.commits ++ changes)) p (first p)) left }
    ensures found { (c : Parameters) (table file bytes other : List ℕ) (cut : Cut)
        (start records : ℕ) (calls : List DeviceCall) (log_calls : List FileCall)
        (commits after : List (List Record)) (steps later so_far : List Step) →
        AtEach (λ made. Stands c table cut file start (pages_in made ++ calls)
        (log_in made ++ log_calls) commits after records) steps → steps ≡ later ++ so_far →
        FileLeaves file (log_in so_far ++ log_calls) bytes →
        TellsTrue start (synced_bytes file (log_in so_far ++ log_calls))
        (written_bytes file (log_in so_far ++ log_calls)) bytes →
        BeginsBefore start other → (found last : ℕ) × (changes : List Record)
        × FindsLog table bytes other found last changes }
{}

/// Stop a checkpoint at any moment, by a loss of power, also between its calls of the device and of both files: what is
/// found then are the first commits, each whole, and no fewer than were synced when it came, and redo makes of the pages
/// what these make; or redo makes what all commits make (`within`). `steps` are its calls as it tells them.
///
/// Once its pages are synced, whatever of the next log is begun, that is what all commits make of the first images, also
/// where an opening comes, and ends, while it makes what it read durable (`moving`). A log is found at each moment
/// (`found`). When the next log has been begun, and also when a second checkpoint comes, the file of the log before it has
/// none that begins as late, whatever a crash leaves of it (`follows`); nor at any moment while it is wiped (`wiping`), nor
/// has it any once it is (`wiped`). There `to` is the LSN at which the log that goes on begins, and `before` are the calls
/// of which `follows` tells, or after an opening `settled` of law `an_opening_may_be_stopped`: so what a wipe leaves of
/// the file is an `other` of the laws above, which tell of the log that goes on. It does nothing: its contract is the law.
pub fn a_checkpoint_may_be_stopped()
    ensures moving { (c : Parameters) (tears : Bool) (first left : ℕ → List ℕ)
        (table file other_file bytes other : List ℕ) (cut : Cut) (start : ℕ) (alive : Bool)
        (past : Trail) (calls : List DeviceCall)
        (log_calls opening_calls before other_calls : List FileCall) (commits : List (List Record))
        (kept : List (List ℕ)) (n : ℕ) →
        TableRan c table cut file start alive past past calls log_calls commits
        (1 + length commits) [] →
        ((p : ℕ) → unsaved past p ≡ false) → Reopened file start log_calls (log_of table commits)
        (1 + length commits) opening_calls kept n → Honest tears first calls →
        ((p : ℕ) → length (first p) ≡ c.size) → FileLeaves file opening_calls bytes →
        TellsTrue start (synced_bytes file opening_calls) (written_bytes file opening_calls) bytes →
        length (written_bytes other_file before) ≡ length other_file →
        BeginsBefore start (synced_bytes other_file before) →
        BeginsBefore start (written_bytes other_file before) →
        Beginning other_file (start + 1 + length commits) table before other_calls →
        FileLeaves other_file other_calls other → TellsTrue (start + 1 + length commits)
        (synced_bytes other_file other_calls) (written_bytes other_file other_calls) other →
        ((p : ℕ) → MayLeave tears first calls p (left p)) →
        MayBeOpened tears c.size table bytes other
        (λ p. redo 0 (reverse (changes_of (cut.commits ++ commits))) p (first p)) left }
    ensures within { (c : Parameters) (tears : Bool) (first left : ℕ → List ℕ)
        (table file other_file bytes other : List ℕ) (cut : Cut) (start records found last : ℕ)
        (calls : List DeviceCall) (log_calls before : List FileCall) (commits : List (List Record))
        (changes : List Record) (steps later so_far : List Step) →
        AtEach (IsMoving c table cut file start calls log_calls commits records other_file before)
        steps → steps ≡ later ++ so_far →
        Honest tears first (pages_in so_far ++ calls) → ((p : ℕ) → length (first p) ≡ c.size) →
        FileLeaves file (log_in so_far ++ log_calls) bytes →
        TellsTrue start (synced_bytes file (log_in so_far ++ log_calls))
        (written_bytes file (log_in so_far ++ log_calls)) bytes →
        length (written_bytes other_file before) ≡ length other_file →
        BeginsBefore start (synced_bytes other_file before) →
        BeginsBefore start (written_bytes other_file before) →
        FileLeaves other_file (spare_in so_far ++ before) other →
        TellsTrue (start + 1 + length commits) (synced_bytes other_file (spare_in so_far ++ before))
        (written_bytes other_file (spare_in so_far ++ before)) other →
        ((p : ℕ) → MayLeave tears first (pages_in so_far ++ calls) p (left p)) →
        FindsLog table bytes other found last changes →
        (Kept start records commits found last changes
        × MayBeRedone tears c.size 0 (reverse changes)
        (λ p. redo 0 (reverse (changes_of cut.commits ++ changes)) p (first p)) left)
        ⊎ MayBeRedone tears c.size 0 (reverse changes)
        (λ p. redo 0 (reverse (changes_of (cut.commits ++ commits))) p (first p)) left }
    ensures found { (c : Parameters) (table file other_file bytes other : List ℕ) (cut : Cut)
        (start records : ℕ) (calls : List DeviceCall) (log_calls before : List FileCall)
        (commits : List (List Record)) (steps later so_far : List Step) →
        AtEach (IsMoving c table cut file start calls log_calls commits records other_file before)
        steps → steps ≡ later ++ so_far →
        FileLeaves file (log_in so_far ++ log_calls) bytes →
        TellsTrue start (synced_bytes file (log_in so_far ++ log_calls))
        (written_bytes file (log_in so_far ++ log_calls)) bytes →
        length (written_bytes other_file before) ≡ length other_file →
        BeginsBefore start (synced_bytes other_file before) →
        BeginsBefore start (written_bytes other_file before) →
        FileLeaves other_file (spare_in so_far ++ before) other →
        TellsTrue (start + 1 + length commits) (synced_bytes other_file (spare_in so_far ++ before))
        (written_bytes other_file (spare_in so_far ++ before)) other →
        (found last : ℕ) × (changes : List Record) × FindsLog table bytes other found last changes }
    ensures follows { (file : List ℕ) (start to : ℕ) (alive : Bool) (calls later : List FileCall)
        (log kept : List (List ℕ)) (durable n : ℕ) → LogLife file start alive calls log durable →
        Reopened file start calls log durable later kept n → start < to →
        (length (written_bytes file later) ≡ length file)
        × BeginsBefore to (synced_bytes file later) × BeginsBefore to (written_bytes file later)
        × ((left : List ℕ) → FileLeaves file later left → TellsTrue start (synced_bytes file later)
        (written_bytes file later) left → BeginsBefore to left) }
    ensures wiping { (file left : List ℕ) (start to : ℕ) (before more : List FileCall) →
        length (written_bytes file before) ≡ length file →
        BeginsBefore to (synced_bytes file before) → BeginsBefore to (written_bytes file before) →
        Wipes (length file) more → TellsTrue start (synced_bytes file (more ++ before))
        (written_bytes file (more ++ before)) left →
        BeginsBefore to left }
    ensures wiped { (file : List ℕ) (before : List FileCall) →
        length (written_bytes file before) ≡ length file →
        IsWiped file (wiped_by (length file) ++ before) }
    ensures good { (file : List ℕ) (start : ℕ) (calls : List FileCall) (log : List (List ℕ))
        (durable : ℕ) → LogLife file start true calls log durable → failed calls ≡ false }
{}

/// Stop an opening at any moment, by a loss of power or by the end of its process alone. What is found in both files
/// then makes of the pages what they were to be, as often as it is stopped. Reads brought `seen` of the pages when it
/// began, which a loss of power might have left too, and `first` is what it would have left. The newer log was written
/// again before any page was. The other file may be as an opening left it that ended, or failed, while it wiped it: it need
/// not be durable, as long as no log that begins as late is in it, durably or not (`wiping`). `steps` are the opening's calls of
/// the device and of both files, in the order in which they were made: at each moment of them that holds, or no page and
/// nothing of the other file is written yet, which law `a_crash_is_mended` tells of (`within`).
///
/// When the opening is done each page is what it was to be, durably, and the log that was read begins before the one
/// that goes on, also as a checkpoint after it finds its file (`settled`). It does nothing: its contract is the law.
/// What is left before that is law `a_crash_is_mended`.
pub fn an_opening_may_be_stopped()
    ensures seen { (tears : Bool) (first : ℕ → List ℕ) (calls : List DeviceCall) (p : ℕ)
        (image : List ℕ) → MayBring tears first calls p image → MayLeave tears first calls p image }
    ensures within { (tears : Bool) (device : Geometry) (wanted seen first left : ℕ → List ℕ)
        (table newer older newer_file file left_newer left_older : List ℕ) (begun last : ℕ)
        (changes : List Record) (newer_before before : List FileCall)
        (steps later so_far : List Step) →
        (is : IsNewer table newer older begun last changes) →
        AtEach (IsOpening device (again_of is) table changes (last + 1) (length file)) steps →
        steps ≡ later ++ so_far → AreWithin device.pages device.size changes →
        MayBeRedone tears device.size 0 (reverse changes) wanted seen →
        MayBeRedone tears device.size 0 (reverse changes) wanted first →
        Honest tears seen (pages_in so_far) →
        ((p : ℕ) → MayLeave tears first (pages_in so_far) p (left p)) →
        length newer_file ≡ length (again_of is) →
        length (written_bytes newer_file newer_before) ≡ length (again_of is) →
        FileLeaves newer_file (log_in so_far ++ newer_before) left_newer →
        length (written_bytes file before) ≡ length file →
        BeginsBefore begun (synced_bytes file before) →
        BeginsBefore begun (written_bytes file before) →
        FileLeaves file (spare_in so_far ++ before) left_older →
        TellsTrue (last + 1) (synced_bytes file (spare_in so_far ++ before))
        (written_bytes file (spare_in so_far ++ before)) left_older →
        ((pages_in so_far ≡ []) × (spare_in so_far ≡ []))
        ⊎ MayBeOpened tears device.size table left_newer left_older wanted left }
    ensures found { (tears : Bool) (device : Geometry)
        (table newer older newer_file file left_newer left_older : List ℕ) (begun last : ℕ)
        (changes : List Record) (newer_before before : List FileCall)
        (steps later so_far : List Step) →
        (is : IsNewer table newer older begun last changes) →
        AtEach (IsOpening device (again_of is) table changes (last + 1) (length file)) steps →
        steps ≡ later ++ so_far → length newer_file ≡ length (again_of is) →
        length (written_bytes newer_file newer_before) ≡ length (again_of is) →
        FileLeaves newer_file (log_in so_far ++ newer_before) left_newer →
        length (written_bytes file before) ≡ length file →
        BeginsBefore begun (synced_bytes file before) →
        BeginsBefore begun (written_bytes file before) →
        FileLeaves file (spare_in so_far ++ before) left_older →
        TellsTrue (last + 1) (synced_bytes file (spare_in so_far ++ before))
        (written_bytes file (spare_in so_far ++ before)) left_older →
        ((pages_in so_far ≡ []) × (spare_in so_far ≡ []))
        ⊎ ((found l : ℕ) × (cs : List Record) × FindsLog table left_newer left_older found l cs) }
    ensures redoing { (tears : Bool) (pages size : ℕ) (wanted seen first left : ℕ → List ℕ)
        (table newer older left_newer left_older : List ℕ) (begun last : ℕ) (changes : List Record)
        (done : Bool) (calls later so_far : List DeviceCall) →
        (is : IsNewer table newer older begun last changes) →
        SettledLeaves (again_of is) left_newer →
        BeginsBefore begun left_older → MayBeRedone tears size 0 (reverse changes) wanted seen →
        MayBeRedone tears size 0 (reverse changes) wanted first → Honest tears seen calls →
        Recovers pages size 0 (reverse changes) calls done → calls ≡ later ++ so_far →
        ((p : ℕ) → MayLeave tears first so_far p (left p)) →
        MayBeOpened tears size table left_newer left_older wanted left }
    ensures beginning { (tears : Bool) (pages size : ℕ) (wanted seen first left : ℕ → List ℕ)
        (table newer older left_newer file left_older : List ℕ) (begun last : ℕ)
        (changes : List Record) (calls : List DeviceCall) (before log_calls : List FileCall) →
        (is : IsNewer table newer older begun last changes) →
        SettledLeaves (again_of is) left_newer →
        AreWithin pages size changes → MayBeRedone tears size 0 (reverse changes) wanted seen →
        MayBeRedone tears size 0 (reverse changes) wanted first → Honest tears seen calls →
        Recovers pages size 0 (reverse changes) calls true →
        ((p : ℕ) → MayLeave tears first calls p (left p)) →
        length (written_bytes file before) ≡ length file →
        BeginsBefore begun (synced_bytes file before) →
        BeginsBefore begun (written_bytes file before) →
        Beginning file (last + 1) table before log_calls → FileLeaves file log_calls left_older →
        TellsTrue (last + 1) (synced_bytes file log_calls) (written_bytes file log_calls)
        left_older →
        MayBeOpened tears size table left_newer left_older wanted left }
    ensures wiping { (file : List ℕ) (begun : ℕ) (before more : List FileCall) →
        length (written_bytes file before) ≡ length file →
        BeginsBefore begun (synced_bytes file before) →
        BeginsBefore begun (written_bytes file before) → Wipes (length file) more →
        (length (written_bytes file (more ++ before)) ≡ length file)
        × BeginsBefore begun (synced_bytes file (more ++ before))
        × BeginsBefore begun (written_bytes file (more ++ before)) }
    ensures settled { (table newer older file : List ℕ) (begun last : ℕ) (changes : List Record)
        (calls : List FileCall) → (is : IsNewer table newer older begun last changes) →
        IsSettled file (again_of is) calls →
        (length (written_bytes file calls) ≡ length (again_of is))
        × BeginsBefore (last + 1) (synced_bytes file calls)
        × BeginsBefore (last + 1) (written_bytes file calls) }
    ensures done { (tears : Bool) (pages size : ℕ) (wanted seen first left : ℕ → List ℕ)
        (table newer older left_newer : List ℕ) (begun last : ℕ) (changes : List Record)
        (calls : List DeviceCall) →
        (is : IsNewer table newer older begun last changes) →
        SettledLeaves (again_of is) left_newer →
        AreWithin pages size changes → MayBeRedone tears size 0 (reverse changes) wanted seen →
        MayBeRedone tears size 0 (reverse changes) wanted first → Honest tears seen calls →
        Recovers pages size 0 (reverse changes) calls true →
        ((p : ℕ) → MayLeave tears first calls p (left p)) →
        ((p : ℕ) → left p ≡ wanted p) × BeginsBefore (last + 1) left_newer }
{}
