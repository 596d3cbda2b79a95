//! Laws of every run, which hold since its trail is legal. Each function does nothing: its contract is the law.
ghost use Rattle.std.specs.Prelude.{◌≡◌, ◌<◌, ℕ, List, [], map, length, reverse};
ghost use Rattle.bp_trail.specs.declared.entries.Entry.{Entry as AnEntry};
ghost use Rattle.bp_scripts.specs.declared.rows.Row.{Row as ARow};
ghost use Rattle.bp_scripts.specs.declared.rows.Refused.{Refused as ARefused};
ghost use Rattle.bp_trail.specs.Parameters.{Parameters};
ghost use Rattle.bp_trail.specs.Legal.{Legal};
ghost use Rattle.bp_trail.specs.Clients.{of_client};
ghost use Rattle.bp_trail.specs.Pieces.Manner.{session};
ghost use Rattle.bp_scripts.specs.Script.{Follows};
ghost use Rattle.bp_scripts.specs.LogBound.{IsWithinLog};
ghost use Rattle.bp_replay.specs.Scripts.{list_of, NoneIsStrange};
ghost use Rattle.bp_replay.specs.Rules.{KeepsRules};
ghost use Rattle.bp_replay.specs.ScriptRuns.{EachFollows, MarksByRows, SaidIsTheirs, IsRun};
ghost use Rattle.bp_replay.specs.ScriptRuns.{after_lists, joined_lists, PiecesAreTheirs, PortsWork};

use bp_ports::Port;

/// In the trail of every run each reply is what the page map answers there from the calls before
/// it, or that a read without an image found a wrong page; each page that is evicted has no pins and
/// is not unsaved, and is the eligible page that comes first, so that none is farther by its backward
/// K-distance; no image goes out before the log is durable as far as every earlier write of its page
/// since its last discard; and over a device that gives back what was written each content is the
/// plain map's.
pub fn runs_keep_the_rules_of_the_pool()
    ensures { (c : Parameters) (trail : List AnEntry) →
        Legal c (reverse trail) → KeepsRules c trail }
{}

/// Where a list is the trail's entries of client 0, and by a cut of it into the pieces of a script's
/// rows no mark is ahead of the log rows, each entry of client 0 that is no unfix stands in the piece
/// of a row by that cut; and the greatest LSN marked up to and with that entry is at most the
/// greatest of the log rows before that row.
pub fn marks_keep_to_the_log_rows()
    ensures { (script : List ARow) (trail said : List AnEntry) (refusals : List ARefused)
        (cut : Follows session script (reverse said) refusals) → said ≡ of_client 0 trail →
        IsWithinLog script cut.ends (reverse trail) →
        MarksByRows script trail said refusals cut }
{}

/// A trail that is taken in pieces, and lists that are cut in pieces, are a run's when they are
/// joined: what each cut says of its piece adds up to the joined pieces; so these are legal where
/// the whole is; and the lists are the trail's entries of each client where that is so piece by
/// piece. Where by these lists the clients follow their scripts too, each port did the work of its
/// client's list, and no mark is ahead of the log rows, it is a run.
pub fn pieces_are_a_run<P: Port>()
    ensures whole { (pieces : List (List AnEntry)) → after_lists [] pieces ≡ reverse
        (joined_lists pieces) }
    ensures legal { (c : Parameters) (pieces : List (List AnEntry)) →
        Legal c (after_lists [] pieces) → Legal c (reverse (joined_lists pieces)) }
    ensures run { (c : Parameters) (scripts : List (List ARow)) (ports left : List P)
        (trail : List (List AnEntry)) (said : List (List (List AnEntry)))
        (refused : List ARefused) → 0 < length scripts →
        Legal c (after_lists [] trail) → PiecesAreTheirs (length scripts) trail said →
        NoneIsStrange refused →
        PortsWork P.read_gives P.write_gives (map joined_lists said) ports left →
        (follows : EachFollows scripts (map joined_lists said) refused) →
        (cut : Follows session (list_of 0 scripts) (reverse (list_of 0 (map joined_lists said)))
        (list_of 0 follows.refusals)) →
        IsWithinLog (list_of 0 scripts) cut.ends (reverse (joined_lists trail)) →
        IsRun P.read_gives P.write_gives c scripts ports (joined_lists trail)
        (map joined_lists said) refused left }
    ensures theirs { (clients : ℕ) (trail : List (List AnEntry))
        (said : List (List (List AnEntry))) → PiecesAreTheirs clients trail said →
        SaidIsTheirs clients (joined_lists trail) (map joined_lists said) }
{}
