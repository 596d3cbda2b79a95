//! Laws of entries that follow a script. Each function does nothing: its contract is the law.
ghost use Rattle.std.specs.Prelude.{◌≡◌, ℕ, false, List, ◌∷◌, ◌++◌, length, reverse};
ghost use Rattle.bp_trail.specs.declared.entries.Entry.{Entry};
ghost use Rattle.bp_trail.specs.Trail.{Trail};
ghost use Rattle.bp_trail.specs.Pieces.{Manner};
ghost use Rattle.bp_trail.specs.Clients.{of_client};
ghost use Rattle.bp_scripts.specs.declared.rows.Row.{Row};
ghost use Rattle.bp_scripts.specs.declared.rows.Refused.{Refused};
ghost use Rattle.bp_scripts.specs.Script.{FollowsBy, Follows};
ghost use Rattle.bp_scripts.specs.LogBound.{row_at, is_unfix, IsWithinLog};
ghost use Rattle.bp_scripts.specs.InPieces.{InPieceOf, BoundedByItsRow};

/// The row that `row_at` counts to is the row in whose piece the entry stands, by the very cut that says that the
/// entries follow the rows.
pub fn entry_is_in_the_piece_of_its_row()
    ensures { (m : Manner) (rows : List Row) (ends : List ℕ) (past newer older : Trail)
        (e : Entry) (refusals : List Refused) (cut : FollowsBy m rows ends past refusals) →
        past ≡ newer ++ e ∷ older → InPieceOf m (row_at (reverse ends)
        (length older)) e older rows ends past refusals cut }
{}

/// Where no mark comes before the log rows allow it, by the cut by which the entries of client 0 follow its script,
/// each entry of client 0 that is no unfix stands in the piece of a row, and the greatest LSN marked up to and with that
/// entry is at most the greatest of the log rows before that row.
pub fn marks_are_bounded_row_by_row()
    ensures { (m : Manner) (script : List Row) (trail newer past said : Trail) (e : Entry)
        (refusals : List Refused) (cut : Follows m script said refusals) →
        said ≡ of_client 0 trail → IsWithinLog script cut.ends trail → trail ≡ newer ++ e ∷ past →
        e.client ≡ 0 → is_unfix e.call ≡ false → BoundedByItsRow m script said refusals cut past e }
{}
