//! Laws of the format, which hold for all rows and numbers. Each function does nothing: its contract is the law.
ghost use Rattle.std.specs.Prelude.{◌≡◌, ◌≤◌, ◌^◌, ◌++◌, List, Some, Ok, map};
ghost use Rattle.std.specs.Fmt.{decimal};
ghost use Rattle.bp_trace.specs.InRange.{IsScript};
ghost use Rattle.bp_trace.specs.Numbers.{number_in};
ghost use Rattle.bp_trace.specs.Script.{script_from};
ghost use Rattle.bp_trail.specs.declared.entries.Entry.{Entry};
ghost use Rattle.bp_trace.specs.Pieces.{Taken, none_taken, text_of_pieces, joined, MayTake, TakesNoMore};
ghost use Rattle.bp_trace.specs.Report.{report_text};
ghost use Rattle.bp_trace.specs.Written.{written_row};
ghost use Rattle.std.specs.Prelude.{◌<◌};
ghost use Rattle.bp_trace.specs.NumberLists.{IsRange, doubled, most_listed};

use bp_page::Geometry;
use bp_scripts::Row;

/// Each number up to 2^62 reads back as itself from its decimal text.
pub fn printed_number_reads_back(number: u64)
    requires { number ≤ 2 ^ 62 }
    ensures { number_in (decimal number) ≡ Some number }
{}

/// Each list of rows that a trace can hold reads back as itself from the records that are written for it.
pub fn written_rows_read_back(geometry: &Geometry, rows: &[Row])
    requires { IsScript geometry.now rows.now }
    ensures { script_from geometry.now 1 (map written_row rows.now) ≡ Ok rows.now }
{}

/// The lines of the pieces of a trail, one piece after the other, and then the totals of all pieces, are the report of
/// the joined trail.
pub fn pieces_report_as_the_whole()
    ensures { (pieces : List (List Entry)) → text_of_pieces none_taken pieces ≡ report_text
        (joined pieces) }
{}

/// What may come after a piece may still come after a fault in that piece.
pub fn next_piece_may_come_after_a_fault()
    ensures { (old new : Taken) (piece next : List Entry) → TakesNoMore old piece new
        → MayTake old (piece ++ next) → MayTake new next }
{}

/// A range starts with its first end and stops at its last. Each number but the first is the double of the one before,
/// or the last end where the double is above it.
pub fn ranges_have_their_ends(first: usize, last: usize)
    requires some { 1 ≤ first }
    requires order { first ≤ last }
    requires few { last < 2 ^ 63 }
    ensures { IsRange first last (doubled most_listed first last) }
{}
