//! The text of each number that a call of the C library returns.
//!
//! They are those of `explanation_of`, except for 1 and 12: 1 never comes from a list of references here, and the LSN
//! of 12 is in a field. 0 and 50 to 52 are only of C. `peers/c/refusals.c` has a second copy of each text that a call
//! can answer, and compares.
ghost use Rattle.std.specs.Prelude.{◌≡◌};
ghost use Rattle.hojzmated_c.specs.Texts.{text_of};

use bp_page::explanation_of;

/// Returns the text of a number, or `unknown number` where no refusal has it.
#[tactic(auto, unfolding(crate::specs::Texts::text_of))]
pub(crate) fn text_of(number: u16) -> &'static str
    ensures { result.now ≡ text_of number }
{
    match number {
        0 => "done",
        1 => "the number of pages or the page size is out of its limits",
        12 => "the log must first be durable up to the LSN that is told",
        50 => "the handle has no core",
        51 => "the handle has a core already",
        52 => "a pointer is null",
        _ => match explanation_of(u64::from(number)) {
            Some(text) => text,
            None => "unknown number",
        },
    }
}
