//! An independent judge of trails: a `Judge` is told a trail piece by piece, and says whether each entry could be made
//! after those before it and has a lawful reply, or which is the first that does not. `first_unlawful` judges a whole
//! list.
//!
//! It follows the definitions of `bp_trail` in the order of time, and shares no code with the core. The clock, the
//! durable mark, the counts, the passes and tickets that are out, the pages that are there, the spans of the bursts, and
//! each page's image, page LSN and whether it is unsaved are updated at each entry. No entry is kept. Beside it, `agrees`
//! compares a client's own list with the trail's entries of that client.
#![tactic(auto)]

mod agreement;
mod events;
mod grants;
mod images;
mod judge;
mod pages;
mod residents;
mod setup;
mod spans;
mod told;
mod verdict;

pub use agreement::agrees;
pub use judge::Judge;
pub use setup::Setup;
pub use verdict::first_unlawful;
