//! The language of scenarios: parses lines as calls and replies, and prints answers and entries.
#![tactic(auto)]

pub mod answers;
pub mod calls;
pub mod digests;
pub mod entries;
mod forms;
pub mod images;
pub mod replies;
pub mod shapes;
pub mod totals;

pub use answers::Answer;
pub use calls::{Numbers, Said, Verb, call_of, named, session_call_of};
pub use digests::mixed;
pub use entries::{Shown, entry_of};
pub use images::filled;
pub use replies::reply_of;
pub use shapes::{Keeps, Shape, Thing, Way, maker_of};
pub use totals::{refusals_of, totals_of};
