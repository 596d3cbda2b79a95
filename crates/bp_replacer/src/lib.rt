//! LRU-K page replacement as a core uses it: reference histories, and candidates at numbered seats.
#![tactic(auto)]

mod block;
mod hands;
pub mod histories;
mod lagging_tree;
mod marks;
mod queue;
mod seat_list;
pub mod seats;
pub mod settings;
pub mod tournament;
mod young;

pub use histories::{BlockNo, Histories};
pub use settings::Settings;
