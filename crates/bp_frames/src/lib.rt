//! The frames of a buffer pool's core, and the passes and tickets that it has given out.
//!
//! A [`FrameTable`] holds the images of the pages that are in memory, and knows which pages may be replaced and which
//! of them goes first. It finds a page's frame in one step, as a [`FrameSlot`], and other calls go on by that. It knows
//! which pages are unsaved, which of them comes next, and which LSN is the least of their unsaved writes. A
//! [`GrantList`] holds the passes, or the tickets of one kind, that are out. Neither knows of a trail: `specs` has a
//! model of each, which the core above ties to its entries.
//!
//! Memory is taken by `FrameTable::with_capacity` and `make_spare_frame`, and by `GrantList::with_capacity` and
//! `reserve`; by nothing else.
#![tactic(auto)]

mod bit_row;
pub mod frame;
pub mod frame_table;
pub mod grant_list;
mod page_set;
mod unsaved;

pub use frame::{Frame, FrameSlot};
pub use frame_table::FrameTable;
pub use grant_list::GrantList;
