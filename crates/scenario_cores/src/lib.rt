//! The things that scenarios make and call: cores, with or without a device, with a trail or only its count; pools with
//! one owner; and lists of entries for the judge of trails.
#![tactic(auto)]

pub mod buffers;
mod checkpoints;
pub mod devices;
pub mod judged;
pub mod lists;
mod observing;
pub mod outcomes;
pub mod owned;
pub mod pools;
pub mod trails;
pub mod uses;

pub use buffers::{Span, bytes_read, span_of};
pub use devices::{Device, new_device};
pub use judged::{Judged, new_judged};
pub use lists::{LOST, Lists, grant_of, join, new_lists, pass_of};
pub use outcomes::{
    content, discarded, done, flushed, flushed_all, forgot, lsn_or_none, page_or_none, stats_of,
    went,
};
pub use owned::{Owned, new_owned, owned_of};
pub use pools::{Pool, new_pool, pool_of};
