//! A sweep: the same references over pools of several sizes, for several K of LRU-K, and for Belady's optimum.
#![tactic(auto)]

mod cell;
mod cells;
mod column;
mod dense;
mod faults;
pub mod laws;
mod lists;
mod plans;
mod progress;
mod retried;

pub use bp_trail::Totals;
pub use cell::count_references;
pub use cells::{CellFault, Plan, Policy, count_cells};
pub use column::read_column;
pub use dense::References;
pub use faults::ReferenceFault;
pub use lists::read_references;
pub use plans::plans_of;
pub use progress::{Progress, Unwatched};
