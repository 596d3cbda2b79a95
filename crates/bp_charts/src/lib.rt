//! The replies of Belady's optimum, the table of a sweep, and its picture as SVG.
#![tactic(auto)]

mod axis;
mod cells;
mod chart;
mod curves;
mod due;
mod farthest;
mod fixed;
mod labels;
pub mod laws;
mod places;
mod ratio;
mod scale;
mod table;

pub use cells::{Cell, lines_of};
pub use chart::write_chart;
pub use curves::{Curve, Point, Which};
pub use farthest::{Optimum, count_optimum};
pub use ratio::Ratio;
pub use table::{Line, write_table};
