//! Traces and reports: parses the bytes of a trace to the rows of a script, and prints the entries of a trail as the
//! lines of a report.
#![tactic(auto)]

pub mod decimal;
mod explaining;
mod faults;
mod fields;
mod input;
pub mod laws;
mod lines;
mod number_lists;
mod printing;
mod reasons;
mod record;
mod report_keeper;
mod script;
mod total_lines;

pub use explaining::explain_fault;
pub use faults::{InputFault, TraceFault};
pub use number_lists::{MAX_LISTED, numbers_listed};
pub use printing::{ReportRun, report, report_rows, report_totals};
pub use report_keeper::ReportKeeper;
pub use script::{read_script, read_script_into};
