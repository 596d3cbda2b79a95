//! Tests of input and output: traces from readers that fail, reports and pictures to writers that fail, the texts of
//! faults, bytes written into a page, a sweep whose device fails, and the ports of a run. All else that the program
//! reads and writes is tested by its cases.
mod pages;
mod pictures;
mod ports_of_runs;
mod readers;
mod reports;
mod rows;
mod sweeps;
mod texts;
mod writers;
