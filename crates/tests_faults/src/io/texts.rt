//! The texts of refusals and faults, one on each line.
use bp_page::{Lsn, PageNo, PortFault, Refusal};
use bp_trace::{InputFault, TraceFault};
use std::process::Abort;

// `NoVictim` and `TooLong` are printed as their numbers are explained, as most are.
#[test]
fn texts_of_refusals_and_faults(rt: HostRuntime) {
    let needs_log = Refusal::NeedLog(Lsn::new(18_446_744_073_709_551_615));
    let trace = TraceFault { row: 3, number: 40 };
    let page = PageNo::new(1_048_575);
    let said = format!(in rt.alloc();
        "{}\n{needs_log}\n{}\n{}\n{}\n{}\n{}\n{}\n{trace}\n{page}\n",
        Refusal::NoVictim,
        Refusal::BadGeometry,
        PortFault::Device,
        PortFault::Memory,
        PortFault::WrongPage,
        InputFault::TooLong,
        InputFault::TooManyPages
    )
    .expect(&rt, "the text");
    let texts = "\
no page may leave its frame
the log must first be durable up to 18446744073709551615
the number of pages or the page size is out of its limits
the device failed
out of memory
the page's place in its file has another page
the trace or the list of references is too long
the references are of too many different pages
trace row 3 refused 40
1048575
";
    assert_eq!(rt; said.as_str(), texts);
}
