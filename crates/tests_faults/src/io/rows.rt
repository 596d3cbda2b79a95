//! A trace that shows the write-ahead rule, and its rows.
use bp_page::{Bytes, Geometry, Lsn, PageNo};
use bp_scripts::{Row, Step};
use std::process::Abort;

/// Page 1 is changed under log record 7, and is to be evicted before that record is durable.
pub(crate) const AHEAD: &[u8] =
    b"0,fix,1,,,\n0,write,1,0,ff,7\n0,unfix,1,,,\n0,log,5,,,\n0,tick,1,,,\n0,fix,2,,,\n0,log,7,,,\n0,fix,2,,,\n0,unfix,2,,,\n0,tick,1,,,\n0,fix,1,,,\n0,read,1,,,\n0,unfix,1,,,\n";

pub(crate) fn sixteen_pages<R: Abort>(rt: &R) -> Geometry {
    Geometry::new(16, 16).expect(rt, "within the limits")
}

fn row(row: u64, step: Step) -> Row {
    Row {
        row,
        client: 0,
        step,
    }
}

pub(crate) fn rows_of_the_rule<R: Abort + AllocGlobal>(rt: &R) -> [Row; 13] {
    let (one, two) = (PageNo::new(1), PageNo::new(2));
    let bytes = Bytes::of(rt.alloc(), &[255]).expect(rt, "the byte");
    let write = Step::Write {
        page: one,
        offset: 0,
        bytes,
        lsn: Lsn::new(7),
    };
    [
        row(1, Step::Fix(one)),
        row(2, write),
        row(3, Step::Unfix(one)),
        row(4, Step::Log(Lsn::new(5))),
        row(5, Step::Tick(1)),
        row(6, Step::Fix(two)),
        row(7, Step::Log(Lsn::new(7))),
        row(8, Step::Fix(two)),
        row(9, Step::Unfix(two)),
        row(10, Step::Tick(1)),
        row(11, Step::Fix(one)),
        row(12, Step::Read(one)),
        row(13, Step::Unfix(one)),
    ]
}
