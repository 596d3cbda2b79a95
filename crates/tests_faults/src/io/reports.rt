//! Reports of the trail of the write-ahead rule, in pieces, and to writers that fail.
ghost use Rattle.std.specs.Prelude.{◌≡◌};

use crate::io::rows::{rows_of_the_rule, sixteen_pages};
use crate::io::writers::Limited;
use bp_core::{Core, Entry, Settings};
use bp_device::{MemDevice, Port};
use bp_page::Geometry;
use bp_replay::drive_all;
use bp_scripts::Refused;
use bp_trace::{ReportRun, report, report_rows};
use std::io;
use std::io::Write;
use std::process::Abort;
use std::sync::Wait;
use test_support::scripts::rows_fit;

/// A core of one frame.
fn new_core<R: Abort + AllocGlobal>(rt: &R, geometry: Geometry) -> Core
    ensures size { result.parameters.size ≡ geometry.size }
{
    let settings = Settings::new(1, 0, 0).expect(rt, "the settings");
    let core = Core::new(rt.alloc(), geometry, settings, 1, 1, 100);
    core.expect(rt, "the core")
}

/// A core of one frame after the rows of the write-ahead rule, of which row 6 was refused.
fn driven<R: Wait + Abort + AllocGlobal>(rt: &R) -> Core {
    let device = MemDevice::new(rt.alloc(), sixteen_pages(rt)).expect(rt, "the device");
    let mut port = device.port().expect(rt, "the port");
    let mut core = new_core(rt, port.geometry());
    let rows = rows_of_the_rule(rt);
    assert!(rt; rows_fit(&core, &rows));
    let refused = drive_all(rt, rt.alloc(), &mut core, &mut port, &rows);
    let refused = refused.expect(rt, "the rows are driven");
    assert_eq!(rt;
        refused.as_slice(),
        [Refused { row: 6, number: 12 }].as_slice()
    );
    core
}

// The report without the line of the refused row.
const REPORT: &str = "\
out 2 1
evict 2 1
evict 3 2
read 0 1 ff000000000000000000000000000000
hits 0
faults 3
evictions 2
writes 1
failed 0
refused 1
";

/// Reports entries in pieces of this length; the last may be shorter.
fn report_by<W: Write>(
    rt: &impl Abort,
    entries: &[Entry],
    length: usize,
    writer: &mut W,
) -> io::Result<()> {
    let mut run = ReportRun::new();
    let mut left = entries;
    for _ in 0..entries.len() {
        let (piece, rest) = left.split_at(left.len().min(length));
        assert!(rt; run.takes(piece));
        run.lines(piece, writer)?;
        left = rest;
    }
    run.totals(writer)
}

/// A report in pieces of any length is the report of the whole trail.
#[test]
fn report_in_pieces(rt: HostRuntime) {
    let core = driven(&rt);
    let entries = core.trail();
    assert_eq!(rt; entries.len(), 18);
    for length in 1..19 {
        let mut printed = Vec::new(rt.alloc());
        report_by(&rt, entries, length, &mut printed).expect(&rt, "the report");
        assert_eq!(rt; printed.as_slice(), REPORT.as_bytes());
    }
    drop(core);
}

/// A writer that fails at any byte gets the report up to there.
#[test]
fn failing_writers(rt: HostRuntime) {
    let core = driven(&rt);
    for limit in 0..REPORT.len() + 1 {
        let mut writer = Limited::to(rt.alloc(), limit);
        let outcome = report(core.trail(), &mut writer);
        assert!(rt;
            writer.stopped_rightly(outcome, REPORT.as_bytes()),
            "of {limit} bytes"
        );
        let mut writer = Limited::to(rt.alloc(), limit);
        let outcome = report_by(&rt, core.trail(), 5, &mut writer);
        assert!(rt;
            writer.stopped_rightly(outcome, REPORT.as_bytes()),
            "of {limit} bytes"
        );
    }
    drop(core);
    let refused = [
        Refused { row: 6, number: 12 },
        Refused {
            row: 262_144,
            number: 20,
        },
    ];
    let rows = b"row 6 refused 12\nrow 262144 refused 20\n";
    for limit in 0..rows.len() + 1 {
        let mut writer = Limited::to(rt.alloc(), limit);
        let outcome = report_rows(&refused, &mut writer);
        assert!(rt; writer.stopped_rightly(outcome, rows), "of {limit} bytes");
    }
}
