//! Two clients over one frame, where one call of one port fails.
use crate::making::{Failing, NINE, ZEROS, config, device, run};
use bp_core::Reply;
use bp_replay::Outcome;
use bp_trail::Totals;
use std::process::Abort;

/// Each client changes page 1, which has to go out for page 2. Page 2 stays pinned, so page 1 may find no frame.
const ROWS: &str = "\
0,fix,1,,,
0,write,1,0,09,0
0,unfix,1,,,
0,tick,1,,,
0,fix,2,,,
0,fix,1,,,
0,read,1,,,
1,fix,1,,,
1,write,1,0,09,0
1,unfix,1,,,
1,tick,1,,,
1,fix,2,,,
1,fix,1,,,
1,read,1,,,
";

/// Asserts what holds of such a run under every schedule. The row whose device call failed was refused; any other
/// refused row found no victim, or had no pass. Only zeros or what the clients wrote was read: a page that a failing
/// write spoiled stays in its frame until it is written out, so it is not read before.
fn expect_sound<R: Abort>(rt: &R, done: &Outcome, n: u64) {
    for entry in &done.trail {
        if let Reply::Content(image) = &entry.reply {
            let bytes = image.bytes();
            assert!(rt;
                bytes == ZEROS.as_slice() || bytes == NINE.as_slice(),
                "call {n}"
            );
        }
    }
    let mut failed = 0u64;
    for refused in &done.refused {
        match refused.number {
            17 | 18 => failed = failed.saturating_add(1),
            number => assert!(rt; number == 11 || number == 14, "call {n}: {number}"),
        }
    }
    assert!(rt;
        failed <= 1 && failed == Totals::of(&done.trail).failed,
        "call {n}"
    );
}

/// Whichever call of whichever port fails, only that row is refused for it, and no spoiled page is read.
#[test]
fn each_device_call_fails(rt: HostRuntime) {
    let config = config(&rt);
    for (client, spoil) in [(0, false), (0, true), (1, false), (1, true)] {
        for n in 1..13 {
            let device = device(&rt, config.geometry);
            let failing = Failing { client, n, spoil };
            expect_sound(&rt, &run(&rt, config, &device, 2, ROWS, failing), n);
        }
    }
}
