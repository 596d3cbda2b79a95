//! A mark that one thread raises and another one looks at.
ghost use Rattle.std.specs.Prelude.{◌≡◌};

use bp_mark::{LogEnd, Mark, Reader};
use bp_page::Lsn;
use std::process::Abort;
use std::thread;

// Raises the mark to 1, 2 and so on up to 1,000.
fn raise_a_thousand(mark: &Mark, mut end: LogEnd) -> LogEnd
    requires { end.mark ≡ mark.now }
    ensures { result.mark ≡ end.mark }
{
    for lsn in 1..=1000 {
        end.raise(mark, Lsn::new(lsn));
    }
    end
}

// Looks 1,000 times, and asserts that what is seen never falls.
fn look_a_thousand_times(rt: &impl Abort, mark: &Mark, mut reader: Reader) -> Reader
    requires { reader.mark ≡ mark.now }
    ensures { result.mark ≡ reader.mark }
{
    let mut before = Lsn::new(0);
    for _ in 0..1000 {
        let seen = reader.look(mark);
        assert!(rt; before <= seen, "{seen} after {before}");
        before = seen;
    }
    reader
}

#[test]
fn what_is_seen_never_falls(rt: HostRuntime) {
    let (mark, end, reader) = Mark::new(rt.alloc()).expect(&rt, "the mark");
    let shared = &mark;
    let (end, mut reader) = thread::join(
        &rt,
        move || -> LogEnd
            requires { end.mark ≡ shared.now }
            ensures { result.mark ≡ shared.entry.now }
        { raise_a_thousand(shared, end) },
        || -> Reader
            requires { reader.mark ≡ shared.now }
            ensures { result.mark ≡ shared.entry.now }
        { look_a_thousand_times(&rt, shared, reader) },
    );
    let seen = reader.look(&mark);
    assert_eq!(rt;
        (seen, mark.close(end, reader)),
        (Lsn::new(1000), Lsn::new(1000))
    );
}
