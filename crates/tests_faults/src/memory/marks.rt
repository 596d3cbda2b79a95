//! A mark: it asks for memory only when it is made.
ghost use Rattle.std.specs.Prelude.{◌≡◌};

use bp_mark::{LogEnd, Mark, Reader};
use bp_page::{Lsn, Refusal};
use std::process::Abort;

/// Makes a mark with its log end and its reader. Where memory is refused, it tries again.
pub(crate) fn mark_of<R: Abort + AllocGlobal>(rt: &R) -> (Mark, LogEnd, Reader)
    ensures end { result.1.mark ≡ result.0 }
    ensures reader { result.2.mark ≡ result.0 }
{
    match Mark::new(rt.alloc()) {
        Ok(made) => made,
        Err(refusal) => {
            assert!(rt; refusal == Refusal::OutOfMemory);
            Mark::new(rt.alloc()).expect(rt, "the mark, with memory")
        }
    }
}

/// A mark is raised, looked at by two readers, and closed. None of these calls asks for memory.
#[test]
fn views_of_the_mark(rt: HostRuntime) {
    let (mark, mut end, mut first) = mark_of(&rt);
    end.raise(&mark, Lsn::new(5));
    assert_eq!(rt; first.look(&mark), Lsn::new(5));
    end.raise(&mark, Lsn::new(3));
    assert_eq!(rt; end.frontier(), Lsn::new(5));
    assert_eq!(rt; first.look(&mark), Lsn::new(5));
    let (first, mut second) = first.split(&mark);
    end.raise(&mark, Lsn::new(9));
    assert_eq!(rt; second.look(&mark), Lsn::new(9));
    let reader = first.join(&mark, second);
    assert_eq!(rt; mark.close(end, reader), Lsn::new(9));
}

/// The same for a mark at the greatest LSN.
#[test]
fn mark_at_its_end(rt: HostRuntime) {
    let greatest = Lsn::new(18446744073709551615);
    let (mark, mut end, mut reader) = mark_of(&rt);
    assert_eq!(rt; reader.look(&mark), Lsn::new(0));
    end.raise(&mark, greatest);
    assert_eq!(rt; reader.look(&mark), greatest);
    assert_eq!(rt; mark.close(end, reader), greatest);
}
