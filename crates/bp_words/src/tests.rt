ghost use Rattle.std.specs.Prelude.{◌≡◌, ◌+◌, ◌<◌};

use crate::word::{JOIN, PIN, READER, WRITER, Word};
use crate::{Frame, Keeper, Pin, Queue, Visitor};
use std::sync::atomic::AtomicU64;
use std::sync::atomic::Ordering::SeqCst;
use std::test::Fail;
use std::thread::join;

/// Whether the shares of a page can be had: one that reads, one that pins, one that writes.
fn free(frame: &Frame, visitor: &mut Visitor, page: u64) -> (bool, bool, bool)
    requires { visitor.old.frame ≡ frame.now }
    ensures { visitor.new ≡ visitor.old }
{
    let reads = match visitor.join_read(frame, page) {
        Ok(share) => {
            share.leave(frame);
            true
        }
        Err(Some(share)) => {
            share.leave(frame);
            false
        }
        Err(None) => false,
    };
    let pins = match visitor.join_pin(frame, page) {
        Some(share) => {
            share.leave(frame);
            true
        }
        None => false,
    };
    let writes = match visitor.join_write(frame, page) {
        Some(share) => {
            share.leave(frame);
            true
        }
        None => false,
    };
    (reads, pins, writes)
}

#[test]
fn a_word_tells_its_parts(rt: HostRuntime) -> Result<(), Fail> {
    let word = Word(Word(0).with_pass(true));
    assert!(rt; word.is_out() && word.is_used() && word.is_quiet() && !word.is_over());
    assert_eq!(rt; word.with_latch(READER, PIN), Some(word.0 - PIN + READER));
    assert_eq!(rt; word.with_latch(WRITER, 0), Some(word.0 + WRITER));
    assert!(rt; Word(word.0 + 31 * JOIN).is_readable_at_once());
    assert!(rt; !Word(word.0 + 32 * JOIN).is_readable_at_once());
    assert!(rt; Word(word.0 + 32 * JOIN).is_readable());
    assert!(rt; Word(word.0 + 524287 * READER).is_readable());
    assert!(rt; !Word(word.0 + 524288 * READER).is_readable());
    assert_eq!(rt; Word(word.0 + 7 * JOIN).joins(), 7);
    Ok(())
}

#[test]
fn a_frame_serves_one_page_at_a_time(rt: HostRuntime) -> Result<(), Fail> {
    let (frame, mut keeper, _queue) = Frame::new(rt.alloc())?;
    let mut visitor = keeper.admit(&frame).ok_or("too many")?;
    assert_eq!(rt; free(&frame, &mut visitor, 0), (false, false, false));
    let pin = keeper.try_begin(&frame, 7, true).ok_or("changed")?;
    assert_eq!(rt; free(&frame, &mut visitor, 7), (true, true, true));
    assert_eq!(rt; free(&frame, &mut visitor, 8), (false, false, false));
    assert!(rt; !keeper.try_end(&frame));
    pin.leave(&frame);
    assert!(rt; keeper.try_take_joins(&frame).is_some());
    assert!(rt; keeper.try_stay(&frame));
    assert!(rt; keeper.try_end(&frame));
    assert_eq!(rt; free(&frame, &mut visitor, 7), (false, false, false));
    Ok(())
}

/// Takes a latch beside a pin, and looks meanwhile what another thread has of the page.
fn beside(
    frame: &Frame,
    pin: Pin,
    visitor: &mut Visitor,
    writes: bool,
) -> (bool, (bool, bool, bool))
    requires pin { pin.frame ≡ frame.now }
    requires visitor { visitor.old.frame ≡ frame.now }
    ensures { visitor.new ≡ visitor.old }
{
    let mut pin = pin;
    let mut had = false;
    let mut left = (false, false, false);
    if writes {
        if let Some(writer) = pin.try_write_beside(frame) {
            had = true;
            left = free(frame, visitor, 7);
            writer.leave(frame);
        }
    } else if let Some(reader) = pin.try_read_beside(frame) {
        had = true;
        left = free(frame, visitor, 7);
        reader.leave(frame);
    }
    match pin.try_read(frame) {
        Ok(reader) => reader.leave(frame),
        Err(pin) => match pin.try_write(frame) {
            Ok(writer) => writer.leave(frame),
            Err(pin) => pin.leave(frame),
        },
    }
    (had, left)
}

#[test]
fn latches_keep_apart(rt: HostRuntime) -> Result<(), Fail> {
    let (frame, mut keeper, _queue) = Frame::new(rt.alloc())?;
    let mut visitor = keeper.admit(&frame).ok_or("too many")?;
    let pin = keeper.try_begin(&frame, 7, false).ok_or("changed")?;
    assert_eq!(rt;
        beside(&frame, pin, &mut visitor, true),
        (true, (false, true, false))
    );
    let pin = visitor.join_pin(&frame, 7).ok_or("gone")?;
    assert_eq!(rt;
        beside(&frame, pin, &mut visitor, false),
        (true, (true, true, false))
    );
    assert!(rt; keeper.try_end(&frame));
    Ok(())
}

/// Whether the word says that threads wait.
fn says_so(frame: &Frame, queue: &mut Queue) -> bool
    requires { queue.old.frame ≡ frame.now }
    ensures { queue.new ≡ queue.old }
{
    frame.word_tells(queue) / (2 * WRITER) % 2 == 1
}

/// A thread waits to read behind a writer, which leaves then. Says whether the word told of it, whether the thread was
/// let in too early, and whether it was let in.
fn waits(
    frame: &Frame,
    queue: &mut Queue,
    writer: Pin,
    visitor: Visitor,
    pin: Pin,
) -> (bool, bool, bool)
    requires queue { queue.old
        ≡ record { frame = frame.now; waiting = 0; writers = 0; granted = 0 } }
    requires writer { writer.frame ≡ frame.now }
    requires visitor { visitor.frame ≡ frame.now }
    requires pin { pin.frame ≡ frame.now }
    ensures { queue.new.frame ≡ queue.old.frame }
{
    let mut told = false;
    let mut early = false;
    match writer.try_write(frame) {
        Ok(writer) => {
            match queue.try_wait_to_read(frame, visitor, pin) {
                Ok(()) => {
                    told = says_so(frame, queue);
                    early = queue.try_let_readers_in(frame);
                }
                Err((_visitor, pin)) => pin.leave(frame),
            }
            writer.leave(frame);
        }
        Err(writer) => {
            writer.leave(frame);
            pin.leave(frame);
        }
    }
    let let_in = !early && goes_on(frame, queue);
    (told, early, let_in)
}

/// Lets the readers in that wait, and one of them go on.
fn goes_on(frame: &Frame, queue: &mut Queue) -> bool
    requires frame { queue.old.frame ≡ frame.now }
    requires fits { queue.old.waiting + queue.old.granted < 18446744073709551616 }
    ensures { queue.new.frame ≡ queue.old.frame }
{
    if queue.try_let_readers_in(frame) {
        if let Some((reader, pin, _visitor)) = queue.hand(frame) {
            reader.leave(frame);
            pin.leave(frame);
            return !says_so(frame, queue);
        }
    }
    false
}

#[test]
fn who_waits_is_let_in(rt: HostRuntime) -> Result<(), Fail> {
    let (frame, mut keeper, mut queue) = Frame::new(rt.alloc())?;
    let mut visitor = keeper.admit(&frame).ok_or("too many")?;
    let writer = keeper.try_begin(&frame, 7, false).ok_or("changed")?;
    match visitor.join_pin(&frame, 7) {
        Some(pin) => {
            assert_eq!(rt;
                waits(&frame, &mut queue, writer, visitor, pin),
                (true, false, true)
            );
        }
        None => writer.leave(&frame),
    }
    assert!(rt; keeper.try_end(&frame));
    Ok(())
}

/// A thread waits to write beside a reader, which leaves then. Says the same of it.
fn waits_to_write(
    frame: &Frame,
    queue: &mut Queue,
    reader: Pin,
    visitor: Visitor,
    pin: Pin,
) -> (bool, bool, bool)
    requires queue { queue.old
        ≡ record { frame = frame.now; waiting = 0; writers = 0; granted = 0 } }
    requires reader { reader.frame ≡ frame.now }
    requires visitor { visitor.frame ≡ frame.now }
    requires pin { pin.frame ≡ frame.now }
    ensures { queue.new.frame ≡ queue.old.frame }
{
    let mut told = false;
    let mut early = false;
    match reader.try_read(frame) {
        Ok(reader) => {
            match queue.try_wait_to_write(frame, visitor, pin) {
                Ok(()) => {
                    told = says_so(frame, queue);
                    early = writes(frame, queue);
                }
                Err((_visitor, pin)) => pin.leave(frame),
            }
            reader.leave(frame);
        }
        Err(reader) => {
            reader.leave(frame);
            pin.leave(frame);
        }
    }
    let let_in = !early && writes(frame, queue);
    (told, early, let_in)
}

/// Lets a writer in that waits, and go on.
fn writes(frame: &Frame, queue: &mut Queue) -> bool
    requires frame { queue.old.frame ≡ frame.now }
    requires fits { queue.old.waiting + queue.old.writers < 2 }
    ensures frame { queue.new.frame ≡ queue.old.frame }
    ensures fits { queue.new.waiting + queue.new.writers < 2 }
{
    if let Some((writer, pin, _visitor)) = queue.try_let_writer_in(frame) {
        writer.leave(frame);
        pin.leave(frame);
        return !says_so(frame, queue);
    }
    false
}

#[test]
fn who_waits_to_write_is_let_in(rt: HostRuntime) -> Result<(), Fail> {
    let (frame, mut keeper, mut queue) = Frame::new(rt.alloc())?;
    let mut visitor = keeper.admit(&frame).ok_or("too many")?;
    let reader = keeper.try_begin(&frame, 7, false).ok_or("changed")?;
    match visitor.join_pin(&frame, 7) {
        Some(pin) => {
            assert_eq!(rt;
                waits_to_write(&frame, &mut queue, reader, visitor, pin),
                (true, false, true)
            );
        }
        None => reader.leave(&frame),
    }
    assert!(rt; keeper.try_end(&frame));
    Ok(())
}

/// Takes shares of two pages in turn. Whoever writes finds nobody beside it.
fn uses(frame: &Frame, visitor: Visitor, times: u64, writers: &AtomicU64, beside: &AtomicU64)
    requires { visitor.frame ≡ frame.now }
{
    let mut visitor = visitor;
    for turn in 0..times {
        if let Some(share) = visitor.join_write(frame, turn % 2) {
            if writers.fetch_add(1, SeqCst) != 0 {
                beside.fetch_add(1, SeqCst);
            }
            writers.fetch_sub(1, SeqCst);
            share.leave(frame);
        }
        match visitor.join_read(frame, turn % 2) {
            Ok(share) => {
                if writers.load(SeqCst) != 0 {
                    beside.fetch_add(1, SeqCst);
                }
                share.leave(frame);
            }
            Err(Some(share)) => share.leave(frame),
            Err(None) => {}
        }
    }
}

/// Counts the joins and takes the frame back as often as that works, and gives it to two pages in turn.
fn turns(frame: &Frame, keeper: Keeper, times: u64) -> u64
    requires { keeper.frame ≡ frame.now }
{
    let mut keeper = keeper;
    let mut ended = 0u64;
    for _ in 0..times {
        keeper.try_take_joins(frame);
        turn(frame, &mut keeper, &mut ended);
    }
    ended
}

fn turn(frame: &Frame, keeper: &mut Keeper, ended: &mut u64)
    requires { keeper.old.frame ≡ frame.now }
    ensures { keeper.new.frame ≡ keeper.old.frame }
{
    if keeper.try_end(frame) {
        *ended = ended.wrapping_add(1);
        if let Some(pin) = keeper.try_begin(frame, *ended % 2, false) {
            pin.leave(frame);
        }
    }
}

#[test]
fn threads_keep_apart(rt: HostRuntime) -> Result<(), Fail> {
    let (frame, mut keeper, _queue) = Frame::new(rt.alloc())?;
    let first = keeper.admit(&frame).ok_or("too many")?;
    let second = keeper.admit(&frame).ok_or("too many")?;
    let (writers, beside) = (AtomicU64::new(0), AtomicU64::new(0));
    let (shared, writing, found) = (&frame, &writers, &beside);
    let (_, ended) = join(
        &rt,
        move || -> ()
            requires { first.frame ≡ shared.now }
        { uses(shared, first, 20000, writing, found) },
        move || -> u64
            requires { keeper.frame ≡ shared.now }
        { turns(shared, keeper, 20000) },
    );
    assert!(rt; ended < 20001);
    uses(&frame, second, 100, &writers, &beside);
    assert_eq!(rt; beside.load(SeqCst), 0);
    Ok(())
}
