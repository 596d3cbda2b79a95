//! Looks at pages of two parts by one call each.
ghost use Rattle.std.specs.Prelude.{◌≡◌};

use crate::scratch::scratch;
use bp_check::{Setup, agrees, first_unlawful};
use bp_core::{Call, Config, Core, Entry, Reply, Settings};
use bp_keeper::RecordingKeeper;
use bp_page::{Format, Geometry, Image, PageNo, Refusal};
use bp_part_workers::{PartedClient, PartedRun, PartedWorker, SharedLog, run_parted};
use bp_parts::{PartCount, PartedPool};
use bp_ports::{Port, Store, StripedPort};
use bp_shared::PartNames;
use std::fs::File;
use std::process::Abort;
use std::rt::Files;
use std::sync::{Mutex, Wait};
use std::thread::Threads;
use std::{fs, process};

/// A page file of version 1, of six pages of 16 bytes.
const FILE: &str = "page 0, part 0.
page 1, part 1.
page 2, part 0.
page 3, part 1.
page 4, part 0.
page 5, part 1.
";

/// Looks at page 3 of the file three times, from byte 8 on at last, and then at page 4 from there on.
#[derive(Drop)]
struct Looker {
    away: [u8; 16],
    in_frame: [u8; 16],
    end: [u8; 6],
    other: [u8; 6],
    refused: Option<Refusal>,
    /// The pages of all parts that are pinned after the looks.
    pinned: Option<usize>,
}

/// Copies bytes of a page of the file.
fn look<N: PartNames + PartCount, S: Store, R: Wait>(
    rt: &R,
    pool: &PartedPool<N>,
    client: &mut PartedClient<N, S>,
    page: u64,
    offset: u32,
    into: &mut [u8],
) -> Result<(), Refusal>
    ensures client { client.new.session.client ≡ client.old.session.client }
{
    let Some(page) = client.page(page) else {
        return Err(Refusal::OutOfPage);
    };
    if !client.port.geometry().fits(offset as usize, into.len()) {
        return Err(Refusal::OutOfPage);
    }
    pool.read_page_into(
        rt,
        &mut client.session,
        &mut client.port,
        page,
        offset,
        into,
    )
}

impl<S: Store> PartedWorker<S, RecordingKeeper, ()> for Looker {
    fn work<N: PartNames + PartCount, R: Wait>(
        &mut self,
        rt: &R,
        pool: &PartedPool<N>,
        client: &mut PartedClient<N, S>,
        _log: &Mutex<SharedLog<N>>,
    ) {
        let away = look(rt, pool, client, 3, 0, &mut self.away);
        let in_frame = look(rt, pool, client, 3, 0, &mut self.in_frame);
        let end = look(rt, pool, client, 3, 8, &mut self.end);
        let other = look(rt, pool, client, 4, 8, &mut self.other);
        self.refused = away.and(in_frame).and(end).and(other).err();
        self.pinned = Some(pool.stats_of_all(rt, &mut client.session).pinned);
    }
}

/// Runs one looker over two parts of the file.
fn run_looker<R: Threads + Wait + Sync + Abort + AllocGlobal + Files<File = File>>(
    rt: &R,
    path: &str,
) -> PartedRun<Looker> {
    let opened = StripedPort::open(rt, rt.alloc(), path, 16, Format::Plain, 2);
    let (mut ports, mut workers) = (Vec::new(rt.alloc()), Vec::new(rt.alloc()));
    ports.push(opened.expect(rt, "a port")).expect(rt, "memory");
    let looker = Looker {
        away: [0; 16],
        in_frame: [0; 16],
        end: [0; 6],
        other: [0; 6],
        refused: None,
        pinned: None,
    };
    workers.push(looker).expect(rt, "memory");
    let config = Config::new(Geometry::new(3, 16).expect(rt, "the geometry"))
        .with_frames(2)
        .with_settings(Settings::new(2, 0, 1000).expect(rt, "settings"))
        .with_room(100);
    let ran = run_parted::<RecordingKeeper, _, _, _, _>(
        rt,
        rt.alloc(),
        config,
        2,
        ports,
        workers,
        (),
    );
    ran.expect(rt, "a run")
}

/// Adds an entry of client 0.
fn add<R: Abort>(rt: &R, trail: &mut Vec<Entry>, call: Call, reply: Reply) {
    let client = 0;
    let entry = Entry {
        client,
        call,
        reply,
    };
    trail.push(entry).expect(rt, "memory");
}

fn image<R: Abort + AllocGlobal>(rt: &R, text: &str) -> Image {
    Image::of(rt.alloc(), text.as_bytes()).expect(rt, "an image")
}

/// The entries of a look at a page of a part that is away, with this text: it gives the first ticket and the first pass.
fn first_look<R: Abort + AllocGlobal>(rt: &R, page: PageNo, text: &str) -> Vec<Entry> {
    let (mut trail, ticket) = (Vec::new(rt.alloc()), 0);
    let evicted = None;
    add(
        rt,
        &mut trail,
        Call::Fix(page),
        Reply::Load { ticket, evicted },
    );
    let image = Some(image(rt, text));
    add(
        rt,
        &mut trail,
        Call::ReadEnd {
            ticket,
            page,
            image,
        },
        Reply::Fixed(0),
    );
    add_end(rt, &mut trail, page, 0, text);
    trail
}

/// Adds the entries of a look at a page that is in a frame.
fn add_look<R: Abort + AllocGlobal>(
    rt: &R,
    trail: &mut Vec<Entry>,
    page: PageNo,
    pass: u64,
    text: &str,
) {
    add(rt, trail, Call::Fix(page), Reply::Hit(pass));
    add_end(rt, trail, page, pass, text);
}

/// Adds the read and the unfix by a pass.
fn add_end<R: Abort + AllocGlobal>(
    rt: &R,
    trail: &mut Vec<Entry>,
    page: PageNo,
    pass: u64,
    text: &str,
) {
    add(
        rt,
        trail,
        Call::Read { pass, page },
        Reply::Content(image(rt, text)),
    );
    add(rt, trail, Call::Unfix { pass, page }, Reply::Done);
}

/// Asserts that a part's trail has these entries, which are legal.
fn expect_trail<R: Abort + AllocGlobal>(rt: &R, core: &Core, wanted: &[Entry]) {
    let setup = Setup {
        geometry: core.geometry(),
        settings: core.settings(),
        frames: core.frames(),
        clients: core.clients(),
    };
    let judged = first_unlawful(rt.alloc(), &setup, core.trail()).expect(rt, "a judge");
    assert_eq!(rt; judged, None);
    assert_eq!(rt; core.trail(), wanted);
}

/// Each look has the bytes of its page, and is a fix, a read and an unfix in its part's trail: the first of a page reads
/// it from the device, and none leaves it pinned.
#[test]
fn looks_at_pages_of_both_parts(rt: HostRuntime) {
    let rt = &rt;
    let path = scratch(rt, process::id(rt.process()), "looks");
    fs::write(rt, path.as_path(), FILE).expect(rt, "the file is written");
    let run = run_looker(rt, path.as_path().as_str());
    fs::remove_file(rt, path.as_path()).expect(rt, "the file is removed");
    let looker = &run.left.first().expect(rt, "the looker").worker;
    assert_eq!(rt; (looker.refused, looker.pinned), (None, Some(0)));
    assert_eq!(rt;
        (&looker.away, &looker.in_frame),
        (b"page 3, part 1.\n", b"page 3, part 1.\n")
    );
    assert_eq!(rt; (&looker.end, &looker.other), (b"part 1", b"part 0"));
    // Page 4 of the file is page 2 of part 0, and page 3 is page 1 of part 1.
    let zero = first_look(rt, PageNo::new(2), "page 4, part 0.\n");
    let mut one = first_look(rt, PageNo::new(1), "page 3, part 1.\n");
    add_look(rt, &mut one, PageNo::new(1), 1, "page 3, part 1.\n");
    add_look(rt, &mut one, PageNo::new(1), 2, "page 3, part 1.\n");
    let books = run.books.first().expect(rt, "the client's books");
    assert!(rt; run.cores.len() == 2 && books.len() == 2);
    expect_trail(rt, &run.cores[0], &zero);
    expect_trail(rt, &run.cores[1], &one);
    for part in 0..2 {
        let (core, book) = (&run.cores[part], &books[part]);
        assert_eq!(rt; book.held_count(), 0);
        assert!(rt; agrees(core.trail(), book.said(), 0), "part {part}");
    }
}
