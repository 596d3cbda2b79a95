//! A ticket that is given to another core.
ghost use Rattle.std.specs.Prelude.{◌≡◌, length};

use bp_core::{Core, EndRefusal, Fix, ReadTicket, Settings};
use bp_page::{Geometry, Image, PageNo};
use std::process::Abort;

/// Makes a core of one frame for one client, over four pages of 16 bytes.
fn new_core(rt: &(impl Abort + AllocGlobal)) -> Core {
    let geometry = Geometry::new(4, 16).expect(rt, "the geometry");
    let settings = Settings::new(2, 0, 1000).expect(rt, "the settings");
    Core::new(rt.alloc(), geometry, settings, 1, 1, 100).expect(rt, "the core")
}

/// Returns the ticket to read that a fix of page 1 gives.
fn ticket_of(rt: &impl Abort, core: &mut Core) -> ReadTicket {
    assert!(rt; core.clients() == 1);
    assert!(rt; core.geometry().pages == 4);
    match core.fix(0, PageNo::new(1)) {
        Ok(Fix::Load(ticket, _)) => ticket,
        Ok(Fix::Hit(pass)) => panic!(rt; "pass {} was given", pass.note().serial()),
        Ok(Fix::WriteFirst(ticket)) => {
            ticket.forfeit();
            panic!(rt; "a page has to go out")
        }
        Err(refusal) => panic!(rt; "{refusal}"),
    }
}

fn blank(rt: &(impl Abort + AllocGlobal), geometry: &Geometry) -> Image
    ensures { length result ≡ geometry.now.size }
{
    Image::blank(rt.alloc(), geometry).expect(rt, "the image")
}

/// Ends the read with an image of zeros. It returns the ticket where the core did not give it.
fn end_read(
    rt: &(impl Abort + AllocGlobal),
    core: &mut Core,
    ticket: ReadTicket,
) -> Option<ReadTicket> {
    let geometry = core.geometry();
    let image = blank(rt, &geometry);
    match core.read_end(ticket, Ok(image)) {
        Ok(pass) => {
            assert!(rt; pass.note().serial() == 0);
            None
        }
        Err(EndRefusal::Failed(refusal)) => panic!(rt; "{refusal}"),
        Err(EndRefusal::Unknown(ticket, read)) => {
            assert!(rt; read.is_ok());
            Some(ticket)
        }
    }
}

/// Asserts that a core refuses a ticket and makes no entry. It returns the ticket.
fn refused_by(rt: &(impl Abort + AllocGlobal), core: &mut Core, ticket: ReadTicket) -> ReadTicket {
    let Some(ticket) = end_read(rt, core, ticket) else {
        panic!(rt; "the other core gave a pass");
    };
    assert!(rt; core.trail().is_empty());
    ticket
}

/// Asserts that a core takes its own ticket.
fn expect_taken(rt: &(impl Abort + AllocGlobal), core: &mut Core, ticket: ReadTicket) {
    if let Some(ticket) = end_read(rt, core, ticket) {
        ticket.forfeit();
        panic!(rt; "its own core does not know it");
    }
    assert_eq!(rt; core.trail().len(), 2);
}

// Another core refuses the ticket and returns it with the image. It is still good for its own core.
#[test]
fn ticket_goes_to_another_core_and_back(rt: HostRuntime) {
    let mut own = new_core(&rt);
    let mut other = new_core(&rt);
    let ticket = ticket_of(&rt, &mut own);
    let ticket = refused_by(&rt, &mut other, ticket);
    expect_taken(&rt, &mut own, ticket);
    drop(own);
    drop(other);
}
