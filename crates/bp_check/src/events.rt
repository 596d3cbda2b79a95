//! Functions of one entry: the pass or ticket that it gives or ends, the page that it loads, writes to, or has leave. Each
//! function has the name of its definition.
ghost use Rattle.std.specs.Prelude.{◌≡◌};
ghost use Rattle.bp_trail.specs.Event as event;
ghost use Rattle.bp_trail.specs.Passes as passes;
ghost use Rattle.bp_check.specs.Pages.{saves, begun};

use bp_page::{Lsn, PageNo};
use bp_trail::{Call, Entry, Grant, Reply};

/// The page that a call names, or page 0.
pub(crate) fn page_of(call: &Call) -> PageNo
    ensures { result ≡ event.page_of call.now }
{
    match call {
        Call::Fix(page) => *page,
        Call::ReadEnd { page, .. } => *page,
        Call::WriteEnd { page, .. } => *page,
        Call::Read { page, .. } => *page,
        Call::Write { page, .. } => *page,
        Call::Unfix { page, .. } => *page,
        Call::Flush(page) => *page,
        Call::Discard(page) => *page,
        _ => PageNo::new(0),
    }
}

/// The steps that the clock takes.
pub(crate) fn ticks(call: &Call) -> Option<u64>
    ensures { result ≡ event.ticks call.now }
{
    match call {
        Call::Tick(steps) => Some(*steps),
        _ => None,
    }
}

/// The LSN that is marked durable.
pub(crate) fn marked(call: &Call) -> Option<Lsn>
    ensures { result ≡ event.marked call.now }
{
    match call {
        Call::Mark(lsn) => Some(*lsn),
        _ => None,
    }
}

/// The pass that is given.
pub(crate) fn pass_of(e: &Entry) -> Option<Grant>
    ensures { result ≡ passes.pass_of e.now }
{
    let client = e.client;
    let page = page_of(&e.call);
    match &e.reply {
        Reply::Hit(serial) => Some(Grant {
            client,
            page,
            serial: *serial,
        }),
        Reply::Fixed(serial) => Some(Grant {
            client,
            page,
            serial: *serial,
        }),
        _ => None,
    }
}

/// The read ticket that is given.
pub(crate) fn read_ticket_of(e: &Entry) -> Option<Grant>
    ensures { result ≡ passes.read_ticket_of e.now }
{
    let client = e.client;
    let page = page_of(&e.call);
    match &e.reply {
        Reply::Load { ticket, .. } => Some(Grant {
            client,
            page,
            serial: *ticket,
        }),
        _ => None,
    }
}

/// The write ticket that is given.
pub(crate) fn write_ticket_of(e: &Entry) -> Option<Grant>
    ensures { result ≡ passes.write_ticket_of e.now }
{
    match &e.reply {
        Reply::WriteFirst { ticket, page, .. } => Some(Grant {
            client: e.client,
            page: *page,
            serial: *ticket,
        }),
        _ => None,
    }
}

/// The serial number of the ticket of either kind that is given.
pub(crate) fn ticket_given(reply: &Reply) -> Option<u64>
    ensures { result ≡ event.ticket_given reply.now }
{
    match reply {
        Reply::Load { ticket, .. } => Some(*ticket),
        Reply::WriteFirst { ticket, .. } => Some(*ticket),
        _ => None,
    }
}

/// The serial number of the pass that goes back.
pub(crate) fn pass_back(call: &Call) -> Option<u64>
    ensures { result ≡ event.pass_back call.now }
{
    match call {
        Call::Unfix { pass, .. } => Some(*pass),
        _ => None,
    }
}

/// The serial number of the read ticket that goes back.
pub(crate) fn read_ticket_back(call: &Call) -> Option<u64>
    ensures { result ≡ event.read_ticket_back call.now }
{
    match call {
        Call::ReadEnd { ticket, .. } => Some(*ticket),
        _ => None,
    }
}

/// The serial number of the write ticket that goes back.
pub(crate) fn write_ticket_back(call: &Call) -> Option<u64>
    ensures { result ≡ event.write_ticket_back call.now }
{
    match call {
        Call::WriteEnd { ticket, .. } => Some(*ticket),
        _ => None,
    }
}

/// Returns true if a write-out of the page ends well.
pub(crate) fn saves(page: PageNo, call: &Call) -> bool
    ensures { result ≡ saves page call.now }
{
    match call {
        Call::WriteEnd { page: of, good, .. } => *good && *of == page,
        _ => false,
    }
}

/// Returns true if a write-out of the page begins.
pub(crate) fn begins_of(page: PageNo, reply: &Reply) -> bool
    ensures { result ≡ event.begins_of page reply.now }
{
    match reply {
        Reply::WriteFirst { page: of, .. } => *of == page,
        _ => false,
    }
}

/// The page of which a write-out begins.
pub(crate) fn begun(reply: &Reply) -> Option<PageNo>
    ensures { result ≡ begun reply.now }
{
    match reply {
        Reply::WriteFirst { page, .. } => Some(*page),
        _ => None,
    }
}

/// Returns true if a read of the page ends well.
pub(crate) fn loads(page: PageNo, e: &Entry) -> bool
    ensures { result ≡ event.loads page e.now }
{
    matches!(e.reply, Reply::Fixed(_)) && page_of(&e.call) == page
}

/// The page whose read ends well.
pub(crate) fn loaded(e: &Entry) -> Option<PageNo>
    ensures { result ≡ event.loaded (event.page_of e.now.call) e.now.reply }
{
    match &e.reply {
        Reply::Fixed(_) => Some(page_of(&e.call)),
        _ => None,
    }
}

/// The page that leaves its frame, as it is evicted or discarded.
pub(crate) fn left(e: &Entry) -> Option<PageNo>
    ensures { result ≡ event.left (event.page_of e.now.call) e.now.reply }
{
    match &e.reply {
        Reply::Load { evicted, .. } => *evicted,
        Reply::Discarded => Some(page_of(&e.call)),
        _ => None,
    }
}

fn is_discard(call: &Call) -> bool
    ensures { result ≡ event.is_discard call.now }
{
    matches!(call, Call::Discard(_))
}

fn is_away_reply(reply: &Reply) -> bool
    ensures { result ≡ event.is_away_reply reply.now }
{
    matches!(reply, Reply::Discarded | Reply::Absent)
}

/// Returns true if a discard of the page was done: it left its frame, or was in none.
pub(crate) fn discards(page: PageNo, e: &Entry) -> bool
    ensures { result ≡ event.discards page e.now }
{
    is_away_reply(&e.reply) && is_discard(&e.call) && page_of(&e.call) == page
}

/// Returns true if the page is written to.
pub(crate) fn writes(page: PageNo, e: &Entry) -> bool
    ensures { result ≡ event.writes page e.now }
{
    matches!(e.call, Call::Write { .. }) && page_of(&e.call) == page
}

/// The LSN of the write to the page.
pub(crate) fn lsn_written(page: PageNo, e: &Entry) -> Option<Lsn>
    ensures { result ≡ event.lsn_written page e.now }
{
    match &e.call {
        Call::Write { page: of, lsn, .. } => { if *of == page { Some(*lsn) } else { None } }
        _ => None,
    }
}
