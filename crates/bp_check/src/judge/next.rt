//! `with`: adds one lawful entry to the entries so far.
ghost use Rattle.std.specs.Prelude.{◌≡◌, ◌∷◌, ◌<◌, ◌+◌, ◌^◌, length, if◌then◌else◌, Some, IfOk, OnOk};
ghost use Rattle.bp_trail.specs.Trail.{Trail};
ghost use Rattle.bp_trail.specs.Event as event;
ghost use Rattle.bp_trail.specs.Passes as passes;
ghost use Rattle.bp_trail.specs.Legal.{IsLawful};
ghost use Rattle.bp_check.specs.Setups.{parameters_of};
ghost use Rattle.bp_check.specs.Seen.{passed_on, pages_after, KeepsSpans};

use crate::events::{
    discards, left, loaded, marked, page_of, pass_back, pass_of, read_ticket_back, read_ticket_of,
    ticket_given, ticks, write_ticket_back, write_ticket_of,
};
use crate::grants::Grants;
use crate::judge::Judge;
use crate::pages::{at_least, note_pages};
use crate::residents::Residents;
use crate::setup::Setup;
use crate::spans::{Span, drop_at, forget, refer_at};
use bp_trail::{Entry, Reply};
use std::alloc::AllocError;

/// Notes the reference that an entry makes, or forgets those that a discard or a purge does.
fn note_references(
    setup: &Setup,
    clock: u64,
    residents: &Residents,
    reads_out: &Grants,
    spans: &mut [Vec<Span>],
    e: &Entry,
) -> Result<(), AllocError>
    requires in_file { (g : event.Grant) → passes.pass_of e.now ≡ Some g →
        event.page_of e.now.call < length spans.old }
    ensures count { length spans.new ≡ length spans.old }
    ensures noted { OnOk result ((past : Trail) →
        KeepsSpans (parameters_of setup.now 0) past e.now clock residents.now reads_out.now
        spans.old spans.new) }
{
    let page = page_of(&e.call);
    let correlated = setup.settings.correlated;
    if discards(page, e) {
        drop_at(spans, page);
        return Ok(());
    }
    match &e.reply {
        Reply::Hit(_) => {
            refer_at(spans, page, correlated, true, clock)?;
            Ok(())
        }
        Reply::Fixed(_) => {
            refer_at(spans, page, correlated, false, clock)?;
            Ok(())
        }
        Reply::Forgot(_) => {
            let retained = setup.settings.retained;
            forget(spans, retained, clock, residents, reads_out);
            Ok(())
        }
        _ => Ok(()),
    }
}

/// Updates the passes and tickets that are out, and the resident pages, by one entry.
fn pass_on(
    passes_out: &mut Grants,
    reads_out: &mut Grants,
    writes_out: &mut Grants,
    residents: &mut Residents,
    e: &Entry,
) -> Result<(), AllocError>
    ensures passes { OnOk result (passes_out.new ≡
        passed_on (passes.pass_of e.now) (event.pass_back e.now.call) passes_out.old) }
    ensures reads { OnOk result (reads_out.new ≡
        passed_on (passes.read_ticket_of e.now) (event.read_ticket_back e.now.call) reads_out.old) }
    ensures writes { OnOk result (writes_out.new ≡
        passed_on (passes.write_ticket_of e.now) (event.write_ticket_back e.now.call)
        writes_out.old) }
    ensures residents { OnOk result (residents.new ≡ pages_after e.now residents.old) }
{
    passes_out.pass_on(pass_back(&e.call), pass_of(e))?;
    reads_out.pass_on(read_ticket_back(&e.call), read_ticket_of(e))?;
    writes_out.pass_on(write_ticket_back(&e.call), write_ticket_of(e))?;
    residents.pass_on(left(e), loaded(e))
}

fn one_if(given: bool) -> u64
    ensures { result ≡ (if given then 1 else 0) }
{
    if given { 1 } else { 0 }
}

impl Judge {
    /// Adds an entry, which is lawful after those so far. It fails by want of memory alone.
    pub(super) fn with(self, e: &Entry) -> Result<Judge, AllocError>
        requires lawful { IsLawful self.parameters self.past e.now }
        requires few { length self.past + 1 < 2 ^ 64 }
        ensures { IfOk result (λ judge. judge ≡
            record self { past = e.now ∷ self.past }) }
    {
        let Judge {
            setup,
            told,
            count,
            clock,
            durable,
            passes,
            tickets,
            mut passes_out,
            mut reads_out,
            mut writes_out,
            mut residents,
            mut pages,
            mut spans,
        } = self;
        note_references(&setup, clock, &residents, &reads_out, &mut spans, e)?;
        note_pages(&mut pages, e)?;
        pass_on(
            &mut passes_out,
            &mut reads_out,
            &mut writes_out,
            &mut residents,
            e,
        )?;
        Ok(Judge {
            setup,
            told: told.then(e),
            count: count + 1,
            clock: clock + ticks(&e.call).unwrap_or(0),
            durable: at_least(marked(&e.call), durable),
            passes: passes + one_if(pass_of(e).is_some()),
            tickets: tickets + one_if(ticket_given(&e.reply).is_some()),
            passes_out,
            reads_out,
            writes_out,
            residents,
            pages,
            spans,
        })
    }
}
