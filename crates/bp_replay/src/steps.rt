//! `step`: the call on a shared pool that each step of a script makes.
ghost use Rattle.std.specs.Prelude.{◌≡◌, ◌≢◌, ◌+◌, ◌≤◌, ◌<◌, Err, true};
ghost use Rattle.std.specs.Prelude.{◌∷◌, length};
ghost use Rattle.bp_page.specs.declared.refusals.Refusal.TheVariants as Refusal;
ghost use Rattle.bp_scripts.specs.declared.rows.Step.TheVariants as Step;
ghost use Rattle.bp_scripts.specs.Fits.{StepFits};
ghost use Rattle.bp_trail.specs.Pieces.{outcome_of};
ghost use Rattle.bp_trail.specs.HeldPasses.{unfix_of, held_passes};
ghost use Rattle.bp_trail.specs.Legal.{is_out};
ghost use Rattle.bp_trail.specs.Passes.{passes_out};
ghost use Rattle.bp_scripts.specs.Script.{latest_pass};
ghost use Rattle.bp_shared.specs.Sessions.{DoesWorkSaid};
ghost use Rattle.bp_replay.specs.Steps.{GivesEachOnce, Stays, StepSaid, StepWork};

use crate::held_list::HeldList;
use bp_core::PassNote;
use bp_page::{Bytes, Lsn, PageNo, Refusal};
use bp_ports::Port;
use bp_scripts::Step;
use bp_shared::{PoolName, Session, SharedPool};
use bp_workers::Client;
use std::sync::Wait;

/// Gives back a pass that the session holds.
fn unfix_note<N: PoolName, R: Wait>(
    rt: &R,
    pool: &SharedPool<N>,
    session: &mut Session<N>,
    note: PassNote,
)
    requires held { is_out note (passes_out session.old.said) ≡ true }
    ensures client { session.new.client ≡ session.old.client }
    ensures before { session.new.before ≡ session.old.before }
    ensures seen { session.new.seen ≡ session.old.seen }
    ensures said { session.new.said ≡ unfix_of note ∷ session.old.said }
{
    match pool.unfix_draining(rt, session, note.pass()) {
        Ok(()) => {}
        Err((_pass, _)) => unreachable!(),
    }
}

fn fix<N: PoolName, P: Port, R: Wait>(
    rt: &R,
    pool: &SharedPool<N>,
    client: &mut Client<N, P>,
    held: &mut HeldList,
    page: PageNo,
) -> Result<(), Refusal>
    requires page_in { page < N.parameters.pages }
    requires held { held.old.passes ≡ held_passes client.old.session.said }
    ensures same { Stays client.old.session client.new.session }
    ensures work { DoesWorkSaid P.read_gives P.write_gives client.old.session.said
        client.new.session.said
        client.old.port client.new.port }
    ensures known { result ≢ Err Refusal.UnknownTicket }
    ensures outcome { StepSaid client.old.session.client (Step.Fix page)
        (outcome_of result) client.old.session.said client.new.session.said }
    ensures held { held.new.passes ≡ held_passes client.new.session.said }
{
    held.reserve(1)?;
    let pass = pool.fix(rt, &mut client.session, &mut client.port, page)?;
    held.push(pass.note());
    Ok(())
}

fn flush<N: PoolName, P: Port, R: Wait>(
    rt: &R,
    pool: &SharedPool<N>,
    client: &mut Client<N, P>,
    page: PageNo,
) -> Result<(), Refusal>
    requires page_in { page < N.parameters.pages }
    ensures same { Stays client.old.session client.new.session }
    ensures work { DoesWorkSaid P.read_gives P.write_gives client.old.session.said
        client.new.session.said
        client.old.port client.new.port }
    ensures known { result ≢ Err Refusal.UnknownTicket }
    ensures outcome { StepSaid client.old.session.client (Step.Flush page)
        (outcome_of result) client.old.session.said client.new.session.said }
    ensures held { held_passes client.new.session.said ≡ held_passes client.old.session.said }
{
    pool.flush(rt, &mut client.session, &mut client.port, page)?;
    Ok(())
}

fn discard<N: PoolName, P: Port, R: Wait>(
    rt: &R,
    pool: &SharedPool<N>,
    client: &mut Client<N, P>,
    page: PageNo,
) -> Result<(), Refusal>
    requires page_in { page < N.parameters.pages }
    ensures same { Stays client.old.session client.new.session }
    ensures port { client.new.port ≡ client.old.port }
    ensures known { result ≢ Err Refusal.UnknownTicket }
    ensures outcome { StepSaid client.old.session.client (Step.Discard page)
        (outcome_of result) client.old.session.said client.new.session.said }
    ensures held { held_passes client.new.session.said ≡ held_passes client.old.session.said }
{
    pool.discard(rt, &mut client.session, page)?;
    Ok(())
}

/// Returns the pass of the page that the client took latest and still holds.
fn latest<N: PoolName, P: Port>(
    client: &Client<N, P>,
    held: &HeldList,
    page: PageNo,
) -> Option<PassNote>
    requires held { held.now.passes ≡ held_passes client.now.session.said }
    ensures { result ≡ latest_pass client.now.session.said client.now.session.client page }
{
    held.latest(client.session.client(), page)
}

/// Looks at the page by the pass that the client took latest.
fn read<N: PoolName, P: Port, R: Wait>(
    rt: &R,
    pool: &SharedPool<N>,
    client: &mut Client<N, P>,
    held: &HeldList,
    page: PageNo,
) -> Result<(), Refusal>
    requires held { held.now.passes ≡ held_passes client.old.session.said }
    ensures same { Stays client.old.session client.new.session }
    ensures port { client.new.port ≡ client.old.port }
    ensures known { result ≢ Err Refusal.UnknownTicket }
    ensures outcome { StepSaid client.old.session.client (Step.Read page)
        (outcome_of result) client.old.session.said client.new.session.said }
    ensures held { held_passes client.new.session.said ≡ held_passes client.old.session.said }
{
    let Some(note) = latest(client, held, page) else {
        return Err(Refusal::UnknownPass);
    };
    let pass = note.pass();
    let read = pool.read_into(rt, &mut client.session, &pass, 0, &mut []);
    pass.note();
    read
}

/// Writes to the page by the pass that the client took latest.
fn write<N: PoolName, P: Port, R: Wait>(
    rt: &R,
    pool: &SharedPool<N>,
    client: &mut Client<N, P>,
    held: &HeldList,
    page: PageNo,
    offset: u32,
    bytes: &Bytes,
    lsn: Lsn,
) -> Result<(), Refusal>
    requires fits { offset + length bytes.now ≤ N.parameters.size }
    requires held { held.now.passes ≡ held_passes client.old.session.said }
    ensures same { Stays client.old.session client.new.session }
    ensures port { client.new.port ≡ client.old.port }
    ensures known { result ≢ Err Refusal.UnknownTicket }
    ensures outcome { StepSaid client.old.session.client (Step.Write page offset bytes.now lsn)
        (outcome_of result) client.old.session.said client.new.session.said }
    ensures held { held_passes client.new.session.said ≡ held_passes client.old.session.said }
{
    let Some(note) = latest(client, held, page) else {
        return Err(Refusal::UnknownPass);
    };
    let pass = note.pass();
    let written = pool.write_from(rt, &mut client.session, &pass, offset, bytes.bytes(), lsn);
    pass.note();
    written
}

/// Gives back the pass of the page that the client took latest.
fn unfix<N: PoolName, P: Port, R: Wait>(
    rt: &R,
    pool: &SharedPool<N>,
    client: &mut Client<N, P>,
    held: &mut HeldList,
    page: PageNo,
) -> Result<(), Refusal>
    requires once { GivesEachOnce client.old.session.said }
    requires held { held.old.passes ≡ held_passes client.old.session.said }
    ensures same { Stays client.old.session client.new.session }
    ensures port { client.new.port ≡ client.old.port }
    ensures known { result ≢ Err Refusal.UnknownTicket }
    ensures outcome { StepSaid client.old.session.client (Step.Unfix page)
        (outcome_of result) client.old.session.said client.new.session.said }
    ensures held { held.new.passes ≡ held_passes client.new.session.said }
{
    let Some(note) = latest(client, held, page) else {
        return Err(Refusal::UnknownPass);
    };
    unfix_note(rt, pool, &mut client.session, note);
    held.take_latest(client.session.client(), page);
    Ok(())
}

fn tick<N: PoolName, P: Port, R: Wait>(
    rt: &R,
    pool: &SharedPool<N>,
    client: &mut Client<N, P>,
    n: u64,
) -> Result<(), Refusal>
    ensures same { Stays client.old.session client.new.session }
    ensures port { client.new.port ≡ client.old.port }
    ensures known { result ≢ Err Refusal.UnknownTicket }
    ensures outcome { StepSaid client.old.session.client (Step.Tick n)
        (outcome_of result) client.old.session.said client.new.session.said }
    ensures held { held_passes client.new.session.said ≡ held_passes client.old.session.said }
{
    pool.tick(rt, &mut client.session, n)
}

fn purge<N: PoolName, P: Port, R: Wait>(
    rt: &R,
    pool: &SharedPool<N>,
    client: &mut Client<N, P>,
) -> Result<(), Refusal>
    ensures same { Stays client.old.session client.new.session }
    ensures port { client.new.port ≡ client.old.port }
    ensures known { result ≢ Err Refusal.UnknownTicket }
    ensures outcome { StepSaid client.old.session.client Step.Purge
        (outcome_of result) client.old.session.said client.new.session.said }
    ensures held { held_passes client.new.session.said ≡ held_passes client.old.session.said }
{
    pool.purge(rt, &mut client.session)?;
    Ok(())
}

/// Makes the call that a step asks for, with the passes that the client holds at hand. A log row asks nothing of the
/// pool. The pool knows what it gave: so every refusal is the row's.
pub(crate) fn step<N: PoolName, P: Port, R: Wait>(
    rt: &R,
    pool: &SharedPool<N>,
    client: &mut Client<N, P>,
    held: &mut HeldList,
    step: &Step,
) -> Result<(), Refusal>
    requires fits { StepFits N.parameters step.now }
    requires once { GivesEachOnce client.old.session.said }
    requires held { held.old.passes ≡ held_passes client.old.session.said }
    ensures same { Stays client.old.session client.new.session }
    ensures work { StepWork P.read_gives P.write_gives step.now client.old.session.said
        client.new.session.said
        client.old.port client.new.port }
    ensures known { result ≢ Err Refusal.UnknownTicket }
    ensures outcome { StepSaid client.old.session.client step.now
        (outcome_of result) client.old.session.said client.new.session.said }
    ensures held { held.new.passes ≡ held_passes client.new.session.said }
{
    match step {
        Step::Fix(page) => fix(rt, pool, client, held, *page),
        Step::Unfix(page) => unfix(rt, pool, client, held, *page),
        Step::Read(page) => read(rt, pool, client, held, *page),
        Step::Write {
            page,
            offset,
            bytes,
            lsn,
        } => write(rt, pool, client, held, *page, *offset, bytes, *lsn),
        Step::Flush(page) => flush(rt, pool, client, *page),
        Step::Discard(page) => discard(rt, pool, client, *page),
        Step::Tick(n) => tick(rt, pool, client, *n),
        Step::Purge => purge(rt, pool, client),
        Step::Log(_) => Ok(()),
    }
}
