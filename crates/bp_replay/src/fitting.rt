//! `scripts_fit`: checks that scripts may be run over a pool of client threads.
ghost use Rattle.std.specs.Prelude.{◌≡◌, ℕ, ◌<◌, ◌≤◌, ◌↔◌, IsTrue, None, length};
ghost use Rattle.bp_trail.specs.Parameters.{Parameters};
ghost use Rattle.bp_scripts.specs.Fits.{StepFits};
ghost use Rattle.bp_scripts.specs.LogBound.{log_of};
ghost use Rattle.bp_replay.specs.Scripts.{lists, EachScriptFits, RowFitsClient, ScriptFits};
ghost use Rattle.bp_core.specs.Agreement.{parameters_with};

use bp_core::Config;
use bp_core::config::MAX_CLIENTS;
use bp_page::{Geometry, PageNo};
use bp_scripts::{Row, Step};

fn has_page(geometry: &Geometry, page: PageNo) -> bool
    ensures { IsTrue result ↔ page < geometry.now.pages }
{
    page.number() < geometry.pages
}

/// Returns true if the step's page is one of the file's, and its bytes lie within the page.
fn step_fits(step: &Step, geometry: &Geometry) -> bool
    ensures { (p : Parameters) → p.pages ≡ geometry.now.pages → p.size ≡ geometry.now.size →
        (IsTrue result ↔ StepFits p step.now) }
{
    match step {
        Step::Fix(page)
        | Step::Unfix(page)
        | Step::Read(page)
        | Step::Flush(page)
        | Step::Discard(page) => has_page(geometry, *page),
        Step::Write {
            page,
            offset,
            bytes,
            lsn: _,
        } => has_page(geometry, *page) && geometry.fits(*offset as usize, bytes.bytes().len()),
        Step::Tick(_) | Step::Purge | Step::Log(_) => true,
    }
}

fn is_no_log(step: &Step) -> bool
    ensures { IsTrue result ↔ log_of step.now ≡ None }
{
    !matches!(step, Step::Log(_))
}

/// Returns true if the row is one that this client may run.
fn row_fits(row: &Row, client: u8, geometry: &Geometry) -> bool
    ensures { (p : Parameters) → p.pages ≡ geometry.now.pages → p.size ≡ geometry.now.size →
        client < p.clients → (IsTrue result ↔ RowFitsClient p client row.now) }
{
    if row.client != client {
        return false;
    }
    if !step_fits(&row.step, geometry) {
        return false;
    }
    client == 0 || is_no_log(&row.step)
}

/// Returns true if all rows of a script are ones that this client may run.
fn script_fits(script: &[Row], client: u8, geometry: &Geometry) -> bool
    ensures { (p : Parameters) → p.pages ≡ geometry.now.pages → p.size ≡ geometry.now.size →
        client < p.clients → (IsTrue result ↔ ScriptFits p client script.now) }
{
    for row in script {
        if !row_fits(row, client, geometry) {
            return false;
        }
    }
    true
}

/// Returns true if `run_clients` takes these scripts: they are 1 to 64, the rows of each of its own client, of pages of
/// the file and of bytes within a page, with log rows in the first alone. It takes no memory.
pub fn scripts_fit(config: &Config, scripts: &[Vec<Row>]) -> bool
    ensures { IsTrue result ↔ ((0 < length scripts.now) × (length scripts.now ≤ 64) ×
        EachScriptFits (parameters_with config.now (length scripts.now)) (lists scripts.now)) }
{
    if scripts.is_empty() || scripts.len() > MAX_CLIENTS as usize {
        return false;
    }
    for client in 0..scripts.len() {
        if !script_fits(&scripts[client], client as u8, &config.geometry) {
            return false;
        }
    }
    true
}
