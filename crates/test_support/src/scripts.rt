//! Scripts as text, with a row of a trace on each line.
ghost use Rattle.std.specs.Prelude.{◌≡◌, All, IsTrue};
ghost use Rattle.bp_scripts.specs.Fits.{RowFits};

use bp_core::Core;
use bp_page::Geometry;
use bp_scripts::{Row, Step};
use bp_trace::{InputFault, TraceFault, read_script};
use std::alloc::Global;

/// Parses the rows of a text, numbered from 1. Where memory is refused, it tries again.
pub fn rows_of(alloc: Global, geometry: &Geometry, text: &str) -> Result<Vec<Row>, TraceFault> {
    match read_script(alloc, &mut text.as_bytes(), geometry) {
        Ok(rows) => Ok(rows),
        Err(_) => read_script(alloc, &mut text.as_bytes(), geometry),
    }
}

/// Parses the rows of a text into a script for each of so many clients. The rows are numbered over the whole text.
/// Where memory is refused, it tries again.
pub fn scripts_of(
    alloc: Global,
    geometry: &Geometry,
    clients: usize,
    text: &str,
) -> Result<Vec<Vec<Row>>, TraceFault> {
    let scripts = match by_client(alloc, clients, rows_of(alloc, geometry, text)?) {
        None => by_client(alloc, clients, rows_of(alloc, geometry, text)?),
        scripts => scripts,
    };
    match scripts {
        Some(scripts) => Ok(scripts),
        None => Err(TraceFault::new(0, InputFault::OutOfMemory)),
    }
}

/// Makes an empty script for each client. It returns None where memory is refused.
fn no_rows(alloc: Global, clients: usize) -> Option<Vec<Vec<Row>>> {
    let mut scripts = Vec::new(alloc);
    for _ in 0..clients {
        scripts.push(Vec::new(alloc)).ok()?;
    }
    Some(scripts)
}

/// Adds a row to its client's script. It returns None where memory is refused, or there is no such client.
fn add_row(scripts: &mut [Vec<Row>], row: Row) -> Option<()> {
    let script: &mut Vec<Row> = scripts.get_mut(row.client as usize)?;
    script.push(row).ok()
}

/// Splits the rows by client. It returns None where memory is refused, or there is no such client.
fn by_client(alloc: Global, clients: usize, rows: Vec<Row>) -> Option<Vec<Vec<Row>>> {
    let mut scripts = no_rows(alloc, clients)?;
    for row in rows {
        add_row(&mut scripts, row)?;
    }
    Some(scripts)
}

/// Returns true if the core's parameters allow the row.
fn row_fits(core: &Core, row: &Row) -> bool
    ensures { IsTrue result → RowFits core.now.parameters row.now }
{
    let geometry = core.geometry();
    row.client < core.clients()
        && match &row.step {
            Step::Fix(page)
            | Step::Unfix(page)
            | Step::Read(page)
            | Step::Flush(page)
            | Step::Discard(page) => page.number() < geometry.pages,
            Step::Write {
                page,
                offset,
                bytes,
                ..
            } => {
                page.number() < geometry.pages
                    && geometry.fits(*offset as usize, bytes.bytes().len())
            }
            Step::Tick(_) | Step::Purge | Step::Log(_) => true,
        }
}

/// Returns true if the core's parameters allow all rows, so that a driver takes them.
pub fn rows_fit(core: &Core, rows: &[Row]) -> bool
    ensures { IsTrue result → All (RowFits core.now.parameters) rows.now }
{
    rows.iter().all(|row| row_fits(core, row))
}
