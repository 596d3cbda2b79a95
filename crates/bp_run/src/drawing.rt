//! `picture_of`, which draws the table of a sweep as SVG.
ghost use Rattle.std.specs.Prelude.{◌≡◌, ◌++◌, map, IfOk, OnOk};
ghost use Rattle.bp_run.specs.Drawing.{AreShown, Pictures, cell_of, if_among, names_of};

use bp_charts::{Cell, Line, Point, Which, lines_of, write_chart};
use bp_core::MAX_STAMPS;
use std::alloc::{AllocError, Global};

fn cell_of(line: &Line) -> Cell
    ensures { result ≡ cell_of line.now }
{
    let which = match line.k {
        Some(k) => Which::K(k),
        None => Which::Optimum,
    };
    Cell {
        which,
        point: Point {
            frames: line.frames,
            hits: line.hits,
            fixes: line.fixes,
        },
    }
}

/// Returns the cells of a table, in its order.
fn cells_in(alloc: Global, table: &[Line]) -> Result<Vec<Cell>, AllocError>
    ensures { IfOk result (λ cells. cells.items ≡ map cell_of table.now) }
{
    let mut cells = Vec::new(alloc);
    for line in table {
        cells.push(cell_of(line))?;
    }
    Ok(cells)
}

/// Returns the cells of a table, by increasing number of frames.
fn cells_of(alloc: Global, table: &[Line]) -> Result<Vec<Cell>, AllocError>
    ensures { IfOk result (λ cells. AreShown table.now cells.items) }
{
    let mut cells = cells_in(alloc, table)?;
    cells.sort_by_key(|cell: &Cell| cell.point.frames)?;
    Ok(cells)
}

/// Adds the name of this K, if it is among these.
fn add_name(names: &mut Vec<Which>, ks: &[usize], k: usize) -> Result<(), AllocError>
    ensures { OnOk result (names.new.items ≡ names.old.items ++ if_among ks.now k) }
{
    if ks.contains(&k) {
        names.push(Which::K(k))?;
    }
    Ok(())
}

/// Returns the names of the lines: one for each of these K, the least first, and one for the optimum.
fn names_of(alloc: Global, ks: &[usize]) -> Result<Vec<Which>, AllocError>
    ensures { IfOk result (λ names. names.items ≡ names_of ks.now) }
{
    let mut names = Vec::new(alloc);
    for less in 0..MAX_STAMPS {
        add_name(&mut names, ks, less + 1)?;
    }
    names.push(Which::Optimum)?;
    Ok(names)
}

/// Returns the picture of a table over these K, as the bytes of an SVG file.
pub(crate) fn picture_of(alloc: Global, ks: &[usize], table: &[Line]) -> Result<Vec<u8>, AllocError>
    ensures { IfOk result (λ bytes. Pictures ks.now table.now bytes.items) }
{
    let cells = cells_of(alloc, table)?;
    let names = names_of(alloc, ks)?;
    let lines = lines_of(alloc, &names, &cells)?;
    let mut bytes = Vec::new(alloc);
    match write_chart(&lines, &mut bytes) {
        Ok(()) => Ok(bytes),
        Err(_) => Err(AllocError),
    }
}
