//! The lines of a chart, made from the cells of a table.
ghost use Rattle.std.specs.Prelude.{◌≡◌, ◌++◌, IfOk, OnOk};
ghost use Rattle.bp_charts.specs.Cells.{AreLines, IsLine, is_own, own_point};

use crate::curves::{Curve, Point, Which};
use std::alloc::{AllocError, Global};

/// A cell of a table: the counts of one pool, and the line of the chart that shows it.
#[derive(Clone, Copy)]
pub struct Cell {
    pub which: Which,
    pub point: Point,
}

/// Returns true if this line shows the cell.
fn is_own(which: Which, cell: &Cell) -> bool
    ensures { result ≡ is_own which cell.now.which }
{
    match which {
        Which::K(k) => match cell.which {
            Which::K(own) => k == own,
            Which::Optimum => false,
        },
        Which::Optimum => match cell.which {
            Which::K(_) => false,
            Which::Optimum => true,
        },
    }
}

/// Adds the cell's point if this line shows the cell.
fn add_point(points: &mut Vec<Point>, which: Which, cell: &Cell) -> Result<(), AllocError>
    ensures { OnOk result (points.new.items ≡ points.old.items ++ own_point which cell.now) }
{
    if is_own(which, cell) {
        points.push(cell.point)?;
    }
    Ok(())
}

/// Returns the line with the points of those cells that it shows.
fn line_of(alloc: Global, which: Which, cells: &[Cell]) -> Result<Curve, AllocError>
    ensures { IfOk result (λ line. IsLine cells.now which line) }
{
    let mut points = Vec::new(alloc);
    for cell in cells {
        add_point(&mut points, which, cell)?;
    }
    Ok(Curve { which, points })
}

/// Returns a line for each of the names, in order, with the points of the cells that it shows, in order. It is
/// `AllocError` where memory is refused.
pub fn lines_of(alloc: Global, names: &[Which], cells: &[Cell]) -> Result<Vec<Curve>, AllocError>
    ensures { IfOk result (λ lines. AreLines cells.now names.now lines.items) }
{
    let mut lines = Vec::new(alloc);
    for which in names {
        let line = line_of(alloc, *which, cells)?;
        lines.push(line)?;
    }
    Ok(lines)
}
