//! `write_chart`, which draws hit ratios over frames as SVG.
ghost use Rattle.std.specs.Prelude.{◌≡◌, OnOk};
ghost use Rattle.std.specs.Io.KnownBytes.{Appends};
ghost use Rattle.bp_charts.specs.Scale.{IsScale};
ghost use Rattle.bp_charts.specs.Chart.{chart_text, line_text, lines_text};

use crate::axis::{write_ratios, write_ticks};
use crate::curves::Curve;
use crate::fixed::HEAD;
use crate::labels::{write_legend, write_style};
use crate::places::{write_marks, write_places};
use crate::scale::{Scale, scale_of};
use std::io;
use std::io::Write;

fn write_text<W: Write>(text: &str, writer: &mut W) -> io::Result<()>
    ensures { OnOk result (Appends (W.contents writer.old) (W.contents writer.new) text.now) }
{
    writer.write_all(text.as_bytes())
}

/// Writes one line with its marks and its row of the legend.
fn write_line<W: Write>(
    scale: &Scale,
    number: usize,
    line: &Curve,
    writer: &mut W,
) -> io::Result<()>
    requires { IsScale scale.now }
    ensures { OnOk result (Appends (W.contents writer.old) (W.contents writer.new)
        (line_text scale.now number line.now)) }
{
    let points = line.points.as_slice();
    write_style(line.which, number, writer)?;
    write_text("<polyline points='", writer)?;
    write_places(scale, points, writer)?;
    write_text("'/>\n", writer)?;
    write_marks(scale, points, writer)?;
    write_legend(line.which, number, writer)
}

fn write_lines<W: Write>(scale: &Scale, lines: &[Curve], writer: &mut W) -> io::Result<()>
    requires { IsScale scale.now }
    ensures { OnOk result (Appends (W.contents writer.old) (W.contents writer.new)
        (lines_text scale.now 0 lines.now)) }
{
    let mut number: usize = 0;
    for line in lines {
        write_line(scale, number, line, writer)?;
        number += 1;
    }
    Ok(())
}

/// Writes a picture of hit ratios over frames: SVG, 940 by 520 pixels. It has a grid, a legend, and each line with
/// marks, a colour and a dash of its own. The axis of frames begins and ends at powers of two around all points, and
/// each doubling has the same width. The axis of hit ratios begins and ends at tenths around all points. With no lines it
/// has only the axes.
///
/// The legend has room for 18 lines; points have no limit. A point with more hits than fixes is drawn at a ratio of 1,
/// one without fixes at 0, and one without frames as one with one frame.
///
/// A fault of the writer is passed on; the writer may then hold any part of the picture.
pub fn write_chart<W: Write>(lines: &[Curve], writer: &mut W) -> io::Result<()>
    ensures { OnOk result (Appends (W.contents writer.old) (W.contents writer.new)
        (chart_text lines.now)) }
{
    let scale = scale_of(lines);
    write_text(HEAD, writer)?;
    write_ratios(&scale, writer)?;
    write_ticks(&scale, writer)?;
    write_text("<path class='axis' d='M800 400v4000h6400'/>\n", writer)?;
    write_lines(&scale, lines, writer)?;
    write_text("</svg>\n", writer)
}
