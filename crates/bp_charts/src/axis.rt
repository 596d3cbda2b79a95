//! The grid lines and numbers of the axes.
ghost use Rattle.std.specs.Prelude.{◌≡◌, ◌+◌, ◌≤◌, ◌^◌, OnOk};
ghost use Rattle.std.specs.Io.KnownBytes.{Appends};
ghost use Rattle.bp_charts.specs.Scale.{IsScale};
ghost use Rattle.bp_charts.specs.Axis.{last_line, ratio_at, ratio_line_text, ratio_lines_text, step_of, tick_at, tick_text, ticks_text};

use crate::places::down_of;
use crate::scale::{LEFT, Scale, WIDTH};
use std::io;
use std::io::Write;

/// Returns how many hundredths lie between two grid lines of hit ratios.
fn step_of(scale: &Scale) -> u64
    ensures step { result ≡ step_of scale.now.tenths }
    ensures some { 1 ≤ result }
    ensures few { result ≤ 10 }
{
    if scale.tenths <= 2 {
        scale.tenths.max(1) as u64
    } else if scale.tenths <= 5 {
        5
    } else {
        10
    }
}

/// Writes a grid line, with the hit ratio of so many hundredths beside it.
#[tactic(auto, unfolding(crate::specs::Axis::ratio_line_text))]
fn write_ratio<W: Write>(down: u128, hundredths: u64, writer: &mut W) -> io::Result<()>
    ensures { OnOk result (Appends (W.contents writer.old) (W.contents writer.new)
        (ratio_line_text down hundredths)) }
{
    let whole = hundredths / 100;
    let tenths = hundredths / 10 % 10;
    let rest = hundredths % 10;
    writeln!(
        writer,
        "<path class='grid' d='M800 {down}h6400'/><text class='left' x='720' y='{down}' dy='45'>{whole}.{tenths}{rest}</text>"
    )
}

/// Returns the hundredths of the grid line after so many.
fn ratio_at(scale: &Scale, line: u64) -> u64
    requires sound { IsScale scale.now }
    requires few { line ≤ 100 }
    ensures { result ≡ ratio_at scale.now line }
{
    10 * scale.from as u64 + line * step_of(scale)
}

/// Returns how many grid lines of hit ratios come after the first.
fn last_line(scale: &Scale) -> u64
    requires { IsScale scale.now }
    ensures last { result ≡ last_line scale.now }
    ensures few { result ≤ 100 }
{
    10 * scale.tenths as u64 / step_of(scale)
}

/// Writes the grid lines of hit ratios, with their labels, from the beginning of the axis to its end.
pub(crate) fn write_ratios<W: Write>(scale: &Scale, writer: &mut W) -> io::Result<()>
    requires { IsScale scale.now }
    ensures { OnOk result (Appends (W.contents writer.old) (W.contents writer.new)
        (ratio_lines_text scale.now (last_line scale.now + 1))) }
{
    for line in 0..last_line(scale) + 1 {
        let hundredths = ratio_at(scale, line);
        write_ratio(down_of(scale, hundredths, 100), hundredths, writer)?;
    }
    Ok(())
}

/// Returns the place of the axis after this many doublings, in tenths of a pixel from the left.
fn tick_at(scale: &Scale, step: u32) -> u128
    requires { IsScale scale.now }
    ensures { result ≡ tick_at scale.now step }
{
    LEFT + WIDTH * u128::from(step) / u128::from(scale.doublings)
}

/// Returns the number of frames at that place.
fn frames_at(scale: &Scale, step: u32) -> u128
    requires sound { IsScale scale.now }
    requires on { step ≤ scale.now.doublings }
    ensures { result ≡ 2 ^ (scale.now.low + step) }
{
    2u128.pow(scale.low + step)
}

/// Writes a grid line, with the number of frames under it.
#[tactic(auto, unfolding(crate::specs::Axis::tick_text))]
fn write_tick<W: Write>(right: u128, frames: u128, writer: &mut W) -> io::Result<()>
    ensures { OnOk result (Appends (W.contents writer.old) (W.contents writer.new)
        (tick_text right frames)) }
{
    writeln!(
        writer,
        "<path class='grid' d='M{right} 400v4000'/><text class='middle small' x='{right}' y='4600'>{frames}</text>"
    )
}

/// Writes a grid line and a label for each power of two on the axis.
pub(crate) fn write_ticks<W: Write>(scale: &Scale, writer: &mut W) -> io::Result<()>
    requires { IsScale scale.now }
    ensures { OnOk result (Appends (W.contents writer.old) (W.contents writer.new)
        (ticks_text scale.now (scale.now.doublings + 1))) }
{
    for step in 0..scale.doublings + 1 {
        write_tick(tick_at(scale, step), frames_at(scale, step), writer)?;
    }
    Ok(())
}
