//! The places of points in the picture, and their marks.
ghost use Rattle.std.specs.Prelude.{◌≡◌, flat_map, OnOk};
ghost use Rattle.std.specs.Io.KnownBytes.{Appends};
ghost use Rattle.bp_charts.specs.Scale.{IsScale};
ghost use Rattle.bp_charts.specs.Places.{down_of, mark_of, mark_text, place_of, place_text, right_of, stroke_of};

use crate::curves::Point;
use crate::scale::{LEFT, Scale, WIDTH, halvings};
use std::io;
use std::io::Write;

/// Where the axis of hit ratios begins, in tenths of a pixel from the picture's top.
const BOTTOM: u128 = 4400;

/// Its end is so much higher, in tenths of a pixel.
const HEIGHT: u128 = 4000;

/// A place, in tenths of a pixel from the picture's left and from its top.
#[derive(Clone, Copy)]
pub(crate) struct Place {
    right: u128,
    down: u128,
}

/// Returns the place of a number of frames, in tenths of a pixel from the left. Between powers of two it is linear.
fn right_of(scale: &Scale, frames: usize) -> u128
    requires { IsScale scale.now }
    ensures { result ≡ right_of scale.now frames }
{
    let halvings = halvings(frames);
    let power = 2u128.pow(halvings);
    let whole = u128::from(halvings.saturating_sub(scale.low)) * power;
    let rest = (frames as u128).saturating_sub(power);
    LEFT + WIDTH * (whole + rest) / (u128::from(scale.doublings) * power)
}

/// Returns the place of a hit ratio, in tenths of a pixel from the top.
pub(crate) fn down_of(scale: &Scale, hits: u64, fixes: u64) -> u128
    requires { IsScale scale.now }
    ensures { result ≡ down_of scale.now hits fixes }
{
    let some = u128::from(fixes.max(1));
    let all = scale.tenths * some;
    let above = (10 * u128::from(hits.min(fixes))).saturating_sub(scale.from * some);
    BOTTOM - HEIGHT * above.min(all) / all
}

fn place_of(scale: &Scale, point: &Point) -> Place
    requires { IsScale scale.now }
    ensures { result ≡ place_of scale.now point.now }
{
    Place {
        right: right_of(scale, point.frames),
        down: down_of(scale, point.hits, point.fixes),
    }
}

/// Writes a place of the path of a stroke.
#[tactic(auto, unfolding(crate::specs::Places::place_text))]
fn write_place<W: Write>(place: Place, writer: &mut W) -> io::Result<()>
    ensures { OnOk result (Appends (W.contents writer.old) (W.contents writer.new)
        (place_text place)) }
{
    let right = place.right;
    let down = place.down;
    write!(writer, "{right},{down} ")
}

pub(crate) fn write_places<W: Write>(
    scale: &Scale,
    points: &[Point],
    writer: &mut W,
) -> io::Result<()>
    requires { IsScale scale.now }
    ensures { OnOk result (Appends (W.contents writer.old) (W.contents writer.new)
        (flat_map (stroke_of scale.now) points.now)) }
{
    for point in points {
        write_place(place_of(scale, point), writer)?;
    }
    Ok(())
}

/// Writes the mark of a point at its place. Its numbers are shown on hover.
#[tactic(auto, unfolding(crate::specs::Places::mark_text))]
fn write_mark<W: Write>(place: Place, point: &Point, writer: &mut W) -> io::Result<()>
    ensures { OnOk result (Appends (W.contents writer.old) (W.contents writer.new)
        (mark_text place point.now)) }
{
    let right = place.right;
    let down = place.down;
    let frames = point.frames;
    let hits = point.hits;
    let fixes = point.fixes;
    writeln!(
        writer,
        "<circle cx='{right}' cy='{down}' r='40'><title>{frames} frames: {hits} hits of {fixes} fixes</title></circle>"
    )
}

pub(crate) fn write_marks<W: Write>(
    scale: &Scale,
    points: &[Point],
    writer: &mut W,
) -> io::Result<()>
    requires { IsScale scale.now }
    ensures { OnOk result (Appends (W.contents writer.old) (W.contents writer.new)
        (flat_map (mark_of scale.now) points.now)) }
{
    for point in points {
        write_mark(place_of(scale, point), point, writer)?;
    }
    Ok(())
}
