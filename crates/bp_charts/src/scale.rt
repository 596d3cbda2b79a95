//! The axes. That of frames begins and ends at powers of two, and each doubling has the same width; that of hit ratios
//! begins and ends at tenths.
ghost use Rattle.std.specs.Prelude.{◌≡◌, ◌≤◌, fold};
ghost use Rattle.bp_charts.specs.Scale.{IsScale, and_point, halvings, scale_over, span_of};

use crate::curves::{Curve, Point};

/// Where the axis begins, in tenths of a pixel from the picture's left.
pub(crate) const LEFT: u128 = 800;

/// The width of the axis, in tenths of a pixel.
pub(crate) const WIDTH: u128 = 6400;

/// The least and the greatest number of frames, and the tenths around all hit ratios.
#[derive(Clone, Copy)]
pub(crate) struct Span {
    least: usize,
    greatest: usize,
    lowest: u128,
    highest: u128,
}

/// An axis of frames, from `2^low` to `2^(low + doublings)`, and one of hit ratios, from so many tenths on.
#[derive(Clone, Copy)]
pub(crate) struct Scale {
    pub(crate) low: u32,
    pub(crate) doublings: u32,
    pub(crate) from: u128,
    pub(crate) tenths: u128,
}

/// Returns how often a number can be halved before it is below two.
pub(crate) fn halvings(frames: usize) -> u32
    ensures count { result ≡ halvings frames }
    ensures few { result ≤ 63 }
{
    63u32.saturating_sub(frames.leading_zeros())
}

/// Widens the span to contain these points.
fn widen(span: Span, points: &[Point]) -> Span
    ensures { result ≡ fold and_point span points.now }
{
    let mut wide = span;
    for point in points {
        let fixes = u128::from(point.fixes.max(1));
        let tenfold = 10 * u128::from(point.hits.min(point.fixes));
        wide = Span {
            least: wide.least.min(point.frames),
            greatest: wide.greatest.max(point.frames),
            lowest: wide.lowest.min(tenfold / fixes),
            highest: wide.highest.max((tenfold + fixes - 1) / fixes),
        };
    }
    wide
}

/// Returns the span of the points of all lines.
fn span_of(lines: &[Curve]) -> Span
    ensures { result ≡ span_of lines.now }
{
    let mut span = Span {
        least: usize::MAX,
        greatest: 1,
        lowest: 9,
        highest: 0,
    };
    for line in lines {
        span = widen(span, line.points.as_slice());
    }
    span
}

/// Returns the axes over a span: at least one doubling, and at least one tenth.
fn scale_over(span: Span) -> Scale
    ensures scale { result ≡ scale_over span }
    ensures sound { IsScale result }
{
    let low = halvings(span.least.min(span.greatest));
    let high = halvings(span.greatest.saturating_sub(1)) + 1;
    let from = span.lowest.min(9);
    Scale {
        low,
        doublings: high.saturating_sub(low).max(1),
        from,
        tenths: span.highest.min(10).saturating_sub(from).max(1),
    }
}

/// Returns the axes over the points of all lines.
pub(crate) fn scale_of(lines: &[Curve]) -> Scale
    ensures scale { result ≡ scale_over (span_of lines.now) }
    ensures sound { IsScale result }
{
    scale_over(span_of(lines))
}
