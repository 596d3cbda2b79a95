//! Laws of charts, which hold for all lines. Each function does nothing: its contract is the law.
ghost use Rattle.bp_charts.specs.Scale.{scale_over, span_of};
ghost use Rattle.bp_charts.specs.Within.{AreOnAxes, HasItsNumbers, HaveFrames};

use crate::curves::Curve;

/// The axes contain all points: where each point has at least one frame, the axis of frames begins at or below the
/// least number of frames and ends at or above the greatest, and each point is within the axes.
pub fn points_stand_within_the_axes(lines: &[Curve])
    requires { HaveFrames lines.now }
    ensures { AreOnAxes (scale_over (span_of lines.now)) lines.now }
{}

/// The labels of the grid lines are right: a point with the number of frames that is written under a grid line is on
/// that line.
pub fn grid_lines_stand_at_their_frames(lines: &[Curve])
    ensures { HasItsNumbers (scale_over (span_of lines.now)) }
{}
