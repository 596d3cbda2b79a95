//! A picture of a few points, with places that were worked out by hand.
use crate::io::writers::Limited;
use bp_charts::{Curve, Point, Which, write_chart};
use std::process::Abort;

const BEGIN: &str =
    "<svg xmlns='http://www.w3.org/2000/svg' viewBox='0 0 9400 5200' width='940' height='520' role='img'>\n";

/// The rest of the picture. The least hit ratio is 2 of 8, so the axis begins at 0.2, which is at 4,400, and 1 is 4,000
/// higher: a tenth is 500. From 64 frames on there are two doublings: 64 is at the left, 128 in the middle, 192 halfway
/// on, and 256 at the right. 2 hits of 8 fixes are half a tenth above the beginning, and 5 hits four tenths and a quarter.
const REST: &str = "\
<path class='grid' d='M800 4400h6400'/><text class='left' x='720' y='4400' dy='45'>0.20</text>
<path class='grid' d='M800 3900h6400'/><text class='left' x='720' y='3900' dy='45'>0.30</text>
<path class='grid' d='M800 3400h6400'/><text class='left' x='720' y='3400' dy='45'>0.40</text>
<path class='grid' d='M800 2900h6400'/><text class='left' x='720' y='2900' dy='45'>0.50</text>
<path class='grid' d='M800 2400h6400'/><text class='left' x='720' y='2400' dy='45'>0.60</text>
<path class='grid' d='M800 1900h6400'/><text class='left' x='720' y='1900' dy='45'>0.70</text>
<path class='grid' d='M800 1400h6400'/><text class='left' x='720' y='1400' dy='45'>0.80</text>
<path class='grid' d='M800 900h6400'/><text class='left' x='720' y='900' dy='45'>0.90</text>
<path class='grid' d='M800 400h6400'/><text class='left' x='720' y='400' dy='45'>1.00</text>
<path class='grid' d='M800 400v4000'/><text class='middle small' x='800' y='4600'>64</text>
<path class='grid' d='M4000 400v4000'/><text class='middle small' x='4000' y='4600'>128</text>
<path class='grid' d='M7200 400v4000'/><text class='middle small' x='7200' y='4600'>256</text>
<path class='axis' d='M800 400v4000h6400'/>
<g class='c0 d0'>
<polyline points='800,4150 4000,2900 5600,2275 7200,400 '/>
<circle cx='800' cy='4150' r='40'><title>64 frames: 2 hits of 8 fixes</title></circle>
<circle cx='4000' cy='2900' r='40'><title>128 frames: 4 hits of 8 fixes</title></circle>
<circle cx='5600' cy='2275' r='40'><title>192 frames: 5 hits of 8 fixes</title></circle>
<circle cx='7200' cy='400' r='40'><title>256 frames: 8 hits of 8 fixes</title></circle>
<path d='M7450 500h600'/><text x='8150' y='500' dy='45'>K = 1 (LRU)</text>
</g>
<g class='c1 d1'>
<polyline points=''/>
<path d='M7450 710h600'/><text x='8150' y='710' dy='45'>K = 2</text>
</g>
<g class='optimum'>
<polyline points='4000,400 '/>
<circle cx='4000' cy='400' r='40'><title>128 frames: 3 hits of 3 fixes</title></circle>
<path d='M7450 920h600'/><text x='8150' y='920' dy='45'>optimum</text>
</g>
</svg>
";

fn point(frames: usize, hits: u64, fixes: u64) -> Point {
    Point {
        frames,
        hits,
        fixes,
    }
}

fn line<const N: usize>(
    rt: &(impl Abort + AllocGlobal),
    which: Which,
    points: [Point; N],
) -> Curve {
    let points = Vec::from_array(rt.alloc(), points).expect(rt, "the points");
    Curve { which, points }
}

fn three_lines(rt: &(impl Abort + AllocGlobal)) -> [Curve; 3] {
    let lru = [
        point(64, 2, 8),
        point(128, 4, 8),
        point(192, 5, 8),
        point(256, 8, 8),
    ];
    [
        line(rt, Which::K(1), lru),
        line(rt, Which::K(2), []),
        line(rt, Which::Optimum, [point(128, 3, 3)]),
    ]
}

/// Returns true if a picture of one line with this point is drawn.
fn is_drawn(rt: &(impl Abort + AllocGlobal), odd: Point) -> bool {
    let mut picture = Vec::new(rt.alloc());
    write_chart(&[line(rt, Which::K(1), [odd])], &mut picture).is_ok()
}

// A point without frames, one without fixes, and one with more hits than fixes are drawn.
#[test]
fn odd_points_are_drawn(rt: HostRuntime) {
    assert!(rt; is_drawn(&rt, point(0, 0, 0)));
    assert!(rt; is_drawn(&rt, point(1, 3, 2)));
    let mut picture = Vec::new(rt.alloc());
    write_chart(&[], &mut picture).expect(&rt, "a picture without lines");
}

/// A picture has its points where they were worked out. A writer that fails at any byte gets the picture up to there.
#[test]
fn points_stand_at_their_places(rt: HostRuntime) {
    let lines = three_lines(&rt);
    let mut picture = Vec::new(rt.alloc());
    write_chart(&lines, &mut picture).expect(&rt, "the picture");
    assert!(rt; picture.as_slice().starts_with(BEGIN.as_bytes()));
    assert!(rt; picture.as_slice().ends_with(REST.as_bytes()));
    for limit in 0..picture.len().saturating_add(1) {
        let mut writer = Limited::to(rt.alloc(), limit);
        let outcome = write_chart(&lines, &mut writer);
        assert!(rt;
            writer.stopped_rightly(outcome, &picture),
            "of {limit} bytes"
        );
    }
}
