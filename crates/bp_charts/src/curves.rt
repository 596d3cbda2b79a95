//! `Curve`, a line of a chart, and its points.

/// The policy whose hit ratios a line shows.
#[derive(Clone, Copy)]
pub enum Which {
    /// LRU-K with this K; 1 is LRU.
    K(usize),
    /// Belady's optimum, which knows the future references.
    Optimum,
}

/// The hits and fixes of the references over one pool.
#[derive(Clone, Copy)]
pub struct Point {
    pub frames: usize,
    /// The fixes that found their page in a frame.
    pub hits: u64,
    pub fixes: u64,
}

/// A line of a chart, drawn from point to point in their order.
#[derive(Drop)]
pub struct Curve {
    /// The policy, which the legend names.
    pub which: Which,
    /// The points, by increasing number of frames.
    pub points: Vec<Point>,
}
