//! `Setup`: the parameters of the pool by which its trail is judged.

use bp_page::Geometry;
use bp_replacer::Settings;

/// The parameters of the pool that made a trail, as far as the lawful replies depend on them.
#[derive(Clone, Copy)]
pub struct Setup {
    pub geometry: Geometry,
    pub settings: Settings,
    /// The number of frames of the pool. Any number will do.
    pub frames: usize,
    /// The clients have the numbers below this.
    pub clients: u8,
}
