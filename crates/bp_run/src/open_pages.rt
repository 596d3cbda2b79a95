//! Open page files, in memory or on disk.
ghost use Rattle.std.specs.Prelude.{◌≡◌};
ghost use Rattle.bp_ports.specs.Ports.{has_headers};

use bp_page::{Format, Geometry};
use bp_ports::{FilePort, MemDevice};

/// A page file in memory, whose device gives each client its port.
#[derive(Drop)]
pub struct OpenMemory {
    pub geometry: Geometry,
    pub device: MemDevice,
    /// The device has this geometry.
    pub ghost same: { device ≡ geometry },
}

/// A page file at a path, with the port that opened it. Further ports open it again by its path and version.
#[derive(Drop)]
pub struct OpenFile {
    pub path: String,
    /// The version of the file: whether each page has a header with its number and its page LSN.
    pub format: Format,
    /// The port that opened the file.
    pub first: FilePort,
    /// The port reads and writes the file in this version.
    pub ghost headed: { first.headed ≡ has_headers format },
}

/// The page file of a run, in memory or on disk.
#[derive(Drop)]
pub enum OpenPages {
    Mem(OpenMemory),
    File(OpenFile),
}
