//! `Stats`: the counters of a core.
use bp_trail::Totals;

/// The number of replies of each kind since the core was made, and of pages in each state now.
#[derive(Clone, Copy, Drop)]
pub struct Stats {
    /// Replies of each kind, also those of entries that cuts handed out.
    pub totals: Totals,
    /// Pages in frames.
    pub resident: usize,
    /// Pages of which a pass is out. Of a shared pool also those whose pass still waits in a ring.
    pub pinned: usize,
    pub unsaved: usize,
    /// Pages that are being read, or made anew.
    pub loading: usize,
    /// Pages that are being written out.
    pub writing: usize,
}
