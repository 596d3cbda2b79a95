//! The judge of trails, for tests.
use bp_check::{Setup, first_unlawful};
use bp_core::{Core, Entry, Keeper, PoolCore};
use bp_workers::Config;
use std::alloc::{AllocError, Global};

/// Returns the judge's parameters for a core.
pub fn setup_of<K: Keeper>(core: &PoolCore<K>) -> Setup {
    Setup {
        geometry: core.geometry(),
        settings: core.settings(),
        frames: core.frames(),
        clients: core.clients(),
    }
}

/// Returns the judge's parameters for a run of so many clients.
pub fn setup_of_run(config: &Config, clients: u8) -> Setup {
    Setup {
        geometry: config.geometry,
        settings: config.settings,
        frames: config.frames,
        clients,
    }
}

/// Returns the place of the first unlawful entry, or None. Where memory is refused, it tries again.
pub fn unlawful(
    alloc: Global,
    setup: &Setup,
    entries: &[Entry],
) -> Result<Option<usize>, AllocError> {
    match first_unlawful(alloc, setup, entries) {
        Ok(place) => Ok(place),
        Err(_) => first_unlawful(alloc, setup, entries),
    }
}

/// Returns the place of the first unlawful entry of a core's trail, or None.
pub fn unlawful_in(alloc: Global, core: &Core) -> Result<Option<usize>, AllocError> {
    unlawful(alloc, &setup_of(core), core.trail())
}
