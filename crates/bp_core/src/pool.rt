//! `PoolCore`: the core itself, which is its trail and the state that the trail's entries lead to.
ghost use Rattle.bp_core.specs.Agreement.{parameters_of, parameters_with};
ghost use Rattle.bp_core.specs.Outcomes.{NewOutcome};

mod access;
mod checkpoint;
mod cutting;
mod discarding;
mod fixing;
mod loading;
mod lookups;
mod queries;
mod reading;
mod upkeep;
mod write_outs;

use crate::config::{Config, CoreConfig};
use crate::state::State;
use bp_keeper::Keeper;
use bp_page::{Geometry, Refusal};
use bp_replacer::Settings;
use std::alloc::Global;
use std::marker::Model;

/// A buffer pool without its device: frames, passes, tickets and the trail of all that was done, which its keeper
/// has. Each call is one step.
#[derive(Drop)]
pub struct PoolCore<K: Keeper> {
    trail: K,
    state: State,
    config: CoreConfig,
    alloc: Global,
}

impl<K: Keeper> Model for PoolCore<K> {
    ghost use Rattle.bp_core.specs.CoreView.{CoreView};
    ghost use Rattle.bp_core.specs.Agreement.{parameters_of, view_of, IsCore};

    ghost Value = { CoreView };

    ghost view = { λ c. view_of (parameters_of c.config) (K.kept c.trail) };

    ghost invariant = { λ c. IsCore (parameters_of c.config) (K.kept c.trail) c.state };
}

impl<K: Keeper> PoolCore<K> {
    /// Makes a core with empty frames, the clock at 1 and nothing durable. `BadSettings` where the frames are not 1 to
    /// 65,536, the clients not 1 to 64 or the room not 1 to its keeper's most, which is 16,777,216 entries in memory,
    /// or a count of 2^61; `OutOfMemory` where there is no memory for the lists.
    pub fn new(
        alloc: Global,
        geometry: Geometry,
        settings: Settings,
        frames: usize,
        clients: u8,
        room: usize,
    ) -> Result<PoolCore<K>, Refusal>
        ensures outcome { NewOutcome K.MOST_ROOM (parameters_of
            (record {
              geometry = geometry;
              settings = settings;
              frames = frames;
              clients = clients;
              room = room;
            })) result }
    {
        let config = CoreConfig::new(geometry, settings, frames, clients, room, K::MOST_ROOM)?;
        let trail = K::with_capacity(alloc, room)?;
        let state = State::new(alloc, &config)?;
        Ok(PoolCore {
            alloc,
            config,
            state,
            trail,
        })
    }
    /// Makes a core of this configuration for so many clients, as `new` does.
    pub fn with_config(alloc: Global, config: &Config, clients: u8) -> Result<PoolCore<K>, Refusal>
        ensures outcome { NewOutcome K.MOST_ROOM (parameters_with config.now clients) result }
    {
        PoolCore::new(
            alloc,
            config.geometry,
            config.settings,
            config.frames,
            clients,
            config.room,
        )
    }
}
