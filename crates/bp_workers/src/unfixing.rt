//! `unfix_all`: gives back the passes that a worker still holds when it returns.
ghost use Rattle.std.specs.Prelude.{◌≡◌, ◌≤◌, ◌-◌, [], length};
ghost use Rattle.bp_trail.specs.HeldPasses.{held_passes};
ghost use Rattle.bp_workers.specs.Giving.{GoBack};

use bp_keeper::ListKeeper;
use bp_shared::{PoolName, Session, SharedPool};
use std::sync::Wait;

/// Gives the pass back that a session took first of those that it holds, if it holds one.
fn unfix_oldest<N: PoolName, K: ListKeeper, R: Wait>(
    rt: &R,
    pool: &SharedPool<N, K>,
    session: &mut Session<N, K>,
)
    ensures client { session.new.client ≡ session.old.client }
    ensures before { session.new.before ≡ session.old.before }
    ensures seen { session.new.seen ≡ session.old.seen }
    ensures back { GoBack session.old.said session.new.said }
    ensures fewer { length (held_passes session.new.said)
        ≤ length (held_passes session.old.said) - 1 }
{
    let Some(note) = session.oldest_held() else {
        return;
    };
    match pool.unfix_draining(rt, session, note.pass()) {
        Ok(()) => {}
        Err((_pass, _)) => unreachable!(),
    }
}

/// Gives back all passes that a session holds, in the order taken.
pub(crate) fn unfix_all<N: PoolName, K: ListKeeper, R: Wait>(
    rt: &R,
    pool: &SharedPool<N, K>,
    session: &mut Session<N, K>,
)
    ensures client { session.new.client ≡ session.old.client }
    ensures before { session.new.before ≡ session.old.before }
    ensures seen { session.new.seen ≡ session.old.seen }
    ensures back { GoBack session.old.said session.new.said }
    ensures all { held_passes session.new.said ≡ [] }
{
    for _ in 0..session.held_count() {
        unfix_oldest(rt, pool, session);
    }
}
