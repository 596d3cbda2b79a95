//! `locked`: takes the pool's lock, with growing pauses before the thread sleeps.
use std::hint::spin_loop;
use std::sync::{Mutex, MutexGuard, Wait};

// The number of looks at a held lock before the thread sleeps.
const LOOKS: u32 = 6;

// The steps of the first pause between two looks: some twenty microseconds, so that the thread that has the lock makes
// some fifty calls before it is looked at again. Each pause is twice the one before.
const FIRST_PAUSE: u32 = 512;

// Lets a short time go by without a sleep.
fn pause(steps: u32) {
    for _ in 0..steps {
        spin_loop();
    }
}

/// Takes a lock. Where it is held, the pauses between the looks grow, and after the last one the thread sleeps.
///
/// So the thread that has the lock makes many calls in a row. Were the lock handed over at each call, each call would
/// fetch the pool's memory from the cache of another processor, which takes longer than the call.
pub(crate) fn locked<'b, T, R: Wait>(rt: &R, mutex: &'b Mutex<T>) -> MutexGuard<'b, T> {
    let mut steps = FIRST_PAUSE;
    for _ in 0..LOOKS {
        if let Some(guard) = mutex.try_lock() {
            return guard;
        }
        pause(steps);
        steps = steps.saturating_mul(2);
    }
    mutex.lock(rt)
}
