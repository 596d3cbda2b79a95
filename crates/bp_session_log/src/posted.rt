//! `Posted`: the clients that posted passes since the rings were last drained.
use std::sync::atomic::{AtomicU64, Ordering};

/// A bit for each client that posted passes since the rings were last drained. One word is cheaper to look at than each
/// ring, to which its client writes.
///
/// A client announces a pass once it is in the ring, and the word is taken under the lock. So a section asks each ring
/// whose passes were announced before it. A pass that is announced later is drained by the next one, or by whatever
/// drains all rings. A client that is alone announces none, since each of its sections empties its own ring.
#[derive(Drop)]
pub struct Posted {
    has_others: bool,
    /// Bit c: client c announced a pass.
    announced: AtomicU64,
}

impl Posted {
    /// Starts with no client that posted. There are at most 64 clients.
    pub fn nothing(clients: u8) -> Posted {
        Posted {
            has_others: clients > 1,
            announced: AtomicU64::new(0),
        }
    }

    /// Tells that the client's ring has one more pass.
    pub fn tell(&self, client: u8) {
        if self.has_others {
            let bit = 1u64.wrapping_shl(u32::from(client));
            self.announced.fetch_or(bit, Ordering::SeqCst);
        }
    }

    /// Takes the rings that a section is to ask, bit c for client c: those announced since the last time.
    pub fn take(&self) -> u64 {
        if self.announced.load(Ordering::SeqCst) == 0 {
            return 0;
        }
        self.announced.swap(0, Ordering::SeqCst)
    }
}
