//! A pool in parts: shared pools side by side over one page file, so that many threads do not stand behind one lock.
//! Page p of the file is page p div n of part p mod n.
//!
//! Each part has its own frames, lock, mark, clock and trail, and a client has a session in each. What holds of a
//! shared pool holds of each part: its trail is one legal history, and a client's list there is bound to it. The victim
//! of a fix is its part's own, so the pool as a whole does not replace by LRU-K, but each part does.
#![tactic(auto)]

pub mod ending;
pub mod laws;
pub mod log_writer;
pub mod making;
pub mod passes;
pub mod pool;
pub mod sessions;

pub use ending::{EndRoom, EndedParts, end_parts};
pub use log_writer::PartedLog;
pub use making::{Parted, make_parts, new_cores, new_names};
pub use passes::PartPass;
pub use pool::{PartCount, PartedPool};
pub use sessions::PartedSession;
