//! The keepers of a core's trail and of a client's own list, which have the entries in memory, or for the proofs alone.
//!
//! A core is generic over its [`Keeper`], and a client's list over its [`ListKeeper`]. [`RecordingKeeper`] has the
//! entries in memory, and can hand them out. [`SilentKeeper`] counts them, and has no bytes of them; what is promised
//! of its core or list is proved of the same entries, which stand in ghost data. Both count the replies of each kind.
#![tactic(auto)]

pub mod ghost_trail;
pub mod keeper;
pub mod laws;
pub mod list_keeper;
pub mod recording;
pub mod silent;

pub use ghost_trail::{GhostImage, GhostTrail};
pub use keeper::Keeper;
pub use list_keeper::ListKeeper;
pub use recording::RecordingKeeper;
pub use silent::SilentKeeper;
