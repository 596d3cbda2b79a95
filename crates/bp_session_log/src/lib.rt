//! A client's own list of its entries in a shared pool, with room for all that the list owes.
//!
//! A [`Book`] asks a core for one event at a time, and puts the entry that the core's trail gets into the client's list
//! too. Device work that the event began is a [`PendingRead`] or a [`PendingWrite`], which only its end takes. The
//! memory for an event, and for the ends and unfixes that are owed after it, is taken before the event, by
//! `Book::reserve`; nothing else but a cut takes any for the list.
//!
//! A pass goes back by a ring: its client posts it, and [`drain_all`] gives the passes of all rings back to the core.
//! [`Posted`] tells which rings have any. Nothing here knows of a lock: the core is one that the caller holds.
//!
//! A [`Board`] has a list of entries for each of its lines, and each [`Line`] has its own, in proofs alone. A line is
//! changed only by [`Board::write`], at the board and at the line at once. So where a board lies under a lock, and a
//! line with a client, the client's list is what the board has of it, whoever took the lock in between. Neither has any
//! bytes, and no call does anything when it runs.
#![tactic(auto)]

pub mod boards;
pub mod book;
pub mod draining;
pub mod events;
pub mod pending;
mod posted;

pub use boards::{Board, Line, Shows};
pub use book::{Book, Room};
pub use draining::drain_all;
pub use events::{AskFix, AskFlush, Discard, Event, Purge, Tick};
pub use pending::{Fix, Flush, PendingRead, PendingWrite};
pub use posted::Posted;
